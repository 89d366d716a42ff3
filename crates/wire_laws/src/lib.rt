// Laws of the wire reader's definitions. There is no code here, and no contract of the wire layer cites a definition of this crate.
#![tactic(auto)]
