// The phase in which a kind may come, and the phase after it: the last column of 01's table of kinds.
ghost use Rattle.std.specs.Prelude.{◌≡◌};
ghost use Rattle.answers.specs.Phase.{phases_of};

use crate::kind::Kind;

// Numbers, as a channel's phase is one.
#[derive(Clone, Copy)]
pub struct Phases {
    pub before: u8,
    pub after: u8,
}

fn from_to(before: u8, after: u8) -> Phases
    ensures { result ≡ record { before = before; after = after } }
{
    Phases { before, after }
}

pub fn of(kind: Kind) -> Phases
    ensures { result ≡ phases_of kind }
{
    match kind {
        Kind::CapabilityRequest => from_to(0, 1),
        Kind::CapabilityResponse => from_to(1, 2),
        Kind::ChannelCreatedByServer => from_to(2, 3),
        Kind::ChannelCreatedByClient => from_to(3, 4),
        Kind::AddVirtualChannel => from_to(4, 4),
        Kind::AddDevice => from_to(4, 5),
        Kind::RetractDevice => from_to(5, 6),
        Kind::CancelRequest
        | Kind::RegisterRequestCallback
        | Kind::IoControl
        | Kind::InternalIoControl
        | Kind::TransferInRequest
        | Kind::TransferOutRequest
        | Kind::IoControlCompletion
        | Kind::UrbCompletion
        | Kind::UrbCompletionNoData => from_to(5, 5),
    }
}
