// URB_COMPLETION (000 2.2.7.2), kind 16, and URB_COMPLETION_NO_DATA (000 2.2.7.3), kind 17; wire::ts_urb_result has what they begin with.
ghost use Rattle.std.specs.Prelude.{◌≡◌};
ghost use Rattle.fields.specs.UrbCompletion.{behind_header, no_data_in, result_in, urb_completion_in};

use header::ids::RequestId;
use words::layout::Part;
use words::numbers::u32_at;
use writer::urb_completion::{UrbCompletionFields, UrbCompletionNoDataFields, UrbResultFields};

// What is left of a result behind its header of 8 bytes.
fn behind_header(n: u32) -> usize
    ensures { result ≡ behind_header n }
{
    n.saturating_sub(8) as usize
}

fn result(m: &[u8], n: u32) -> UrbResultFields
    ensures { result ≡ result_in m.now n }
{
    UrbResultFields {
        request: RequestId::read(m, 12),
        status: u32_at(m, 24),
        rest: Part {
            start: 28,
            size: behind_header(n),
        },
        result: u32_at(m, 20 + n as usize),
    }
}

#[tactic(auto, unfolding(crate::specs::UrbCompletion::urb_completion_in))]
pub(crate) fn read(m: &[u8]) -> UrbCompletionFields
    ensures { result ≡ urb_completion_in m.now }
{
    let n = u32_at(m, 16);
    let e = 20 + n as usize;
    UrbCompletionFields {
        urb: result(m, n),
        output: Part {
            start: e + 8,
            size: u32_at(m, e + 4) as usize,
        },
    }
}

#[tactic(auto, unfolding(crate::specs::UrbCompletion::no_data_in))]
pub(crate) fn read_no_data(m: &[u8]) -> UrbCompletionNoDataFields
    ensures { result ≡ no_data_in m.now }
{
    let n = u32_at(m, 16);
    let e = 20 + n as usize;
    UrbCompletionNoDataFields {
        urb: result(m, n),
        size: u32_at(m, e + 4),
    }
}
