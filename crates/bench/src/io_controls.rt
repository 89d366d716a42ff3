// Kinds 8, 9 and 15.
use crate::step::{client, server};
use crate::{bytes, ids};
use table::table::Table;
use wire::io_control::IoControl;
use words::layout::Part;
use writer::io_control_completion::IoControlCompletionFields;
use writer::message::Fields;

// Two requests that ask for four bytes, the second one internal, each with its answer.
pub(crate) fn asked(t: Table) -> Table {
    let control = Fields::IoControl(ids::DEVICE, request(0x22_0407, 3));
    let internal = Fields::InternalIoControl(ids::DEVICE, request(0x22_0424, 4));
    let one = server(t, control, &bytes::NUMBER);
    let two = client(one, completion(3), &bytes::NUMBER);
    let three = server(two, internal, &bytes::NUMBER);
    client(three, completion(4), &bytes::NUMBER)
}

// With four bytes of input.
fn request(code: u32, id: u8) -> IoControl {
    IoControl {
        code,
        input: Part { start: 0, size: 4 },
        size: 4,
        request: ids::request(id),
    }
}

fn completion(id: u8) -> Fields {
    Fields::IoControlCompletion(
        ids::CALLBACK,
        IoControlCompletionFields {
            request: ids::request(id),
            result: 0,
            information: 4,
            output: Part { start: 0, size: 4 },
        },
    )
}
