// What the readers say of one message, as the rest of a line.
use header::ids::{InterfaceId, RequestId};
use header::shared_msg_header;
use kinds::kind;
use wire::message;
use wire::message::{Asked, IoCompleted, Request, Unfit, UrbCompleted};
use words::layout::{Fault, Part};

pub(crate) fn of_message(
    m: &[u8],
    side: u8,
    device: Option<InterfaceId>,
    callback: Option<InterfaceId>,
) {
    let Some(h) = shared_msg_header::read(m) else {
        io::write_all(1, b" short");
        return;
    };
    let Some(found) = kind::kind_of(h, side, device, callback) else {
        io::write_all(1, b" no kind");
        return;
    };
    io::write_all(1, b" kind");
    number(u64::from(u8::from(found)));
    of_asked(message::ask(found, m));
}

fn of_asked(asked: Result<Asked, Unfit>) {
    match asked {
        Err(Unfit::Sizes(fault)) => of_fault(fault),
        Err(Unfit::Value) => {
            io::write_all(1, b" value");
        }
        Ok(Asked::Step | Asked::Retract) => plain(),
        Ok(Asked::Device(device, ms)) => of_device(device.number(), ms),
        Ok(Asked::Callback(callback)) => of_callback(callback),
        Ok(Asked::IoControl(r) | Asked::TransferIn(r) | Asked::TransferOut(r)) => of_request(r),
        Ok(Asked::Cancel(request)) => of_cancel(request),
        Ok(Asked::IoCompletion(c)) => of_io_completion(c),
        Ok(Asked::UrbCompletion(c) | Asked::UrbCompletionNoData(c)) => of_urb_completion(c),
    }
}

fn of_fault(fault: Fault) {
    match fault {
        Fault::RanOut(at) => {
            io::write_all(1, b" ran out at");
            number(at as u64);
        }
        Fault::Disagrees(at) => {
            io::write_all(1, b" disagrees at");
            number(at as u64);
        }
        Fault::LeftOver(at) => {
            io::write_all(1, b" left over at");
            number(at as u64);
        }
    }
}

fn of_device(device: u32, ms: u32) {
    io::write_all(1, b" fits");
    named(b" device", device);
    named(b" ms", ms);
    payload(Part::EMPTY);
}

fn of_callback(callback: Option<InterfaceId>) {
    io::write_all(1, b" fits");
    match callback {
        None => {
            io::write_all(1, b" callback none");
        }
        Some(id) => named(b" callback", id.number()),
    }
    payload(Part::EMPTY);
}

fn of_request(r: Request) {
    io::write_all(1, b" fits");
    named(b" request", r.request.number());
    if r.noack {
        io::write_all(1, b" noack");
    }
    named(b" size", r.size);
    payload(r.payload);
}

fn of_io_completion(c: IoCompleted) {
    io::write_all(1, b" fits");
    named(b" request", c.request.number());
    named(b" result", c.result);
    named(b" information", c.information);
    named(b" size", c.size);
    payload(c.payload);
}

fn of_cancel(request: RequestId) {
    io::write_all(1, b" fits");
    named(b" request", request.number());
    payload(Part::EMPTY);
}

fn of_urb_completion(c: UrbCompleted) {
    io::write_all(1, b" fits");
    named(b" request", c.request.number());
    named(b" size", c.size);
    payload(c.payload);
}

fn plain() {
    io::write_all(1, b" fits");
    payload(Part::EMPTY);
}

fn payload(part: Part) {
    io::write_all(1, b" payload");
    number(part.start as u64);
    number(part.size as u64);
}

fn named(name: &[u8], value: u32) {
    io::write_all(1, name);
    number(value as u64);
}

fn number(n: u64) {
    io::write_all(1, b" ");
    io::print_decimal(1, n);
}
