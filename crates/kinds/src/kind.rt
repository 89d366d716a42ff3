// The kind of a message, by 01's table "Header and kinds": the first row that fits.
ghost use Rattle.std.specs.Prelude.{◌≡◌, find, option_copied, option_map};
ghost use Rattle.kinds.specs.Kinds.{goes_to, calls_at, calls_known, fits, first_fitting, kinds, side_number, side_of};

use answers::kind::Kind;
use header::ids::InterfaceId;
use header::shared_msg_header::Header;
use wire::add_device::AddDevice;
use wire::add_virtual_channel::AddVirtualChannel;
use wire::cancel_request::CancelRequest;
use wire::capability_request::CapabilityRequest;
use wire::capability_response::CapabilityResponse;
use wire::channel_created::ChannelCreated;
use wire::internal_io_control::InternalIoControl;
use wire::io_control::IoControl;
use wire::io_control_completion::IoControlCompletion;
use wire::register_request_callback::RegisterRequestCallback;
use wire::retract_device::RetractDevice;
use wire::transfer_in_request::TransferInRequest;
use wire::transfer_out_request::TransferOutRequest;
use wire::urb_completion::UrbCompletion;
use wire::urb_completion_no_data::UrbCompletionNoData;

// The sides that send messages (01 "Journal").
#[derive(Clone, Copy)]
pub enum Side {
    Server = 1,
    Client = 2,
}

// A number that is no side's.
#[derive(Clone, Copy)]
pub struct NoSide {}

impl From<Side> for u8 {
    ghost from_gives = { λ side n. n ≡ side_number side };

    fn from(side: Side) -> u8 {
        side as u8
    }
}

impl TryFrom<u8> for Side {
    type Error = NoSide;

    ghost try_from_gives = { λ n r. r ≡ side_of n };

    fn try_from(number: u8) -> Result<Side, NoSide> {
        match number {
            1 => Ok(Side::Server),
            2 => Ok(Side::Client),
            _ => Err(NoSide {}),
        }
    }
}

// Where a kind's messages go: to a default interface, with a function or with none; to the device; to the callback.
#[derive(Clone, Copy)]
pub enum Goes {
    Default(u32, u32),
    Nameless(u32),
    Device(u32),
    Callback(u32),
}

// A row of 01's table: the kind, the side that sends it, its mask, and where it goes.
#[derive(Clone, Copy)]
pub struct Row {
    pub kind: Kind,
    pub by: Side,
    pub mask: u32,
    pub goes: Goes,
}

// The rows in the order of 01's table, of which the first that fits is the kind.
const KINDS: [Row; 16] = [
    Row {
        kind: Kind::CapabilityRequest,
        by: Side::Server,
        mask: CapabilityRequest::MASK,
        goes: Goes::Default(CapabilityRequest::INTERFACE, CapabilityRequest::FUNCTION),
    },
    Row {
        kind: Kind::CapabilityResponse,
        by: Side::Client,
        mask: CapabilityResponse::MASK,
        goes: Goes::Nameless(CapabilityResponse::INTERFACE),
    },
    Row {
        kind: Kind::ChannelCreatedByServer,
        by: Side::Server,
        mask: ChannelCreated::MASK,
        goes: Goes::Default(
            ChannelCreated::INTERFACE_BY_SERVER,
            ChannelCreated::FUNCTION,
        ),
    },
    Row {
        kind: Kind::ChannelCreatedByClient,
        by: Side::Client,
        mask: ChannelCreated::MASK,
        goes: Goes::Default(
            ChannelCreated::INTERFACE_BY_CLIENT,
            ChannelCreated::FUNCTION,
        ),
    },
    Row {
        kind: Kind::AddVirtualChannel,
        by: Side::Client,
        mask: AddVirtualChannel::MASK,
        goes: Goes::Default(AddVirtualChannel::INTERFACE, AddVirtualChannel::FUNCTION),
    },
    Row {
        kind: Kind::AddDevice,
        by: Side::Client,
        mask: AddDevice::MASK,
        goes: Goes::Default(AddDevice::INTERFACE, AddDevice::FUNCTION),
    },
    Row {
        kind: Kind::CancelRequest,
        by: Side::Server,
        mask: CancelRequest::MASK,
        goes: Goes::Device(CancelRequest::FUNCTION),
    },
    Row {
        kind: Kind::RegisterRequestCallback,
        by: Side::Server,
        mask: RegisterRequestCallback::MASK,
        goes: Goes::Device(RegisterRequestCallback::FUNCTION),
    },
    Row {
        kind: Kind::IoControl,
        by: Side::Server,
        mask: IoControl::MASK,
        goes: Goes::Device(IoControl::FUNCTION),
    },
    Row {
        kind: Kind::InternalIoControl,
        by: Side::Server,
        mask: InternalIoControl::MASK,
        goes: Goes::Device(InternalIoControl::FUNCTION),
    },
    Row {
        kind: Kind::TransferInRequest,
        by: Side::Server,
        mask: TransferInRequest::MASK,
        goes: Goes::Device(TransferInRequest::FUNCTION),
    },
    Row {
        kind: Kind::TransferOutRequest,
        by: Side::Server,
        mask: TransferOutRequest::MASK,
        goes: Goes::Device(TransferOutRequest::FUNCTION),
    },
    Row {
        kind: Kind::RetractDevice,
        by: Side::Server,
        mask: RetractDevice::MASK,
        goes: Goes::Device(RetractDevice::FUNCTION),
    },
    Row {
        kind: Kind::IoControlCompletion,
        by: Side::Client,
        mask: IoControlCompletion::MASK,
        goes: Goes::Callback(IoControlCompletion::FUNCTION),
    },
    Row {
        kind: Kind::UrbCompletion,
        by: Side::Client,
        mask: UrbCompletion::MASK,
        goes: Goes::Callback(UrbCompletion::FUNCTION),
    },
    Row {
        kind: Kind::UrbCompletionNoData,
        by: Side::Client,
        mask: UrbCompletionNoData::MASK,
        goes: Goes::Callback(UrbCompletionNoData::FUNCTION),
    },
];

// What is asked of a row: a message's header and side, any that a call gives, and the interfaces that its channel has learnt.
#[derive(Clone, Copy)]
struct Sent {
    header: Header,
    side: u8,
    device: Option<InterfaceId>,
    callback: Option<InterfaceId>,
}

impl Row {
    // Whether a message goes to an interface, by the side and with the mask of the row.
    fn goes_to(self, m: Sent, interface: u32) -> bool
        ensures { result ≡ goes_to m.header m.side interface (side_number self.by) self.mask }
    {
        m.header.interface.number() == interface
            && m.side == u8::from(self.by)
            && m.header.mask == self.mask
    }

    // Whether it calls a function there.
    fn calls(self, m: Sent, interface: u32, function: u32) -> bool
        ensures { result ≡ calls_at m.header m.side interface (side_number self.by) self.mask function }
    {
        self.goes_to(m, interface) && m.header.function == function
    }

    // The same where the interface is one that the channel has learnt, or has not.
    fn calls_known(self, m: Sent, known: Option<InterfaceId>, function: u32) -> bool
        ensures { result ≡ calls_known m.header m.side known (side_number self.by) self.mask function }
    {
        match known {
            None => false,
            Some(id) => self.calls(m, id.number(), function),
        }
    }

    fn fits(self, m: Sent) -> bool
        ensures { result ≡ fits self m.header m.side m.device m.callback }
    {
        match self.goes {
            Goes::Default(interface, function) => self.calls(m, interface, function),
            Goes::Nameless(interface) => self.goes_to(m, interface),
            Goes::Device(function) => self.calls_known(m, m.device, function),
            Goes::Callback(function) => self.calls_known(m, m.callback, function),
        }
    }
}

fn rows() -> [Row; 16]
    ensures { result ≡ kinds }
{
    KINDS
}

// The first row that a message fits.
fn row_of(rows: &[Row], m: Sent) -> Option<&Row>
    ensures { option_copied result ≡ find (λ r. fits r m.header m.side m.device m.callback) rows.now }
{
    rows.iter().find(|row| row.fits(m))
}

fn kind_in(row: Option<&Row>) -> Option<Kind>
    ensures { result ≡ option_map (λ r. r.kind) (option_copied row.entry) }
{
    row.map(|row| row.kind)
}

// The kind of a message with this header, of this side, on a channel that knows these interfaces.
pub fn kind_of(
    h: Header,
    side: u8,
    device: Option<InterfaceId>,
    callback: Option<InterfaceId>,
) -> Option<Kind>
    ensures { result ≡ first_fitting kinds h side device callback }
{
    let sent = Sent {
        header: h,
        side,
        device,
        callback,
    };
    kind_in(row_of(&rows(), sent))
}
