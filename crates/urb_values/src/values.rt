// The rules on the values of a TsUrb (01 "Bodies"). The limits are constants of the structures that they belong to.
ghost use Rattle.std.specs.Prelude.{◌≡◌};
ghost use Rattle.urb_values.specs.Values.{urb_allowed, only_in, may_no_ack, incoming_allowed, outgoing_allowed, pipes_allowed, select_configuration_allowed};

use urb::interfaces::Interfaces;
use urb::isoch_transfer::IsochTransfer;
use urb::select_configuration::SelectConfiguration;
use urb::ts_urb::Urb;

// The values that 01 states for a TsUrb wherever it comes: a known function, and counts within their limits.
pub fn allowed(urb: Urb) -> bool
    ensures { result ≡ urb_allowed urb }
{
    match urb {
        Urb::SelectConfiguration(b) => configuration(b),
        Urb::SelectInterface(b) => pipes_allowed(b.pipes),
        Urb::GetCurrentFrameNumber
        | Urb::PipeRequest(_)
        | Urb::BulkOrInterruptTransfer(_)
        | Urb::ControlTransfer(_) => true,
        Urb::IsochTransfer(b) => b.packets <= IsochTransfer::MOST_PACKETS,
        Urb::Unknown => false,
    }
}

// The functions that come only in kind 10 with OutputBufferSize 0.
pub fn only_in(urb: Urb) -> bool
    ensures { result ≡ only_in urb }
{
    match urb {
        Urb::SelectConfiguration(_)
        | Urb::SelectInterface(_)
        | Urb::GetCurrentFrameNumber
        | Urb::PipeRequest(_) => true,
        Urb::BulkOrInterruptTransfer(_)
        | Urb::ControlTransfer(_)
        | Urb::IsochTransfer(_)
        | Urb::Unknown => false,
    }
}

// The function that may come with NoAck.
pub fn may_no_ack(urb: Urb) -> bool
    ensures { result ≡ may_no_ack urb }
{
    matches!(urb, Urb::IsochTransfer(_))
}

// The values of a transfer in, kind 10: no NoAck, and no OutputBufferSize where the function comes only so.
pub fn incoming(noack: bool, urb: Urb, size: u32) -> bool
    ensures { result ≡ incoming_allowed noack urb size }
{
    !noack && allowed(urb) && (!only_in(urb) || size == 0)
}

// The values of a transfer out, kinds 11 and 12.
pub fn outgoing(noack: bool, urb: Urb) -> bool
    ensures { result ≡ outgoing_allowed noack urb }
{
    allowed(urb) && !only_in(urb) && (!noack || may_no_ack(urb))
}

// The limit of an interface's pipes.
fn pipes_allowed(pipes: u32) -> bool
    ensures { result ≡ pipes_allowed pipes }
{
    pipes <= Interfaces::MOST_PIPES
}

// A descriptor, where the flag says that there is one, begins with 9 and 2.
fn configuration(b: SelectConfiguration) -> bool
    ensures { result ≡ select_configuration_allowed b }
{
    b.count <= SelectConfiguration::MOST_INTERFACES
        && pipes_allowed(b.pipes)
        && (b.flag == 0 || (b.descriptor.first == 9 && b.descriptor.second == 2))
}
