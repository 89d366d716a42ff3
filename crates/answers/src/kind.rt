// The kinds that have a row in 01's table, and their numbers. 12, an accepted transfer out with NoAck, and 18, a close, have none there.
ghost use Rattle.std.specs.Prelude.{◌≡◌};
ghost use Rattle.answers.specs.Kind.{kind_at, kind_number};

#[derive(Clone, Copy)]
pub enum Kind {
    CapabilityRequest = 1,
    CapabilityResponse = 2,
    ChannelCreatedByServer = 3,
    ChannelCreatedByClient = 4,
    AddVirtualChannel = 5,
    AddDevice = 6,
    CancelRequest = 13,
    RegisterRequestCallback = 7,
    IoControl = 8,
    InternalIoControl = 9,
    TransferInRequest = 10,
    TransferOutRequest = 11,
    RetractDevice = 14,
    IoControlCompletion = 15,
    UrbCompletion = 16,
    UrbCompletionNoData = 17,
}

// 01's number of a kind.
impl From<Kind> for u8 {
    ghost from_gives = { λ k n. n ≡ kind_number k };

    fn from(kind: Kind) -> u8 {
        kind as u8
    }
}

// A number that is no kind's in 01's table.
#[derive(Clone, Copy)]
pub struct NoKind {}

impl TryFrom<u8> for Kind {
    type Error = NoKind;

    ghost try_from_gives = { λ n r. r ≡ kind_at n };

    fn try_from(number: u8) -> Result<Kind, NoKind> {
        Ok(match number {
            1 => Kind::CapabilityRequest,
            2 => Kind::CapabilityResponse,
            3 => Kind::ChannelCreatedByServer,
            4 => Kind::ChannelCreatedByClient,
            5 => Kind::AddVirtualChannel,
            6 => Kind::AddDevice,
            7 => Kind::RegisterRequestCallback,
            8 => Kind::IoControl,
            9 => Kind::InternalIoControl,
            10 => Kind::TransferInRequest,
            11 => Kind::TransferOutRequest,
            13 => Kind::CancelRequest,
            14 => Kind::RetractDevice,
            15 => Kind::IoControlCompletion,
            16 => Kind::UrbCompletion,
            17 => Kind::UrbCompletionNoData,
            _ => return Err(NoKind {}),
        })
    }
}
