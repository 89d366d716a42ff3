// The kind of a message that passes checks 3 to 8, by its answer and its entry: 9 to 14 are tried behind them.
use answers::answer::Answer;
use answers::kind::Kind;
use table::table::Judged;

pub(crate) fn of(j: &Judged) -> Option<Kind> {
    match j.answer {
        Answer::Accepted
        | Answer::AlreadyOpen
        | Answer::Full
        | Answer::NotOpen
        | Answer::WrongSort
        | Answer::TooMuch
        | Answer::ResultDisagrees => numbered(j.entry?.kind),
        Answer::NoNumber
        | Answer::NoPlace
        | Answer::Short
        | Answer::Long
        | Answer::NoKind
        | Answer::WrongPhase
        | Answer::Sizes
        | Answer::Value => None,
    }
}

// An accepted transfer out with NoAck has a number of its own, 12.
fn numbered(number: u8) -> Option<Kind> {
    match number {
        12 => Some(Kind::TransferOutRequest),
        _ => Kind::try_from(number).ok(),
    }
}
