// 01 "Answer numbers, in the order they are tried".
ghost use Rattle.std.specs.Prelude.{◌≡◌};
ghost use Rattle.answers.specs.Answer.{answer_number};

#[derive(Clone, Copy)]
pub enum Answer {
    Accepted = 0,
    // the next number is 0 or 4,294,967,295
    NoNumber = 1,
    // a channel above 7, or a judged message of no side
    NoPlace = 2,
    Short = 3,
    Long = 4,
    NoKind = 5,
    WrongPhase = 6,
    Sizes = 7,
    Value = 8,
    AlreadyOpen = 9,
    Full = 10,
    NotOpen = 11,
    WrongSort = 12,
    TooMuch = 13,
    ResultDisagrees = 14,
}

// 01's number of an answer.
impl From<Answer> for u8 {
    ghost from_gives = { λ a n. n ≡ answer_number a };

    fn from(answer: Answer) -> u8 {
        answer as u8
    }
}
