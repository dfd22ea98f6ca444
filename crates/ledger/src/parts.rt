// The plain data of a station.
ghost use Rattle.std.specs.Prelude.{◌≡◌};
ghost use Rattle.ledger.specs.declared.parts.Answer.TheVariants.{Refused};

use crate::fault::StationFault;

// The four counts of a page.
#[derive(Clone, Copy, PartialEq, Eq, Debug, Default)]
pub struct Page {
    pub opened: u32,
    pub passed: u32,
    pub failed: u32,
    pub withdrawn: u32,
}

// What a token says: the station's number, the case's number on the page, and the rounds done.
#[derive(Clone, Copy, PartialEq, Eq, Debug)]
pub struct Numbers {
    pub station: u16,
    pub case: u32,
    pub rounds: u8,
}

// The sort of a token: what its case waits for is a message, a draw or the last pair.
#[derive(Clone, Copy, PartialEq, Eq, Debug)]
pub enum Sort {
    Waiting,
    Heard,
    Closing,
}

// The four elements of a round.
#[derive(Clone, Copy)]
pub struct Message<K> {
    pub l1: K,
    pub l2: K,
    pub r1: K,
    pub r2: K,
}

// What a case waits for. A message that was heard is kept for the draw.
#[derive(Clone, Copy)]
pub enum Stage<K> {
    ForMessage,
    ForDraw(Message<K>),
    ForLast,
}

// What a call answers.
#[derive(Clone, Copy, PartialEq, Eq, Debug)]
pub enum Answer {
    Token(Sort, Numbers),
    Verdict(bool),
    Withdrawn,
    Turned(Page),
    Refused(StationFault),
}

impl From<StationFault> for Answer {
    ghost from_gives = { λ why answer. answer ≡ Refused why };

    fn from(why: StationFault) -> Answer {
        Answer::Refused(why)
    }
}

// What a call answered, and the page after it.
#[derive(Clone, Copy, PartialEq, Eq, Debug)]
pub struct Line {
    pub answer: Answer,
    pub page: Page,
}
