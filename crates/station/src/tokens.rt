// The tokens. None is Copy and none is Drop: each is spent on a call, or taken apart.
ghost use Rattle.std.specs.Prelude.{◌≡◌};
ghost use Rattle.ledger.specs.declared.fault.StationFault.TheVariants.{NotCurrent};
ghost use Rattle.ledger.specs.declared.parts.Answer.TheVariants.{Token as Handed, Refused};
ghost use Rattle.ledger.specs.declared.parts.Numbers.{Numbers as Said};
ghost use Rattle.ledger.specs.declared.parts.Sort.TheVariants as sort;
ghost use Rattle.station.specs.View.{next_answer, held_sort, held_numbers};
ghost use Rattle.station.specs.declared.tokens.Held.TheVariants as held;

use ledger::fault::StationFault;
use ledger::parts::{Answer, Numbers, Sort};

// What all tokens have in common.
pub trait Token: Sized {
    ghost said: { Self → Said };

    // Takes the token apart, and answers what it said.
    fn spend(self) -> Numbers
        ensures { result ≡ said self };
}

// The case waits for a message.
pub struct Waiting {
    pub numbers: Numbers,
}

impl Token for Waiting {
    ghost said = { λ t. t.numbers };

    fn spend(self) -> Numbers {
        let Waiting { numbers } = self;
        numbers
    }
}

// A message was heard; the case waits for a draw.
pub struct Heard {
    pub numbers: Numbers,
}

impl Token for Heard {
    ghost said = { λ t. t.numbers };

    fn spend(self) -> Numbers {
        let Heard { numbers } = self;
        numbers
    }
}

impl From<Heard> for Answer {
    ghost from_gives = { λ t answer. answer ≡ Handed sort.Heard t.numbers };

    fn from(t: Heard) -> Answer {
        Answer::Token(Sort::Heard, t.spend())
    }
}

// All rounds are done; the case waits for the last pair.
pub struct Closing {
    pub numbers: Numbers,
}

impl Token for Closing {
    ghost said = { λ t. t.numbers };

    fn spend(self) -> Numbers {
        let Closing { numbers } = self;
        numbers
    }
}

// What an opening or a draw hands out.
pub enum Next {
    Waiting(Waiting),
    Closing(Closing),
}

impl From<Next> for Answer {
    ghost from_gives = { λ next answer. answer ≡ next_answer next };

    fn from(next: Next) -> Answer {
        match next {
            Next::Waiting(t) => Answer::Token(Sort::Waiting, t.spend()),
            Next::Closing(t) => Answer::Token(Sort::Closing, t.spend()),
        }
    }
}

// Any of the three, for a withdrawal.
pub enum Held {
    Waiting(Waiting),
    Heard(Heard),
    Closing(Closing),
}

impl Held {
    // The token of a sort that says these numbers.
    pub(crate) fn new(sort: Sort, numbers: Numbers) -> Held
        ensures sort { held_sort result ≡ sort }
        ensures numbers { held_numbers result ≡ numbers }
    {
        match sort {
            Sort::Waiting => Held::Waiting(Waiting { numbers }),
            Sort::Heard => Held::Heard(Heard { numbers }),
            Sort::Closing => Held::Closing(Closing { numbers }),
        }
    }

    pub(crate) fn sort(&self) -> Sort
        ensures { result ≡ held_sort self.now }
    {
        match self {
            Held::Waiting(_) => Sort::Waiting,
            Held::Heard(_) => Sort::Heard,
            Held::Closing(_) => Sort::Closing,
        }
    }

    pub(crate) fn numbers(&self) -> Numbers
        ensures { result ≡ held_numbers self.now }
    {
        match self {
            Held::Waiting(t) => t.numbers,
            Held::Heard(t) => t.numbers,
            Held::Closing(t) => t.numbers,
        }
    }
}

impl Token for Held {
    ghost said = { held_numbers };

    fn spend(self) -> Numbers {
        match self {
            Held::Waiting(t) => t.spend(),
            Held::Heard(t) => t.spend(),
            Held::Closing(t) => t.spend(),
        }
    }
}

// A refusal: the token as it was handed in, and the fault.
pub struct Back<T> {
    pub token: T,
    pub fault: StationFault,
}

impl<T> Back<T> {
    // The refusal of a token that is not the station's current one.
    pub(crate) fn not_current(token: T) -> Back<T>
        ensures { result ≡ record { token = token; fault = NotCurrent } }
    {
        Back {
            token,
            fault: StationFault::NotCurrent,
        }
    }
}

impl<T: Token> From<Back<T>> for Answer {
    ghost from_gives = { λ back answer. answer ≡ Refused back.fault };

    fn from(back: Back<T>) -> Answer {
        let Back { token, fault } = back;
        token.spend();
        Answer::Refused(fault)
    }
}

// The token of any of the three, for a caller that withdraws where it was refused.
impl From<Back<Waiting>> for Back<Held> {
    ghost from_gives = { λ back more. more ≡ record { token = held.Waiting back.token; fault = back.fault } };

    fn from(back: Back<Waiting>) -> Back<Held> {
        let Back { token, fault } = back;
        Back {
            token: Held::Waiting(token),
            fault,
        }
    }
}

impl From<Back<Heard>> for Back<Held> {
    ghost from_gives = { λ back more. more ≡ record { token = held.Heard back.token; fault = back.fault } };

    fn from(back: Back<Heard>) -> Back<Held> {
        let Back { token, fault } = back;
        Back {
            token: Held::Heard(token),
            fault,
        }
    }
}

impl From<Back<Closing>> for Back<Held> {
    ghost from_gives = { λ back more. more ≡ record { token = held.Closing back.token; fault = back.fault } };

    fn from(back: Back<Closing>) -> Back<Held> {
        let Back { token, fault } = back;
        Back {
            token: Held::Closing(token),
            fault,
        }
    }
}
