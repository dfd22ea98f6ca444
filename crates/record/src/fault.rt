// The record's faults, and how it takes up those of the kind and of the method.
ghost use Rattle.std.specs.Prelude.{◌≡◌, ℕ};
ghost use Rattle.kind.specs.Faults.{wrapped};
ghost use Rattle.record.specs.Faults.{record_refusal, own_place};
ghost use Rattle.record.specs.declared.fault.RecordFault.TheVariants.{Kind, Method};

use kind::fault::{KindFault, Layer, Refusal};
use method::fault::MethodFault;

#[derive(Clone, Copy, PartialEq, Eq, Debug)]
pub enum RecordFault {
    // 3: more than eight rounds.
    TooManyRounds,
    // 10: a record of this length, which is empty or does not fit its rounds.
    Length(usize),
    // 12: the scalar at this byte is not below the order.
    NotAScalar(usize),
    // 13: the challenge at this byte is 0 or not below the order.
    NotAChallenge(usize),
    // The kind's fault, kept whole, and the byte of the element.
    Kind(KindFault, usize),
    // The method's fault, kept whole, and the record's own place.
    Method(MethodFault, usize),
}

impl RecordFault {
    // Number, layer and place of where the fault arose.
    pub fn refusal(self) -> Refusal
        ensures { result ≡ record_refusal self }
    {
        let (number, place) = match self {
            RecordFault::TooManyRounds => (3, 0),
            RecordFault::Length(place) => (10, place),
            RecordFault::NotAScalar(place) => (12, place),
            RecordFault::NotAChallenge(place) => (13, place),
            RecordFault::Kind(fault, _) => return fault.refusal(),
            RecordFault::Method(fault, _) => return fault.refusal(),
        };
        Refusal {
            number,
            layer: Layer::Record,
            place,
        }
    }

    // The record's own place: the one that it added to a lower fault, or the fault's.
    pub fn place(self) -> usize
        ensures { result ≡ own_place self }
    {
        match self {
            RecordFault::TooManyRounds => 0,
            RecordFault::Length(place)
            | RecordFault::NotAScalar(place)
            | RecordFault::NotAChallenge(place)
            | RecordFault::Kind(_, place)
            | RecordFault::Method(_, place) => place,
        }
    }
}

// The method's fault is kept whole. The record's own place for it is 0.
impl From<MethodFault> for RecordFault {
    ghost from_gives = { λ fault r. r ≡ Method fault 0 };

    fn from(fault: MethodFault) -> RecordFault {
        RecordFault::Method(fault, 0)
    }
}

// A result of a lower layer, as the record's: its fault is kept whole, with the record's place. At the place 0 `?` does the same for the
// method's.
pub trait InRecord: Sized {
    type Told;

    ghost told: { Self → ℕ → Self.Told };

    fn in_record(self, place: usize) -> Self::Told
        ensures { result ≡ told self place };
}

impl<T> InRecord for Result<T, KindFault> {
    type Told = Result<T, RecordFault>;

    ghost told = { wrapped Kind };

    fn in_record(self, place: usize) -> Result<T, RecordFault> {
        self.map_err(|fault| RecordFault::Kind(fault, place))
    }
}

impl<T> InRecord for Result<T, MethodFault> {
    type Told = Result<T, RecordFault>;

    ghost told = { wrapped Method };

    fn in_record(self, place: usize) -> Result<T, RecordFault> {
        self.map_err(|fault| RecordFault::Method(fault, place))
    }
}
