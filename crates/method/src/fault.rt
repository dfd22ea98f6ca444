// The method's faults, and how it takes up the kind's.
ghost use Rattle.std.specs.Prelude.{◌≡◌, ℕ};
ghost use Rattle.kind.specs.Faults.{wrapped};
ghost use Rattle.method.specs.Faults.{method_refusal};
ghost use Rattle.method.specs.declared.fault.MethodFault.TheVariants.{Kind};

use kind::fault::{KindFault, Layer, Refusal};

#[derive(Clone, Copy, PartialEq, Eq, Debug)]
pub enum MethodFault {
    // 3: more than eight rounds.
    TooManyRounds,
    // 5: a list of this length, which is not 1, 2, 4 .. 256.
    Size(usize),
    // 6: a list of this length, which is not two to the rounds.
    Length(usize),
    // 8: a work list of this length, which is too short.
    Room(usize),
    // 12: the scalar at this place is not below the order.
    NotAScalar(usize),
    // 13: the challenge at this place is out of range.
    NotAChallenge(usize),
    // The kind's fault, kept whole, and the method's own place.
    Kind(KindFault, usize),
}

impl MethodFault {
    pub fn refusal(self) -> Refusal
        ensures { result ≡ method_refusal self }
    {
        let (number, place) = match self {
            MethodFault::TooManyRounds => (3, 0),
            MethodFault::Size(place) => (5, place),
            MethodFault::Length(place) => (6, place),
            MethodFault::Room(place) => (8, place),
            MethodFault::NotAScalar(place) => (12, place),
            MethodFault::NotAChallenge(place) => (13, place),
            MethodFault::Kind(fault, _) => return fault.refusal(),
        };
        Refusal {
            number,
            layer: Layer::Method,
            place,
        }
    }
}

// The kind's fault is kept whole. A method's own place for it is 0.
impl From<KindFault> for MethodFault {
    ghost from_gives = { λ fault r. r ≡ Kind fault 0 };

    fn from(fault: KindFault) -> MethodFault {
        MethodFault::Kind(fault, 0)
    }
}

// A result of a lower layer, as the method's: its fault is kept whole, with the method's place. At the place 0 `?` does the same.
pub trait InMethod: Sized {
    type Told;

    ghost told: { Self → ℕ → Self.Told };

    fn in_method(self, place: usize) -> Self::Told
        ensures { result ≡ told self place };
}

impl<T> InMethod for Result<T, KindFault> {
    type Told = Result<T, MethodFault>;

    ghost told = { wrapped Kind };

    fn in_method(self, place: usize) -> Result<T, MethodFault> {
        self.map_err(|fault| MethodFault::Kind(fault, place))
    }
}
