// The writer's faults, and how it takes up the kind's.
ghost use Rattle.std.specs.Prelude.{◌≡◌, ℕ};
ghost use Rattle.kind.specs.Faults.{wrapped};
ghost use Rattle.writer.specs.Faults.{writer_refusal};
ghost use Rattle.writer.specs.declared.fault.WriterFault.TheVariants.{Kind};

use kind::fault::{KindFault, Layer, Refusal};

#[derive(Clone, Copy, PartialEq, Eq, Debug)]
pub enum WriterFault {
    // 5: a list of this length, which is not 1, 2, 4 .. 256.
    Size(usize),
    // 6: a list of this length, which is not that of G; or so many challenges, which are not one for each round.
    Length(usize),
    // 7: lists of one entry have no message and no fold.
    LengthOne,
    // 8: an output or a work list of this length, which is too short.
    Room(usize),
    // 12: the scalar at this place is not below the order.
    NotAScalar(usize),
    // 13: the challenge at this place is 0 or not below the order.
    NotAChallenge(usize),
    // The kind's fault, kept whole, and the writer's own place.
    Kind(KindFault, usize),
}

impl WriterFault {
    // Number, layer and place of where the fault arose.
    pub fn refusal(self) -> Refusal
        ensures { result ≡ writer_refusal self }
    {
        let (number, place) = match self {
            WriterFault::Size(place) => (5, place),
            WriterFault::Length(place) => (6, place),
            WriterFault::LengthOne => (7, 0),
            WriterFault::Room(place) => (8, place),
            WriterFault::NotAScalar(place) => (12, place),
            WriterFault::NotAChallenge(place) => (13, place),
            WriterFault::Kind(fault, _) => return fault.refusal(),
        };
        Refusal {
            number,
            layer: Layer::Writer,
            place,
        }
    }
}

// The kind's fault is kept whole. The writer's own place for it is 0.
impl From<KindFault> for WriterFault {
    ghost from_gives = { λ fault r. r ≡ Kind fault 0 };

    fn from(fault: KindFault) -> WriterFault {
        WriterFault::Kind(fault, 0)
    }
}

// A result of a lower layer, as the writer's: its fault is kept whole, with the writer's place. At the place 0 `?` does the same.
pub trait InWriter: Sized {
    type Told;

    ghost told: { Self → ℕ → Self.Told };

    fn in_writer(self, place: usize) -> Self::Told
        ensures { result ≡ told self place };
}

impl<T> InWriter for Result<T, KindFault> {
    type Told = Result<T, WriterFault>;

    ghost told = { wrapped Kind };

    fn in_writer(self, place: usize) -> Result<T, WriterFault> {
        self.map_err(|fault| WriterFault::Kind(fault, place))
    }
}
