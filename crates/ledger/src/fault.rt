// The station's faults, and how it takes up the method's.
ghost use Rattle.std.specs.Prelude.{◌≡◌};
ghost use Rattle.ledger.specs.Faults.{station_refusal};
ghost use Rattle.ledger.specs.declared.fault.StationFault.TheVariants.{Method};

use kind::fault::{Layer, Refusal};
use method::fault::MethodFault;

#[derive(Clone, Copy, PartialEq, Eq, Debug)]
pub enum StationFault {
    // 1: the token is not the station's current one.
    NotCurrent,
    // 2: a case is open.
    CaseOpen,
    // 3: more than eight rounds.
    TooManyRounds,
    // 4: the page has ten thousand openings.
    PageFull,
    // 13: the challenge is 0 or not below the order.
    NotAChallenge,
    // The method's fault, kept whole, and the station's own place.
    Method(MethodFault, usize),
}

impl StationFault {
    // Number, layer and place of where the fault arose.
    pub fn refusal(self) -> Refusal
        ensures { result ≡ station_refusal self }
    {
        let number = match self {
            StationFault::NotCurrent => 1,
            StationFault::CaseOpen => 2,
            StationFault::TooManyRounds => 3,
            StationFault::PageFull => 4,
            StationFault::NotAChallenge => 13,
            StationFault::Method(fault, _) => return fault.refusal(),
        };
        Refusal {
            number,
            layer: Layer::Station,
            place: 0,
        }
    }
}

// The method's refusal of a last pair; the station adds the place 0.
impl From<MethodFault> for StationFault {
    ghost from_gives = { λ fault why. why ≡ Method fault 0 };

    fn from(fault: MethodFault) -> StationFault {
        StationFault::Method(fault, 0)
    }
}
