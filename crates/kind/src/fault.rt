// What a fault tells, and the kind's own faults.
ghost use Rattle.std.specs.Prelude.{◌≡◌, Some};
ghost use Rattle.kind.specs.Faults.{kind_refusal, layer_text, unless};

use std::fmt;

// The layer in which a fault arose.
#[derive(Clone, Copy, PartialEq, Eq, Debug)]
pub enum Layer {
    Kind,
    Method,
    Writer,
    Station,
    Record,
    Bundle,
}

impl fmt::Display for Layer {
    ghost output = { λ layer. Some (layer_text layer) };

    fn fmt<W: fmt::Write>(&self, f: &mut fmt::Formatter<W>) -> fmt::Result {
        f.write_str(match self {
            Layer::Kind => "kind",
            Layer::Method => "method",
            Layer::Writer => "writer",
            Layer::Station => "station",
            Layer::Record => "record",
            Layer::Bundle => "bundle",
        })
    }
}

// A numbered refusal: its number, the layer where it arose, and the place there. The number is the one that programs print, so it
// stays a number; the fault that it belongs to is an enum's.
#[derive(Clone, Copy, PartialEq, Eq, Debug)]
pub struct Refusal {
    pub number: u8,
    pub layer: Layer,
    pub place: usize,
}

// Refuses by the fault, unless the test holds.
pub fn require<F: Drop>(holds: bool, fault: F) -> Result<(), F>
    ensures { result ≡ unless holds fault }
{
    if holds { Ok(()) } else { Err(fault) }
}

// Why the kind's layer refuses.
#[derive(Clone, Copy, PartialEq, Eq, Debug)]
pub enum KindFault {
    // 6: there are this many scalars, and not as many entries.
    Length(usize),
    // 11: the entry at this place, or the bytes, are no element's.
    NotAnElement(usize),
    // 12: the scalar at this place is not below the order.
    NotAScalar(usize),
}

impl KindFault {
    pub fn refusal(self) -> Refusal
        ensures { result ≡ kind_refusal self }
    {
        let (number, place) = match self {
            KindFault::Length(place) => (6, place),
            KindFault::NotAnElement(place) => (11, place),
            KindFault::NotAScalar(place) => (12, place),
        };
        Refusal {
            number,
            layer: Layer::Kind,
            place,
        }
    }
}
