// The bundle's faults, and how it takes up the record's.
ghost use Rattle.std.specs.Prelude.{◌≡◌, ℕ};
ghost use Rattle.kind.specs.Faults.{wrapped};
ghost use Rattle.bundle.specs.Faults.{bundle_refusal};
ghost use Rattle.bundle.specs.declared.fault.BundleFault.TheVariants.{Record};

use kind::fault::{Layer, Refusal};
use record::fault::RecordFault;

#[derive(Clone, Copy, PartialEq, Eq, Debug)]
pub enum BundleFault {
    // 9: the pair of this index breaks its rule, or the directory is cut short (index 0).
    Directory(usize),
    // The record's fault, kept whole, and the index of the record.
    Record(RecordFault, usize),
}

impl BundleFault {
    // Number, layer and place of where the fault arose.
    pub fn refusal(self) -> Refusal
        ensures { result ≡ bundle_refusal self }
    {
        match self {
            BundleFault::Directory(place) => Refusal {
                number: 9,
                layer: Layer::Bundle,
                place,
            },
            BundleFault::Record(fault, _) => fault.refusal(),
        }
    }
}

// A result of a lower layer, as the bundle's: its fault is kept whole, with the record's index.
pub trait InBundle: Sized {
    type Told;

    ghost told: { Self → ℕ → Self.Told };

    fn in_bundle(self, index: usize) -> Self::Told
        ensures { result ≡ told self index };
}

impl<T> InBundle for Result<T, RecordFault> {
    type Told = Result<T, BundleFault>;

    ghost told = { wrapped Record };

    fn in_bundle(self, index: usize) -> Result<T, BundleFault> {
        self.map_err(|fault| BundleFault::Record(fault, index))
    }
}
