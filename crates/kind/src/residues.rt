// The residues of the subgroup of order q are a kind.
ghost use Rattle.std.specs.Prelude.{◌≡◌};
ghost use Rattle.kind.specs.Residues.{residue_meaning, residue_laws};

use crate::fault::KindFault;
use crate::kind::Kind;
use crate::modular::{MODULUS, ORDER, mul_mod, pow_mod};
use crate::residue::Residue;

impl Kind for Residue {
    type Entry = u32;

    ghost meaning = { residue_meaning };

    ghost laws = { residue_laws };

    fn unit() -> Residue {
        Residue { v: 1 }
    }

    fn base() -> Residue {
        Residue { v: 4 }
    }

    fn join(self, other: Residue) -> Residue {
        Residue {
            v: mul_mod(self.v, other.v, MODULUS),
        }
    }

    fn same(self, other: Residue) -> bool {
        self == other
    }

    fn order() -> u32 {
        ORDER
    }

    fn to_entry(self) -> u32 {
        self.v
    }

    fn from_entry(e: u32) -> Result<Residue, KindFault> {
        if 0 < e && e < MODULUS && pow_mod(e, ORDER, MODULUS) == 1 {
            Ok(Residue { v: e })
        } else {
            Err(KindFault::NotAnElement(0))
        }
    }

    fn from_known(e: u32) -> Residue {
        Residue { v: e }
    }
}
