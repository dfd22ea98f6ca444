// The numbers below q are a kind.
ghost use Rattle.std.specs.Prelude.{◌≡◌};
ghost use Rattle.kind.specs.Clears.{clear_meaning, clear_laws};

use crate::clear::Clear;
use crate::fault::KindFault;
use crate::kind::Kind;
use crate::modular::ORDER;

impl Kind for Clear {
    type Entry = u32;

    ghost meaning = { clear_meaning };

    ghost laws = { clear_laws };

    fn unit() -> Clear {
        Clear { v: 0 }
    }

    fn base() -> Clear {
        Clear { v: 1 }
    }

    fn join(self, other: Clear) -> Clear {
        Clear {
            v: (self.v + other.v) % ORDER,
        }
    }

    fn same(self, other: Clear) -> bool {
        self == other
    }

    fn order() -> u32 {
        ORDER
    }

    fn to_entry(self) -> u32 {
        self.v
    }

    fn from_entry(e: u32) -> Result<Clear, KindFault> {
        if e < ORDER {
            Ok(Clear { v: e })
        } else {
            Err(KindFault::NotAnElement(0))
        }
    }

    fn from_known(e: u32) -> Clear {
        Clear { v: e }
    }
}
