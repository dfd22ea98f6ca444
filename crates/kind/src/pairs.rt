// Pairs of elements of a kind are a kind.
ghost use Rattle.std.specs.Prelude.{◌≡◌};
ghost use Rattle.kind.specs.Pairs.{pair_meaning, pair_laws};

use crate::fault::KindFault;
use crate::kind::Kind;
use crate::pair::Pair;

impl<K: Kind> Kind for Pair<K> {
    type Entry = (K::Entry, K::Entry);

    ghost meaning = { pair_meaning K.Kind.meaning };

    ghost laws = { pair_laws K.Kind.meaning K.Kind.laws };

    fn unit() -> Pair<K> {
        Pair {
            a: K::unit(),
            b: K::unit(),
        }
    }

    fn base() -> Pair<K> {
        Pair {
            a: K::base(),
            b: K::base(),
        }
    }

    fn join(self, other: Pair<K>) -> Pair<K> {
        Pair {
            a: self.a.join(other.a),
            b: self.b.join(other.b),
        }
    }

    fn same(self, other: Pair<K>) -> bool {
        self.a.same(other.a) && self.b.same(other.b)
    }

    fn order() -> u32 {
        K::order()
    }

    fn to_entry(self) -> (K::Entry, K::Entry) {
        (self.a.to_entry(), self.b.to_entry())
    }

    fn from_entry(e: (K::Entry, K::Entry)) -> Result<Pair<K>, KindFault> {
        let a = K::from_entry(e.0)?;
        let b = K::from_entry(e.1)?;
        Ok(Pair { a, b })
    }

    fn from_known(e: (K::Entry, K::Entry)) -> Pair<K> {
        Pair {
            a: K::from_known(e.0),
            b: K::from_known(e.1),
        }
    }
}
