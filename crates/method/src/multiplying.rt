// The method that multiplies both lists out by weights.
ghost use Rattle.std.specs.Prelude.{◌≡◌};

use crate::bases::CheckedBases;
use crate::last_pair::passes;
use crate::method::Method;
use crate::weights::fill_weights;
use kind::kind::Kind;
use kind::pair::Pair;

#[derive(Clone, Copy)]
pub struct MultiplyingOut;

impl Method for MultiplyingOut {
    // The G weights are the H weights backwards.
    fn decide<K: Kind>(
        &self,
        cs: &[u32],
        z: Pair<K>,
        bases: &CheckedBases<K>,
        a: u32,
        b: u32,
        elements: &mut [K::Entry],
        numbers: &mut [u32],
    ) -> bool {
        fill_weights::<K>(cs, numbers);
        let y = bases.h.join_powers(numbers);
        numbers.reverse();
        let x = bases.g.join_powers(numbers);
        passes(z, bases.key, x, y, a, b)
    }
}
