// The method that folds both lists round by round.
ghost use Rattle.std.specs.Prelude.{◌≡◌, ◌/◌, ◌^◌, length, slice_index_or};
ghost use Rattle.kind.specs.Kinds.{elements};
ghost use Rattle.method.specs.Meaning.{reduced};
ghost use Rattle.method.specs.Sides.{folds_of};

use crate::bases::CheckedBases;
use crate::last_pair::passes;
use crate::method::Method;
use kind::checked::Checked;
use kind::folds::{fold_into, fold_within};
use kind::kind::Kind;
use kind::pair::Pair;
use kind::side::Side;

// The one element that folding src by each challenge leaves. The first fold goes into work, and the others stay in it.
fn last<K: Kind>(side: Side, cs: &[u32], src: &Checked<K>, work: &mut [K::Entry]) -> K
    requires whole { length src.now.entries.now ≡ 2 ^ length cs.now }
    requires half { length work.old ≡ length src.now.entries.now / 2 }
    ensures { result ≡ slice_index_or (folds_of K.Kind.meaning side (reduced K.Kind.meaning cs.now) (elements K.Kind.meaning src.now.entries.now)) 0 K.Kind.meaning.group.unit }
{
    let Some((first, rest)) = cs.split_first() else {
        return src.at(0);
    };
    let q = K::order();
    fold_into(side, first % q, src, work);
    let mut m = work.len();
    for c in rest {
        m /= 2;
        fold_within::<K>(side, c % q, m, work);
    }
    Checked::<K> { entries: work }.at(0)
}

#[derive(Clone, Copy)]
pub struct Halving;

impl Method for Halving {
    fn decide<K: Kind>(
        &self,
        cs: &[u32],
        z: Pair<K>,
        bases: &CheckedBases<K>,
        a: u32,
        b: u32,
        elements: &mut [K::Entry],
        numbers: &mut [u32],
    ) -> bool {
        let half = elements.len() / 2;
        let x = last(Side::OfG, cs, &bases.g, &mut elements[..half]);
        let y = last(Side::OfH, cs, &bases.h, &mut elements[half..half + half]);
        passes(z, bases.key, x, y, a, b)
    }
}
