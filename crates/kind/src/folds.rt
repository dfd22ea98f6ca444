// Folding lists of elements to half their length, on either side.
ghost use Rattle.std.specs.Prelude.{◌≡◌, ◌+◌, ◌≤◌, map, length, take};
ghost use Rattle.kind.specs.Kinds.{elements, AllElements};
ghost use Rattle.kind.specs.Sides.{fold_pair, fold_of};

use crate::checked::Checked;
use crate::kind::Kind;
use crate::side::Side;

// One element of each half, folded by c.
pub fn fold_pair<K: Kind>(side: Side, c: u32, x: K, y: K) -> K
    ensures { result ≡ fold_pair K.Kind.meaning side c x y }
{
    x.fold_with(y, side, c)
}

// Folds a list into `out`, which is half as long.
pub fn fold_into<K: Kind>(side: Side, c: u32, src: &Checked<K>, out: &mut [K::Entry])
    requires { length out.old + length out.old ≡ length src.now.entries.now }
    ensures { out.new ≡ map K.Kind.meaning.entry (fold_of K.Kind.meaning side c (elements K.Kind.meaning src.now.entries.now)) }
{
    let m = out.len();
    for (i, entry) in out.iter_mut().enumerate() {
        *entry = fold_pair(side, c, src.at(i), src.at(m + i)).to_entry();
    }
}

// Folds the first 2m elements of a list that was checked into its first m. It tests nothing again.
pub fn fold_within<K: Kind>(side: Side, c: u32, m: usize, work: &mut [K::Entry])
    requires checked { AllElements K.Kind.meaning work.old }
    requires room { m + m ≤ length work.old }
    ensures checked { AllElements K.Kind.meaning work.new }
    ensures folded { take m (elements K.Kind.meaning work.new) ≡ fold_of K.Kind.meaning side c (take (m + m) (elements K.Kind.meaning work.old)) }
{
    K::fold_within(side, c, m, work)
}
