// Folding whole lists in place: the first half becomes the fold, the last half is cleared.
ghost use Rattle.std.specs.Prelude.{◌≡◌, ◌+◌, ◌/◌, ◌≤◌, ◌++◌, map, length, take, replicate};
ghost use Rattle.kind.specs.Kinds.{elements, unit_entry, AllElements};
ghost use Rattle.kind.specs.Sides.{fold_by, fold_of};
ghost use Rattle.writer.specs.Folds.{fold_scalars, folds_scalars};

use kind::entries::clear_entries;
use kind::folds::fold_within;
use kind::kind::Kind;
use kind::side::Side;

// Folds a list of elements.
pub(crate) fn fold_elements<K: Kind>(side: Side, c: u32, xs: &mut [K::Entry])
    requires checked { AllElements K.Kind.meaning xs.old }
    requires even { length xs.old / 2 + length xs.old / 2 ≡ length xs.old }
    ensures { xs.new ≡ map K.Kind.meaning.entry (fold_of K.Kind.meaning side c (elements K.Kind.meaning xs.old)) ++ replicate (length xs.old / 2) (unit_entry K.Kind.meaning) }
{
    let m = xs.len() / 2;
    fold_within::<K>(side, c, m, xs);
    clear_entries::<K>(&mut xs[m..]);
}

// One scalar of each half, folded by c modulo the order.
fn fold_scalar_pair<K: Kind>(side: Side, c: u32, a: u32, b: u32) -> u32
    ensures { result ≡ fold_scalars K.Kind.meaning.order side c a b }
{
    let q = K::order() as u64;
    match side {
        Side::OfG => ((a as u64 + c as u64 * b as u64) % q) as u32,
        Side::OfH => ((c as u64 * a as u64 + b as u64) % q) as u32,
    }
}

// Folds the first 2m scalars of a list into its first m.
fn fold_scalars_within<K: Kind>(side: Side, c: u32, m: usize, xs: &mut [u32])
    requires { m + m ≤ length xs.old }
    ensures { take m xs.new ≡ folds_scalars K.Kind.meaning.order side c (take (m + m) xs.old) }
{
    let (first, last) = xs.split_at_mut(m);
    for (i, x) in first.iter_mut().enumerate() {
        *x = fold_scalar_pair::<K>(side, c, *x, last[i]);
    }
}

// Folds a list of scalars.
pub(crate) fn fold_scalars<K: Kind>(side: Side, c: u32, xs: &mut [u32])
    requires { length xs.old / 2 + length xs.old / 2 ≡ length xs.old }
    ensures { xs.new ≡ folds_scalars K.Kind.meaning.order side c xs.old ++ replicate (length xs.old / 2) 0 }
{
    let m = xs.len() / 2;
    fold_scalars_within::<K>(side, c, m, xs);
    xs[m..].fill(0);
}
