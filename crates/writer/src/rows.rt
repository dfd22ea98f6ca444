// The lists of a proof in two work lists: G and H one behind the other among the elements, l and r among the numbers. They are lent, and
// are no struct for the reason that a method's work lists are none.
ghost use Rattle.std.specs.Prelude.{◌≡◌, ◌+◌, ◌≤◌, ◌++◌, length, take, drop};
ghost use Rattle.kind.specs.Kinds.{elements as elements_of, AllElements};
ghost use Rattle.kind.specs.Sides.{fold_of};
ghost use Rattle.kind.specs.declared.side.Side.TheVariants.{OfG, OfH};
ghost use Rattle.ledger.specs.Rules.{folded, message_of};
ghost use Rattle.writer.specs.Folds.{folds_scalars};
ghost use Rattle.writer.specs.Rows.{lists_in};

use crate::folds::{fold_elements, fold_scalars};
use crate::halves::message_across;
use kind::bytes::cut;
use kind::checked::Checked;
use kind::kind::Kind;
use kind::side::Side;
use ledger::parts::Message;
use method::bases::CheckedBases;

// Two lists of one length, one behind the other.
pub(crate) fn copy_rows<T: Copy>(a: &[T], b: &[T], work: &mut [T])
    requires second { length b.now ≡ length a.now }
    requires room { length work.old ≡ length a.now + length a.now }
    ensures { work.new ≡ a.now ++ b.now }
{
    let (first, second) = work.split_at_mut(a.len());
    first.copy_from_slice(a);
    second.copy_from_slice(b);
}

// The message of the lists of 2m entries.
pub(crate) fn message_of_rows<K: Kind>(
    key: K,
    n: usize,
    m: usize,
    elements: &Checked<K>,
    numbers: &[u32],
) -> Message<K>
    requires elements { length elements.now.entries.now ≡ n + n }
    requires numbers { length numbers.now ≡ n + n }
    requires rows { m + m ≤ n }
    ensures { result ≡ message_of K.Kind.meaning key (lists_in K.Kind.meaning n (m + m) elements.now.entries.now numbers.now) }
{
    let (_, second_elements) = elements.cut(n);
    let (_, second_numbers) = cut(numbers, n);
    let (g, _) = elements.cut(m + m);
    let (h, _) = second_elements.cut(m + m);
    let (l, _) = cut(numbers, m + m);
    let (r, _) = cut(second_numbers, m + m);
    message_across(&CheckedBases { g, h, key }, l, r)
}

// Folds the lists of 2m entries among the elements into lists of m.
fn fold_element_rows<K: Kind>(c: u32, n: usize, m: usize, work: &mut [K::Entry])
    requires checked { AllElements K.Kind.meaning work.old }
    requires long { length work.old ≡ n + n }
    requires rows { m + m ≤ n }
    ensures checked { AllElements K.Kind.meaning work.new }
    ensures g { take m (elements_of K.Kind.meaning work.new) ≡ fold_of K.Kind.meaning OfG c (take (m + m) (elements_of K.Kind.meaning work.old)) }
    ensures h { take m (drop n (elements_of K.Kind.meaning work.new)) ≡ fold_of K.Kind.meaning OfH c (take (m + m) (drop n (elements_of K.Kind.meaning work.old))) }
{
    let (g, h) = work.split_at_mut(n);
    fold_elements::<K>(Side::OfG, c, &mut g[..m + m]);
    fold_elements::<K>(Side::OfH, c, &mut h[..m + m]);
}

// The same among the numbers.
fn fold_number_rows<K: Kind>(c: u32, n: usize, m: usize, work: &mut [u32])
    requires long { length work.old ≡ n + n }
    requires rows { m + m ≤ n }
    ensures l { take m work.new ≡ folds_scalars K.Kind.meaning.order OfG c (take (m + m) work.old) }
    ensures r { take m (drop n work.new) ≡ folds_scalars K.Kind.meaning.order OfH c (take (m + m) (drop n work.old)) }
{
    let (l, r) = work.split_at_mut(n);
    fold_scalars::<K>(Side::OfG, c, &mut l[..m + m]);
    fold_scalars::<K>(Side::OfH, c, &mut r[..m + m]);
}

// Folds all four lists of 2m entries by c into lists of m.
pub(crate) fn fold_rows<K: Kind>(
    c: u32,
    n: usize,
    m: usize,
    elements: &mut [K::Entry],
    numbers: &mut [u32],
)
    requires checked { AllElements K.Kind.meaning elements.old }
    requires elements { length elements.old ≡ n + n }
    requires numbers { length numbers.old ≡ n + n }
    requires rows { m + m ≤ n }
    ensures checked { AllElements K.Kind.meaning elements.new }
    ensures folded { lists_in K.Kind.meaning n m elements.new numbers.new ≡ folded K.Kind.meaning c (lists_in K.Kind.meaning n (m + m) elements.old numbers.old) }
{
    fold_element_rows::<K>(c, n, m, elements);
    fold_number_rows::<K>(c, n, m, numbers);
}
