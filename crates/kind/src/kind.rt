// A commutative group of prime order whose elements have plain entries in lists.
ghost use Rattle.std.specs.Prelude.{◌≡◌, ◌+◌, ◌<◌, ◌≤◌, length, take, slice_index_or};
ghost use Rattle.std.specs.Option.{ok_or};
ghost use Rattle.protocol.specs.Group.{power as power_of, product as product_of};
ghost use Rattle.kind.specs.Kinds.{Meaning, Lawful, elements, AllElements};
ghost use Rattle.kind.specs.Sides.{fold_pair, fold_of};
ghost use Rattle.kind.specs.declared.fault.KindFault.TheVariants.{NotAnElement};

use crate::fault::KindFault;
use crate::side::Side;

pub trait Kind: Copy {
    // How a list holds an element: plain numbers.
    type Entry: Copy;

    ghost meaning: { Meaning Self Self.Entry };

    ghost laws: { Lawful meaning };

    fn unit() -> Self
        ensures { result ≡ meaning.group.unit };

    fn base() -> Self
        ensures { result ≡ meaning.base };

    fn join(self, other: Self) -> Self
        ensures { result ≡ meaning.group.join self other };

    fn same(self, other: Self) -> bool
        ensures { result ≡ meaning.same self other };

    fn order() -> u32
        ensures { result ≡ meaning.order };

    fn to_entry(self) -> Self::Entry
        ensures { result ≡ meaning.entry self };

    // The element of an entry. An entry of no element is refused by 11.
    fn from_entry(e: Self::Entry) -> Result<Self, KindFault>
        ensures { result ≡ ok_or (meaning.element e) (NotAnElement 0) };

    // The element of an entry that was checked before. Plumbing for loops over checked lists: it tests nothing.
    fn from_known(e: Self::Entry) -> Self
        requires { (x : Self) × (meaning.entry x ≡ e) }
        ensures { meaning.entry result ≡ e };

    // x joined e times over, by squaring.
    fn power(self, e: u32) -> Self
        ensures { result ≡ power_of meaning.group self e }
    {
        let mut acc = Self::unit();
        let mut b = self;
        let mut n = e;
        while n > 0 {
            if n % 2 == 1 {
                acc = acc.join(b);
            }
            b = b.join(b);
            n /= 2;
        }
        acc
    }

    // The element at a place of a list that was checked. Plumbing: it tests nothing again.
    fn element_at(entries: &[Self::Entry], i: usize) -> Self
        requires checked { AllElements meaning entries.now }
        requires within { i < length entries.now }
        ensures { result ≡ slice_index_or (elements meaning entries.now) i meaning.group.unit }
    {
        Self::from_known(entries[i])
    }

    // The joined powers of a list that was checked. Plumbing: it tests nothing again.
    fn join_powers(entries: &[Self::Entry], scalars: &[u32]) -> Self
        requires checked { AllElements meaning entries.now }
        requires long { length scalars.now ≡ length entries.now }
        ensures { result ≡ product_of meaning.group (elements meaning entries.now) scalars.now }
    {
        let mut total = Self::unit();
        for (entry, scalar) in entries.iter().zip(scalars) {
            total = total.join(Self::from_known(*entry).power(*scalar));
        }
        total
    }

    // One element of each half, folded by c.
    fn fold_with(self, other: Self, side: Side, c: u32) -> Self
        ensures { result ≡ fold_pair meaning side c self other }
    {
        match side {
            Side::OfG => self.power(c).join(other),
            Side::OfH => self.join(other.power(c)),
        }
    }

    // Folds the first 2m elements of a list that was checked into its first m. Plumbing: it tests nothing again.
    fn fold_within(side: Side, c: u32, m: usize, work: &mut [Self::Entry])
        requires checked { AllElements meaning work.old }
        requires room { m + m ≤ length work.old }
        ensures checked { AllElements meaning work.new }
        ensures folded { take m (elements meaning work.new) ≡ fold_of meaning side c (take (m + m) (elements meaning work.old)) }
    {
        let (first, last) = work.split_at_mut(m);
        for (i, entry) in first.iter_mut().enumerate() {
            let x = Self::from_known(*entry);
            let y = Self::from_known(last[i]);
            *entry = x.fold_with(y, side, c).to_entry();
        }
    }
}
