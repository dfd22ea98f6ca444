// Lists that were checked.
ghost use Rattle.std.specs.Prelude.{◌≡◌, ◌<◌, length, take, drop, slice_index_or, Ok, IfOk, ⊤};
ghost use Rattle.protocol.specs.Group.{product as product_of};
ghost use Rattle.kind.specs.Faults.{and_then};
ghost use Rattle.kind.specs.Kinds.{elements, AllElements};
ghost use Rattle.kind.specs.Products.{entries_refusal};

use crate::bytes::cut;
use crate::entries::check_entries;
use crate::fault::KindFault;
use crate::kind::Kind;
use std::alloc::AllocError;

// A list of which every entry is an element's.
pub struct Checked<'a, K: Kind> {
    pub entries: &'a [K::Entry],
    ghost checked: { AllElements K.Kind.meaning entries.now },
}

// Written out: neither is derived for a generic struct with a ghost field.
impl<K: Kind> Copy for Checked<'_, K> {}

impl<K: Kind> Clone for Checked<'_, K> {
    ghost is_clone = { λ s r. r ≡ s };

    ghost is_infallible = { λ _. ⊤ };

    fn clone(&self) -> Result<Self, AllocError> {
        Ok(*self)
    }
}

impl<'a, K: Kind> Checked<'a, K> {
    // The list, checked. Refused by 11 at the first entry that is no element's.
    pub fn new(entries: &'a [K::Entry]) -> Result<Checked<'a, K>, KindFault>
        ensures list { IfOk result (λ c. c.entries.now ≡ entries.now) }
        ensures refused { and_then result (λ _. Ok tt) ≡ entries_refusal K.Kind.meaning entries.now }
    {
        check_entries::<K>(entries)?;
        Ok(Checked { entries })
    }

    // The first n entries, and the rest. Where there are fewer, all of them, and nothing.
    pub fn cut(&self, n: usize) -> (Checked<'a, K>, Checked<'a, K>)
        ensures front { result.0.entries.now ≡ take n self.now.entries.now }
        ensures back { result.1.entries.now ≡ drop n self.now.entries.now }
    {
        let (front, back) = cut(self.entries, n);
        (Checked { entries: front }, Checked { entries: back })
    }

    // The element at a place.
    pub fn at(&self, i: usize) -> K
        requires { i < length self.now.entries.now }
        ensures { result ≡ slice_index_or (elements K.Kind.meaning self.now.entries.now) i K.Kind.meaning.group.unit }
    {
        K::element_at(self.entries, i)
    }

    // The powers of the elements by as many scalars, joined.
    pub fn join_powers(&self, scalars: &[u32]) -> K
        requires { length scalars.now ≡ length self.now.entries.now }
        ensures { result ≡ product_of K.Kind.meaning.group (elements K.Kind.meaning self.now.entries.now) scalars.now }
    {
        K::join_powers(self.entries, scalars)
    }
}
