// Lists of entries: checking them and clearing them.
ghost use Rattle.std.specs.Prelude.{◌≡◌, not, is_some, length, replicate, position};
ghost use Rattle.kind.specs.Kinds.{unit_entry};
ghost use Rattle.kind.specs.Products.{entries_refusal};

use crate::fault::KindFault;
use crate::kind::Kind;

fn is_no_element<K: Kind>(e: K::Entry) -> bool
    ensures { result ≡ not (is_some (K.Kind.meaning.element e)) }
{
    K::from_entry(e).is_err()
}

fn first_no_element<K: Kind>(entries: &[K::Entry]) -> Option<usize>
    ensures { result ≡ position (λ e. not (is_some (K.Kind.meaning.element e))) entries.now }
{
    entries.iter().position(|e| is_no_element::<K>(*e))
}

// Refuses the first entry that is no element's by 11.
pub fn check_entries<K: Kind>(entries: &[K::Entry]) -> Result<(), KindFault>
    ensures { result ≡ entries_refusal K.Kind.meaning entries.now }
{
    match first_no_element::<K>(entries) {
        Some(i) => Err(KindFault::NotAnElement(i)),
        None => Ok(()),
    }
}

// Writes the unit's entry at each place.
pub fn clear_entries<K: Kind>(entries: &mut [K::Entry])
    ensures { entries.new ≡ replicate (length entries.old) (unit_entry K.Kind.meaning) }
{
    let e = K::unit().to_entry();
    for x in entries.iter_mut() {
        *x = e;
    }
}
