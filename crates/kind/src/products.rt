// Products of powers, in any kind.
ghost use Rattle.std.specs.Prelude.{◌≡◌, nat_le, position};
ghost use Rattle.kind.specs.Products.{scalars_refusal, product_answer};

use crate::checked::Checked;
use crate::fault::{KindFault, require};
use crate::kind::Kind;

fn first_no_scalar<K: Kind>(scalars: &[u32]) -> Option<usize>
    ensures { result ≡ position (nat_le K.Kind.meaning.order) scalars.now }
{
    let q = K::order();
    scalars.iter().position(|s| q <= *s)
}

// Refuses the first scalar that is not below the order by 12.
pub fn check_scalars<K: Kind>(scalars: &[u32]) -> Result<(), KindFault>
    ensures { result ≡ scalars_refusal K.Kind.meaning scalars.now }
{
    match first_no_scalar::<K>(scalars) {
        Some(i) => Err(KindFault::NotAScalar(i)),
        None => Ok(()),
    }
}

// The product call: the powers of the entries' elements by the scalars, joined. Refused by 6, 11 and 12, in that order.
pub fn product<K: Kind>(entries: &[K::Entry], scalars: &[u32]) -> Result<K, KindFault>
    ensures { result ≡ product_answer K.Kind.meaning entries.now scalars.now }
{
    require(
        scalars.len() == entries.len(),
        KindFault::Length(scalars.len()),
    )?;
    let elements = Checked::<K>::new(entries)?;
    check_scalars::<K>(scalars)?;
    Ok(elements.join_powers(scalars))
}
