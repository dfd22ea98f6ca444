// Inner products and commitments.
ghost use Rattle.std.specs.Prelude.{◌≡◌, length};
ghost use Rattle.protocol.specs.Halving.{inner, claim2};
ghost use Rattle.kind.specs.Kinds.{elements};

use kind::checked::Checked;
use kind::kind::Kind;

// <l, r>, modulo the order.
fn inner_product<K: Kind>(l: &[u32], r: &[u32]) -> u32
    requires { length r.now ≡ length l.now }
    ensures { result ≡ inner K.Kind.meaning.order l.now r.now }
{
    let q = K::order();
    let mut total: u32 = 0;
    for (x, y) in l.iter().zip(r) {
        total = ((total as u64 + *x as u64 * *y as u64) % q as u64) as u32;
    }
    total
}

// The second commitment: the product of H and r, joined with K to the inner product of l and r.
pub(crate) fn commit_second<K: Kind>(h: &Checked<K>, key: K, l: &[u32], r: &[u32]) -> K
    requires long { length r.now ≡ length h.now.entries.now }
    requires same { length r.now ≡ length l.now }
    ensures { result ≡ claim2 K.Kind.meaning.order K.Kind.meaning.group key (elements K.Kind.meaning h.now.entries.now) l.now r.now }
{
    let total = inner_product::<K>(l, r);
    h.join_powers(r).join(key.power(total))
}
