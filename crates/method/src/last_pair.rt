// The check of a last pair at length 1, and clearing of numbers.
ghost use Rattle.std.specs.Prelude.{◌≡◌, length, replicate};
ghost use Rattle.method.specs.Meaning.{passes as passes_of};

use kind::kind::Kind;
use kind::modular::mul_scalars;
use kind::pair::Pair;

// Whether a, b meet both equations at the elements x and y of folded lists.
pub(crate) fn passes<K: Kind>(z: Pair<K>, key: K, x: K, y: K, a: u32, b: u32) -> bool
    ensures { result ≡ passes_of K.Kind.meaning z key x y a b }
{
    let ab = mul_scalars::<K>(a, b);
    let left = x.power(a);
    let right = y.power(b);
    let total = key.power(ab);
    let one = left.same(z.a);
    let two = right.join(total).same(z.b);
    one && two
}

pub fn clear_numbers(numbers: &mut [u32])
    ensures { numbers.new ≡ replicate (length numbers.old) 0 }
{
    numbers.fill(0);
}
