// Folding the two commitments, as one pair.
ghost use Rattle.std.specs.Prelude.{◌≡◌};
ghost use Rattle.method.specs.Commitments.{fold_commitments};

use kind::kind::Kind;
use kind::modular::mul_scalars;
use kind::pair::Pair;

// Z1 and Z2 folded by the challenge c, with the message's lower pair L1, L2 and its upper pair R1, R2.
pub fn fold_commitments<K: Kind>(lower: Pair<K>, z: Pair<K>, upper: Pair<K>, c: u32) -> Pair<K>
    ensures { result ≡ fold_commitments K.Kind.meaning c lower z upper }
{
    let cc = mul_scalars::<K>(c, c);
    let far = lower.power(cc);
    let near = z.power(c);
    far.join(near).join(upper)
}
