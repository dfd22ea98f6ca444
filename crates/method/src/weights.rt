// The weights by which a list is multiplied out.
ghost use Rattle.std.specs.Prelude.{◌≡◌, ◌^◌, ◌<◌, ◌≤◌, length};
ghost use Rattle.protocol.specs.Weights.{HWeights};
ghost use Rattle.method.specs.Meaning.{reduced};
ghost use Rattle.method.specs.HighestBit.{HighestBit};

use kind::kind::Kind;
use kind::modular::mul_scalars;

// The highest one bit of each index, and 0 for the index 0.
const HIGHEST_BIT: [u8; 256] = [
    0, 0, 1, 1, 2, 2, 2, 2, 3, 3, 3, 3, 3, 3, 3, 3, 4, 4, 4, 4, 4, 4, 4, 4, 4, 4, 4, 4, 4, 4, 4, 4,
    5, 5, 5, 5, 5, 5, 5, 5, 5, 5, 5, 5, 5, 5, 5, 5, 5, 5, 5, 5, 5, 5, 5, 5, 5, 5, 5, 5, 5, 5, 5, 5,
    6, 6, 6, 6, 6, 6, 6, 6, 6, 6, 6, 6, 6, 6, 6, 6, 6, 6, 6, 6, 6, 6, 6, 6, 6, 6, 6, 6, 6, 6, 6, 6,
    6, 6, 6, 6, 6, 6, 6, 6, 6, 6, 6, 6, 6, 6, 6, 6, 6, 6, 6, 6, 6, 6, 6, 6, 6, 6, 6, 6, 6, 6, 6, 6,
    7, 7, 7, 7, 7, 7, 7, 7, 7, 7, 7, 7, 7, 7, 7, 7, 7, 7, 7, 7, 7, 7, 7, 7, 7, 7, 7, 7, 7, 7, 7, 7,
    7, 7, 7, 7, 7, 7, 7, 7, 7, 7, 7, 7, 7, 7, 7, 7, 7, 7, 7, 7, 7, 7, 7, 7, 7, 7, 7, 7, 7, 7, 7, 7,
    7, 7, 7, 7, 7, 7, 7, 7, 7, 7, 7, 7, 7, 7, 7, 7, 7, 7, 7, 7, 7, 7, 7, 7, 7, 7, 7, 7, 7, 7, 7, 7,
    7, 7, 7, 7, 7, 7, 7, 7, 7, 7, 7, 7, 7, 7, 7, 7, 7, 7, 7, 7, 7, 7, 7, 7, 7, 7, 7, 7, 7, 7, 7, 7,
];

fn top_bit(i: usize) -> usize
    requires { i < 256 }
    ensures { HighestBit i result }
{
    HIGHEST_BIT[i] as usize
}

// Fills ws with the H weights of the challenges, modulo the order.
pub(crate) fn fill_weights<K: Kind>(cs: &[u32], ws: &mut [u32])
    requires few { length cs.now ≤ 8 }
    requires room { length ws.old ≡ 2 ^ length cs.now }
    ensures { HWeights K.Kind.meaning.order (reduced K.Kind.meaning cs.now) ws.new }
{
    let q = K::order();
    ws[0] = 1;
    // By index: each weight is made from an earlier one of the same list.
    for i in 1..ws.len() {
        let t = top_bit(i);
        let rest = i - (1 << t);
        ws[i] = mul_scalars::<K>(ws[rest], cs[cs.len() - 1 - t] % q);
    }
}
