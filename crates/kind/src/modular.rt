// Numbers modulo a modulus.
ghost use Rattle.std.specs.Prelude.{◌≡◌, ◌*◌, ◌%◌, ◌<◌};
ghost use Rattle.kind.specs.Modular.{pow_mod};

use crate::kind::Kind;

// q, the order of both number kinds.
pub const ORDER: u32 = 1_073_741_789;

// p, the modulus of the residues.
pub const MODULUS: u32 = 2_147_483_579;

pub(crate) fn mul_mod(a: u32, b: u32, m: u32) -> u32
    requires { 0 < m }
    ensures { result ≡ a * b % m }
{
    (a as u64 * b as u64 % m as u64) as u32
}

// The e-th power of v modulo m, by squaring.
pub(crate) fn pow_mod(v: u32, e: u32, m: u32) -> u32
    requires below { v < m }
    requires above { 1 < m }
    ensures { result ≡ pow_mod m v e }
{
    let mut acc = 1;
    let mut b = v;
    let mut n = e;
    while n > 0 {
        if n % 2 == 1 {
            acc = mul_mod(acc, b, m);
        }
        b = mul_mod(b, b, m);
        n /= 2;
    }
    acc
}

// The product of two scalars modulo the kind's order.
pub fn mul_scalars<K: Kind>(a: u32, b: u32) -> u32
    ensures { result ≡ a * b % K.Kind.meaning.order }
{
    mul_mod(a, b, K::order())
}
