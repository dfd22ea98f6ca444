// What is refused before a method begins.
ghost use Rattle.std.specs.Prelude.{◌≡◌, ◌^◌, min, Ok, IfOk};
ghost use Rattle.kind.specs.Faults.{and_then, first_of};
ghost use Rattle.method.specs.Meaning.{is_size, scalar_refusal, length_refusals, content_refusals};

use crate::bases::{Bases, CheckedBases};
use crate::fault::MethodFault;
use kind::checked::Checked;
use kind::fault::require;
use kind::kind::Kind;

pub fn is_size(n: usize) -> bool
    ensures { result ≡ is_size n }
{
    matches!(n, 1 | 2 | 4 | 8 | 16 | 32 | 64 | 128 | 256)
}

pub(crate) fn check_scalar<K: Kind>(a: u32) -> Result<(), MethodFault>
    ensures { result ≡ scalar_refusal K.Kind.meaning a }
{
    require(a < K::order(), MethodFault::NotAScalar(0))
}

// 5, 6 and 8: the lengths g and h of the lists, against n, and those of the work lists.
pub(crate) fn check_lengths(
    n: usize,
    g: usize,
    h: usize,
    elements: usize,
    numbers: usize,
) -> Result<(), MethodFault>
    ensures { result ≡ first_of (length_refusals n g h elements numbers) }
{
    require(is_size(g), MethodFault::Size(g))?;
    require(is_size(h), MethodFault::Size(h))?;
    require(g == n, MethodFault::Length(g))?;
    require(h == n, MethodFault::Length(h))?;
    require(n <= elements, MethodFault::Room(elements))?;
    require(n <= numbers, MethodFault::Room(numbers))
}

// 11 and 12: the lists, checked, after the last pair was.
pub(crate) fn check_content<'a, K: Kind>(
    bases: &Bases<'a, K>,
    a: u32,
    b: u32,
) -> Result<CheckedBases<'a, K>, MethodFault>
    ensures refused { and_then result (λ _. Ok tt) ≡ first_of (content_refusals K.Kind.meaning bases.now.g.now bases.now.h.now a b) }
    ensures g { IfOk result (λ c. c.g.entries.now ≡ bases.now.g.now) }
    ensures h { IfOk result (λ c. c.h.entries.now ≡ bases.now.h.now) }
    ensures key { IfOk result (λ c. c.key ≡ bases.now.key) }
{
    let g = Checked::<K>::new(bases.g)?;
    let h = Checked::<K>::new(bases.h)?;
    check_scalar::<K>(a)?;
    check_scalar::<K>(b)?;
    Ok(CheckedBases {
        g,
        h,
        key: bases.key,
    })
}

// How many entries so many rounds fold to one. More than eight rounds count as eight.
pub fn list_length(rounds: usize) -> usize
    ensures { result ≡ 2 ^ min rounds 8 }
{
    1 << rounds.min(8)
}
