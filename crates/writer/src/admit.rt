// What is refused before a writer's call begins.
ghost use Rattle.std.specs.Prelude.{◌≡◌, Ok, IfOk, position};
ghost use Rattle.kind.specs.Faults.{and_then};
ghost use Rattle.writer.specs.Refusals.{size_refusal, sizes_refused, lengths_refused, length_one_refused, scalars_refusal, no_challenge, challenges_refusal, content_refused};
ghost use Rattle.writer.specs.Whole.{count_refused, shape_refused, room_refusal};

use crate::fault::WriterFault;
use kind::checked::Checked;
use kind::fault::require;
use kind::kind::Kind;
use kind::products::check_scalars;
use method::admit::{is_size, list_length};

fn check_size(n: usize) -> Result<(), WriterFault>
    ensures { result ≡ size_refusal n }
{
    require(is_size(n), WriterFault::Size(n))
}

// 5: the lengths of G, H, l and r.
pub(crate) fn check_sizes(g: usize, h: usize, l: usize, r: usize) -> Result<(), WriterFault>
    ensures { result ≡ sizes_refused g h l r }
{
    check_size(g)?;
    check_size(h)?;
    check_size(l)?;
    check_size(r)
}

// 6: the lengths of H, l and r, against that of G.
pub(crate) fn check_lengths(g: usize, h: usize, l: usize, r: usize) -> Result<(), WriterFault>
    ensures { result ≡ lengths_refused g h l r }
{
    require(h == g, WriterFault::Length(h))?;
    require(l == g, WriterFault::Length(l))?;
    require(r == g, WriterFault::Length(r))
}

// 6: the number of challenges.
fn check_count(n: usize, k: usize) -> Result<(), WriterFault>
    ensures { result ≡ count_refused n k }
{
    require(k <= 8 && list_length(k) == n, WriterFault::Length(k))
}

// 5 and 6: the lengths of G, H, l and r, and the number of challenges.
pub fn check_shape(g: usize, h: usize, l: usize, r: usize, k: usize) -> Result<(), WriterFault>
    ensures { result ≡ shape_refused g h l r k }
{
    check_sizes(g, h, l, r)?;
    check_lengths(g, h, l, r)?;
    check_count(g, k)
}

// 8: room for n entries in a list of m.
pub fn check_room(n: usize, m: usize) -> Result<(), WriterFault>
    ensures { result ≡ room_refusal n m }
{
    require(n <= m, WriterFault::Room(m))
}

// 7: lists of one entry.
pub(crate) fn check_above_one(n: usize) -> Result<(), WriterFault>
    ensures { result ≡ length_one_refused n }
{
    require(1 < n, WriterFault::LengthOne)
}

// 12: the scalars of a list. The fault is the writer's own.
fn check_scalar_list<K: Kind>(xs: &[u32]) -> Result<(), WriterFault>
    ensures { result ≡ scalars_refusal K.Kind.meaning xs.now }
{
    check_scalars::<K>(xs).map_err(|fault| WriterFault::NotAScalar(fault.refusal().place))
}

fn is_no_challenge<K: Kind>(c: u32) -> bool
    ensures { result ≡ no_challenge K.Kind.meaning c }
{
    c == 0 || K::order() <= c
}

fn first_no_challenge<K: Kind>(cs: &[u32]) -> Option<usize>
    ensures { result ≡ position (no_challenge K.Kind.meaning) cs.now }
{
    cs.iter().position(|c| is_no_challenge::<K>(*c))
}

// 13: the challenges.
pub fn check_challenges<K: Kind>(cs: &[u32]) -> Result<(), WriterFault>
    ensures { result ≡ challenges_refusal K.Kind.meaning cs.now }
{
    match first_no_challenge::<K>(cs) {
        Some(i) => Err(WriterFault::NotAChallenge(i)),
        None => Ok(()),
    }
}

// 11 and 12: G and H, checked, after the scalars of l and r were.
pub fn check_content<'a, K: Kind>(
    g: &'a [K::Entry],
    h: &'a [K::Entry],
    l: &[u32],
    r: &[u32],
) -> Result<(Checked<'a, K>, Checked<'a, K>), WriterFault>
    ensures refused { and_then result (λ _. Ok tt) ≡ content_refused K.Kind.meaning g.now h.now l.now r.now }
    ensures g { IfOk result (λ p. p.0.entries.now ≡ g.now) }
    ensures h { IfOk result (λ p. p.1.entries.now ≡ h.now) }
{
    let g = Checked::<K>::new(g)?;
    let h = Checked::<K>::new(h)?;
    check_scalar_list::<K>(l)?;
    check_scalar_list::<K>(r)?;
    Ok((g, h))
}
