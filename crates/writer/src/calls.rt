// The claim, message and fold calls.
ghost use Rattle.std.specs.Prelude.{◌≡◌, map, Ok, IfOk};
ghost use Rattle.kind.specs.Faults.{and_then};
ghost use Rattle.kind.specs.Kinds.{unit_entry};
ghost use Rattle.ledger.specs.Rules.{folded};
ghost use Rattle.writer.specs.Answers.{lists_of, halved, claim_answer, message_answer};
ghost use Rattle.writer.specs.Refusals.{claim_refused, message_refused, fold_refused};

use crate::admit::{check_above_one, check_challenges, check_content, check_lengths, check_sizes};
use crate::commitments::commit_second;
use crate::fault::WriterFault;
use crate::folds::{fold_elements, fold_scalars};
use crate::halves::message_across;
use kind::checked::Checked;
use kind::kind::Kind;
use kind::side::Side;
use ledger::parts;
use method::bases::{Bases, CheckedBases};

fn admit_claim<'a, K: Kind>(
    g: &'a [K::Entry],
    h: &'a [K::Entry],
    l: &[u32],
    r: &[u32],
) -> Result<(Checked<'a, K>, Checked<'a, K>), WriterFault>
    ensures refused { and_then result (λ _. Ok tt) ≡ claim_refused K.Kind.meaning g.now h.now l.now r.now }
    ensures g { IfOk result (λ p. p.0.entries.now ≡ g.now) }
    ensures h { IfOk result (λ p. p.1.entries.now ≡ h.now) }
{
    check_sizes(g.len(), h.len(), l.len(), r.len())?;
    check_lengths(g.len(), h.len(), l.len(), r.len())?;
    check_content::<K>(g, h, l, r)
}

fn admit_message<'a, K: Kind>(
    g: &'a [K::Entry],
    h: &'a [K::Entry],
    l: &[u32],
    r: &[u32],
) -> Result<(Checked<'a, K>, Checked<'a, K>), WriterFault>
    ensures refused { and_then result (λ _. Ok tt) ≡ message_refused K.Kind.meaning g.now h.now l.now r.now }
    ensures g { IfOk result (λ p. p.0.entries.now ≡ g.now) }
    ensures h { IfOk result (λ p. p.1.entries.now ≡ h.now) }
{
    check_sizes(g.len(), h.len(), l.len(), r.len())?;
    check_lengths(g.len(), h.len(), l.len(), r.len())?;
    check_above_one(g.len())?;
    check_content::<K>(g, h, l, r)
}

fn admit_fold<K: Kind>(
    g: &[K::Entry],
    h: &[K::Entry],
    l: &[u32],
    r: &[u32],
    c: u32,
) -> Result<(), WriterFault>
    ensures { result ≡ fold_refused K.Kind.meaning g.now h.now l.now r.now c }
{
    admit_message::<K>(g, h, l, r)?;
    check_challenges::<K>(&[c])
}

// The claim call: Z1 and Z2 of l and r, over G, H and K. Refused by 5, 6, 11 and 12.
pub fn claim<K: Kind>(bases: &Bases<K>, l: &[u32], r: &[u32]) -> Result<(K, K), WriterFault>
    ensures { result ≡ claim_answer K.Kind.meaning bases.now.g.now bases.now.h.now bases.now.key l.now r.now }
{
    let (g, h) = admit_claim::<K>(bases.g, bases.h, l, r)?;
    let z1 = g.join_powers(l);
    let z2 = commit_second(&h, bases.key, l, r);
    Ok((z1, z2))
}

// The message call: L1, L2, R1 and R2 of the lists. Refused by 5, 6, 7, 11 and 12.
pub fn message<K: Kind>(
    bases: &Bases<K>,
    l: &[u32],
    r: &[u32],
) -> Result<parts::Message<K>, WriterFault>
    ensures { result ≡ message_answer K.Kind.meaning bases.now.g.now bases.now.h.now bases.now.key l.now r.now }
{
    let (g, h) = admit_message::<K>(bases.g, bases.h, l, r)?;
    let key = bases.key;
    Ok(message_across(&CheckedBases { g, h, key }, l, r))
}

// The fold call: all four lists folded by the challenge c, in their first halves; units and zeros stand in the last halves.
// Refused by 5, 6, 7, 11, 12 and 13; refused, it alters nothing.
pub fn fold<K: Kind>(
    g: &mut [K::Entry],
    h: &mut [K::Entry],
    l: &mut [u32],
    r: &mut [u32],
    c: u32,
) -> Result<(), WriterFault>
    ensures answer { result ≡ fold_refused K.Kind.meaning g.old h.old l.old r.old c }
    ensures g { g.new ≡ halved result (map K.Kind.meaning.entry (folded K.Kind.meaning c (lists_of K.Kind.meaning g.old h.old l.old r.old)).gs) (unit_entry K.Kind.meaning) g.old }
    ensures h { h.new ≡ halved result (map K.Kind.meaning.entry (folded K.Kind.meaning c (lists_of K.Kind.meaning g.old h.old l.old r.old)).hs) (unit_entry K.Kind.meaning) h.old }
    ensures l { l.new ≡ halved result (folded K.Kind.meaning c (lists_of K.Kind.meaning g.old h.old l.old r.old)).l 0 l.old }
    ensures r { r.new ≡ halved result (folded K.Kind.meaning c (lists_of K.Kind.meaning g.old h.old l.old r.old)).r 0 r.old }
{
    admit_fold::<K>(g, h, l, r, c)?;
    fold_elements::<K>(Side::OfG, c, g);
    fold_elements::<K>(Side::OfH, c, h);
    fold_scalars::<K>(Side::OfG, c, l);
    fold_scalars::<K>(Side::OfH, c, r);
    Ok(())
}
