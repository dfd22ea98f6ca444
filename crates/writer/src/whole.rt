// The whole-proof call.
ghost use Rattle.std.specs.Prelude.{◌≡◌, ◌+◌, ◌*◌, ◌≤◌, length, replicate, Ok, IfOk};
ghost use Rattle.kind.specs.Faults.{and_then};
ghost use Rattle.kind.specs.Kinds.{unit_entry};
ghost use Rattle.method.specs.Meaning.{cleared};
ghost use Rattle.record.specs.Parts.{record_length};
ghost use Rattle.writer.specs.Answers.{lists_of};
ghost use Rattle.writer.specs.Laying.{Laid};
ghost use Rattle.writer.specs.Ready.{AsLong};
ghost use Rattle.writer.specs.Records.{front_of, record_of};
ghost use Rattle.writer.specs.Rows.{WritableLists};
ghost use Rattle.writer.specs.Whole.{rooms_refused, whole_refused, whole_answer, begun};

use crate::admit::{check_challenges, check_content, check_room, check_shape};
use crate::commitments::commit_second;
use crate::fault::WriterFault;
use crate::laying::{put_byte, put_element};
use crate::rounds::{put_last, put_rounds};
use crate::rows::copy_rows;
use crate::scrub::Scrub;
use kind::checked::Checked;
use kind::entries::clear_entries;
use kind::kind::Kind;
use kind::written::WrittenKind;
use method::bases::{Bases, CheckedBases};

fn record_length(width: usize, k: usize) -> usize
    requires wide { width ≤ 64 }
    requires few { k ≤ 8 }
    ensures { result ≡ record_length width k }
{
    9 + 2 * width + k * (4 * width + 4)
}

// 8: the output and the work lists.
fn check_rooms(
    width: usize,
    n: usize,
    k: usize,
    out: usize,
    elements: usize,
    numbers: usize,
) -> Result<(), WriterFault>
    requires wide { width ≤ 64 }
    requires few { k ≤ 8 }
    requires size { n ≤ 256 }
    ensures { result ≡ rooms_refused width n k out elements numbers }
{
    check_room(record_length(width, k), out)?;
    check_room(n + n, elements)?;
    check_room(n + n, numbers)
}

fn admit_whole<'a, K: WrittenKind>(
    g: &'a [K::Entry],
    h: &'a [K::Entry],
    l: &[u32],
    r: &[u32],
    cs: &[u32],
    out: usize,
    elements: usize,
    numbers: usize,
) -> Result<(Checked<'a, K>, Checked<'a, K>), WriterFault>
    ensures refused { and_then result (λ _. Ok tt) ≡ whole_refused K.Kind.meaning K.WrittenKind.writing.width g.now h.now l.now r.now cs.now out elements numbers }
    ensures g { IfOk result (λ p. p.0.entries.now ≡ g.now) }
    ensures h { IfOk result (λ p. p.1.entries.now ≡ h.now) }
{
    check_shape(g.len(), h.len(), l.len(), r.len(), cs.len())?;
    check_rooms(K::width(), g.len(), cs.len(), out, elements, numbers)?;
    let lists = check_content::<K>(g, h, l, r)?;
    check_challenges::<K>(cs)?;
    Ok(lists)
}

// The number of rounds and the claim.
fn put_front<K: WrittenKind>(
    bases: &CheckedBases<K>,
    l: &[u32],
    r: &[u32],
    k: u8,
    out: &mut [u8],
) -> usize
    requires long { AsLong (length bases.now.g.entries.now) (length bases.now.h.entries.now) (length l.now) (length r.now) }
    requires room { 1 + 2 * K.WrittenKind.writing.width ≤ length out.old }
    ensures { Laid 0 (front_of K.Kind.meaning K.WrittenKind.writing bases.now.key k (lists_of K.Kind.meaning bases.now.g.entries.now bases.now.h.entries.now l.now r.now)) out.old out.new result }
{
    let z1 = bases.g.join_powers(l);
    let z2 = commit_second(&bases.h, bases.key, l, r);
    let first = put_byte(k, 0, out);
    let second = put_element(z1, first, out);
    put_element(z2, second, out)
}

// The record, written through work lists of just twice the length. The guard over the numbers, which hold secret scalars from
// the first copy on, clears them on both ways out. Lists of one entry have no rounds, and G and H are not copied.
fn write_record<K: WrittenKind>(
    bases: &CheckedBases<K>,
    l: &[u32],
    r: &[u32],
    cs: &[u32],
    out: &mut [u8],
    elements: &mut [K::Entry],
    numbers: &mut [u32],
) -> usize
    requires { WritableLists K.WrittenKind.writing.width (length cs.now) (length bases.now.g.entries.now) (length bases.now.h.entries.now) (length l.now) (length r.now) (length out.old) (length elements.old) (length numbers.old) }
    ensures out { Laid 0 (record_of K.Kind.meaning K.WrittenKind.writing bases.now.key cs.now (lists_of K.Kind.meaning bases.now.g.entries.now bases.now.h.entries.now l.now r.now)) out.old out.new result }
    ensures elements { elements.new ≡ replicate (length elements.old) (unit_entry K.Kind.meaning) }
    ensures numbers { numbers.new ≡ replicate (length numbers.old) 0 }
{
    let guard = Scrub(numbers);
    copy_rows(l, r, &mut *guard.0);
    let at = put_front(bases, l, r, cs.len() as u8, out);
    if cs.is_empty() {
        clear_entries::<K>(elements);
        return put_last(guard.0[0], guard.0[1], at, out);
    }
    copy_rows(bases.g.entries, bases.h.entries, elements);
    let end = put_rounds::<K>(
        bases.key,
        cs,
        bases.g.entries.len(),
        elements,
        &mut *guard.0,
        at,
        out,
    );
    clear_entries::<K>(elements);
    end
}

// The whole-proof call: writes the noted record of l and r under the challenges, over G, H and K, at the output's start, and
// answers its length. Of the work lists, which need twice the length of G, the front that it used is units and zeros again.
// Refused by 5, 6, 8, 11, 12 and 13; refused, it alters nothing.
pub fn whole_proof<K: WrittenKind>(
    bases: &Bases<K>,
    l: &[u32],
    r: &[u32],
    challenges: &[u32],
    out: &mut [u8],
    work_elements: &mut [K::Entry],
    work_numbers: &mut [u32],
) -> Result<usize, WriterFault>
    ensures answer { result ≡ whole_answer K.Kind.meaning K.WrittenKind.writing.width bases.now.g.now bases.now.h.now l.now r.now challenges.now (length out.old) (length work_elements.old) (length work_numbers.old) }
    ensures out { out.new ≡ begun result (record_of K.Kind.meaning K.WrittenKind.writing bases.now.key challenges.now (lists_of K.Kind.meaning bases.now.g.now bases.now.h.now l.now r.now)) out.old }
    ensures elements { work_elements.new ≡ cleared result (length bases.now.g.now + length bases.now.g.now) (unit_entry K.Kind.meaning) work_elements.old }
    ensures numbers { work_numbers.new ≡ cleared result (length bases.now.g.now + length bases.now.g.now) 0 work_numbers.old }
{
    let (g, h) = admit_whole::<K>(
        bases.g,
        bases.h,
        l,
        r,
        challenges,
        out.len(),
        work_elements.len(),
        work_numbers.len(),
    )?;
    let checked = CheckedBases {
        g,
        h,
        key: bases.key,
    };
    let twice = bases.g.len() + bases.g.len();
    Ok(write_record(
        &checked,
        l,
        r,
        challenges,
        out,
        &mut work_elements[..twice],
        &mut work_numbers[..twice],
    ))
}
