// Checking a record by a method.
ghost use Rattle.std.specs.Prelude.{◌≡◌, ◌^◌, length};
ghost use Rattle.kind.specs.Kinds.{unit_entry};
ghost use Rattle.method.specs.Meaning.{cleared};
ghost use Rattle.record.specs.Answers.{reckoned_answer, record_answer, front_answer};
ghost use Rattle.record.specs.Folded.{seen};
ghost use Rattle.record.specs.Parts.{rounds_in};

use crate::fault::RecordFault;
use crate::noted::Noted;
use crate::whole::read_whole;
use kind::bytes::{byte_at, cut};
use kind::kind::Kind;
use kind::written::WrittenKind;
use method::admit::list_length;
use method::bases::Bases;
use method::method::Method;

// The method's answer for what a record comes to.
fn judge<K: Kind, M: Method>(
    method: &M,
    noted: Noted<K>,
    bases: &Bases<K>,
    work_elements: &mut [K::Entry],
    work_numbers: &mut [u32],
) -> Result<bool, RecordFault>
    ensures answer { result ≡ reckoned_answer K.Kind.meaning (seen noted) bases.now.g.now bases.now.h.now bases.now.key (length work_elements.old) (length work_numbers.old) }
    ensures elements { work_elements.new ≡ cleared result (2 ^ length (seen noted).challenges) (unit_entry K.Kind.meaning) work_elements.old }
    ensures numbers { work_numbers.new ≡ cleared result (2 ^ length (seen noted).challenges) 0 work_numbers.old }
{
    Ok(method.verdict(
        &noted.table,
        noted.z,
        bases,
        noted.a,
        noted.b,
        work_elements,
        work_numbers,
    )?)
}

// The record call: Z1 and Z2 are folded by the record's challenges, and the method gives its verdict.
// The record's refusals come first, then those of the lists. Refused, nothing is altered.
pub fn check_record<K: WrittenKind, M: Method>(
    method: &M,
    bytes: &[u8],
    bases: &Bases<K>,
    work_elements: &mut [K::Entry],
    work_numbers: &mut [u32],
) -> Result<bool, RecordFault>
    ensures answer { result ≡ record_answer K.Kind.meaning K.WrittenKind.writing bytes.now bases.now.g.now bases.now.h.now bases.now.key (length work_elements.old) (length work_numbers.old) }
    ensures elements { work_elements.new ≡ cleared result (2 ^ rounds_in bytes.now) (unit_entry K.Kind.meaning) work_elements.old }
    ensures numbers { work_numbers.new ≡ cleared result (2 ^ rounds_in bytes.now) 0 work_numbers.old }
{
    let noted = read_whole::<K>(bytes)?;
    judge(method, noted, bases, work_elements, work_numbers)
}

// The record call over the first 2^k entries of longer lists, k being the record's.
pub fn check_front<K: WrittenKind, M: Method>(
    method: &M,
    bytes: &[u8],
    bases: &Bases<K>,
    work_elements: &mut [K::Entry],
    work_numbers: &mut [u32],
) -> Result<bool, RecordFault>
    ensures answer { result ≡ front_answer K.Kind.meaning K.WrittenKind.writing bytes.now bases.now.g.now bases.now.h.now bases.now.key (length work_elements.old) (length work_numbers.old) }
    ensures elements { work_elements.new ≡ cleared result (2 ^ rounds_in bytes.now) (unit_entry K.Kind.meaning) work_elements.old }
    ensures numbers { work_numbers.new ≡ cleared result (2 ^ rounds_in bytes.now) 0 work_numbers.old }
{
    let n = list_length(byte_at(bytes, 0) as usize);
    let (g, _) = cut(bases.g, n);
    let (h, _) = cut(bases.h, n);
    let front = Bases {
        g,
        h,
        key: bases.key,
    };
    check_record::<K, M>(method, bytes, &front, work_elements, work_numbers)
}
