// A writer's record, checked over the same bases.
ghost use Rattle.std.specs.Prelude.{◌≡◌, ◌+◌, length};
ghost use Rattle.kind.specs.Kinds.{unit_entry};
ghost use Rattle.method.specs.Meaning.{cleared};
ghost use Rattle.writer.specs.Answers.{lists_of};
ghost use Rattle.writer.specs.Records.{record_of};
ghost use Rattle.writer.specs.Whole.{begun};
ghost use Rattle.settle.specs.Meeting.{passes_unless_refused};

use kind::bytes::cut;
use kind::kind::Kind;
use kind::written::WrittenKind;
use method::bases::Bases;
use method::method::Method;
use record::check::check_record;
use record::fault::RecordFault;
use writer::fault::WriterFault;
use writer::whole::whole_proof;

// The two ends meet: writes the record of l and r under the challenges, as the whole-proof call does, and hands it to the record
// call, by any method, over the same G, H and K. What the whole-proof call does not refuse, the record call passes.
pub fn write_and_check<K: WrittenKind, M: Method>(
    method: &M,
    bases: &Bases<K>,
    l: &[u32],
    r: &[u32],
    challenges: &[u32],
    out: &mut [u8],
    work_elements: &mut [K::Entry],
    work_numbers: &mut [u32],
) -> Result<Result<bool, RecordFault>, WriterFault>
    ensures answer { result ≡ passes_unless_refused K.Kind.meaning K.WrittenKind.writing.width bases.now.g.now bases.now.h.now l.now r.now challenges.now (length out.old) (length work_elements.old) (length work_numbers.old) }
    ensures out { out.new ≡ begun result (record_of K.Kind.meaning K.WrittenKind.writing bases.now.key challenges.now (lists_of K.Kind.meaning bases.now.g.now bases.now.h.now l.now r.now)) out.old }
    ensures elements { work_elements.new ≡ cleared result (length bases.now.g.now + length bases.now.g.now) (unit_entry K.Kind.meaning) work_elements.old }
    ensures numbers { work_numbers.new ≡ cleared result (length bases.now.g.now + length bases.now.g.now) 0 work_numbers.old }
{
    let length = whole_proof::<K>(bases, l, r, challenges, out, work_elements, work_numbers)?;
    let (written, _) = cut(out, length);
    Ok(check_record::<K, M>(method, written, bases, work_elements, work_numbers))
}
