// Writing bytes at a running place: each function answers the place behind what it wrote. The output and the place are no struct: with
// the `&mut` in it, each contract would also have to say that the reference is still the same one.
ghost use Rattle.std.specs.Prelude.{◌≡◌, ◌+◌, ◌*◌, ◌<◌, ◌≤◌, [], ◌∷◌, length};
ghost use Rattle.kind.specs.Bytes.{bytes_of};
ghost use Rattle.ledger.specs.Ledger.{lower, upper};
ghost use Rattle.record.specs.Fields.{round_of};
ghost use Rattle.writer.specs.Laying.{Laid};
ghost use Rattle.writer.specs.Records.{round_written};

use kind::bytes::cut;
use kind::kind::Kind;
use kind::written::WrittenKind;
use ledger::parts::Message;

pub(crate) fn put_byte(b: u8, at: usize, out: &mut [u8]) -> usize
    requires { at < length out.old }
    ensures { Laid at (b ∷ []) out.old out.new result }
{
    out[at] = b;
    at + 1
}

// Four bytes, the highest first.
pub(crate) fn put_number(x: u32, at: usize, out: &mut [u8]) -> usize
    requires { at + 4 ≤ length out.old }
    ensures { Laid at (bytes_of x) out.old out.new result }
{
    out[at..at + 4].copy_from_slice(&x.to_be_bytes());
    at + 4
}

pub(crate) fn put_element<K: WrittenKind>(x: K, at: usize, out: &mut [u8]) -> usize
    requires { at + K.WrittenKind.writing.width ≤ length out.old }
    ensures { Laid at (K.WrittenKind.writing.bytes x) out.old out.new result }
{
    let w = K::width();
    let all = x.encode();
    let (bytes, _) = cut(&all, w);
    out[at..at + w].copy_from_slice(bytes);
    at + w
}

// A message, and the challenge that answers it.
pub(crate) fn put_round<K: WrittenKind>(m: Message<K>, c: u32, at: usize, out: &mut [u8]) -> usize
    requires { at + (4 * K.WrittenKind.writing.width + 4) ≤ length out.old }
    ensures { Laid at (round_written K.WrittenKind.writing (round_of (lower m) (upper m) c)) out.old out.new result }
{
    let l2 = put_element(m.l1, at, out);
    let r1 = put_element(m.l2, l2, out);
    let r2 = put_element(m.r1, r1, out);
    let challenge = put_element(m.r2, r2, out);
    put_number(c, challenge, out)
}
