// What the two ends come to: each function carries one theorem in its contract.
ghost use Rattle.settle.specs.Meeting.{ReadsBack, WrittenPasses};

use kind::kind::Kind;
use kind::written::WrittenKind;

// A record that is written is read back, whole.
pub fn what_is_written_is_read_back<K: WrittenKind>() -> u8
    ensures { ReadsBack K.Kind.meaning K.WrittenKind.writing }
{
    0
}

// The record of an honest writer passes.
pub fn a_written_record_passes<K: WrittenKind>() -> u8
    ensures { WrittenPasses K.Kind.meaning K.WrittenKind.writing }
{
    0
}
