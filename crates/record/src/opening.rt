// Opening a record.
ghost use Rattle.std.specs.Prelude.{◌≡◌};
ghost use Rattle.record.specs.Answers.{opened, open_answer};

use crate::fault::RecordFault;
use crate::part::Reader;
use crate::whole::read_whole;
use kind::kind::Kind;
use kind::written::WrittenKind;

impl<'a> Reader<'a> {
    // The parts of a record, which is read whole first. Refused by 10, 3, 10, and then at the first wrong field.
    pub fn open<K: WrittenKind>(bytes: &'a [u8]) -> Result<Reader<'a>, RecordFault>
        ensures { opened result ≡ open_answer K.WrittenKind.writing K.Kind.meaning.order bytes.now }
    {
        read_whole::<K>(bytes)?;
        Ok(Reader::parts_of::<K>(bytes))
    }
}
