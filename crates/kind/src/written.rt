// A kind whose elements are written as bytes.
ghost use Rattle.std.specs.Prelude.{◌≡◌, ◌-◌, ◌++◌, replicate};
ghost use Rattle.std.specs.Option.{ok_or};
ghost use Rattle.kind.specs.Bytes.{bytes_of, Writing, WellWritten, read_four, clear_writing, residue_writing};
ghost use Rattle.kind.specs.declared.fault.KindFault.TheVariants.{NotAnElement};
ghost use Rattle.kind.specs.Written.{clear_written, residue_written};

use crate::bytes::number_in;
use crate::clear::Clear;
use crate::fault::KindFault;
use crate::kind::Kind;
use crate::residue::Residue;

pub trait WrittenKind: Kind {
    ghost writing: { Writing Self };

    // How many bytes an element takes, from 1 to 64.
    fn width() -> usize
        ensures { result ≡ writing.width };

    // The element's bytes, and zeros behind them.
    fn encode(self) -> [u8; 64]
        ensures { result ≡ writing.bytes self ++ replicate (64 - writing.width) 0 };

    // The element that the bytes write. Bytes of no element are refused by 11.
    fn decode(bytes: &[u8]) -> Result<Self, KindFault>
        ensures { result ≡ ok_or (writing.read bytes.now) (NotAnElement 0) };

    ghost writes: { WellWritten writing };
}

// The four bytes of a number, and zeros behind them.
fn four_bytes(n: u32) -> [u8; 64]
    ensures { result ≡ bytes_of n ++ replicate 60 0 }
{
    let mut all = [0; 64];
    all[0..4].copy_from_slice(&n.to_be_bytes());
    all
}

// The element of the number that just four bytes write.
fn decode_number<K: Kind<Entry = u32>>(bytes: &[u8]) -> Result<K, KindFault>
    ensures { result ≡ ok_or (read_four K.Kind.meaning.element bytes.now) (NotAnElement 0) }
{
    if bytes.len() != 4 {
        return Err(KindFault::NotAnElement(0));
    }
    K::from_entry(number_in(bytes))
}

impl WrittenKind for Clear {
    ghost writing = { clear_writing };

    ghost writes = { clear_written };

    fn width() -> usize {
        4
    }

    fn encode(self) -> [u8; 64] {
        four_bytes(self.to_entry())
    }

    fn decode(bytes: &[u8]) -> Result<Clear, KindFault> {
        decode_number(bytes)
    }
}

impl WrittenKind for Residue {
    ghost writing = { residue_writing };

    ghost writes = { residue_written };

    fn width() -> usize {
        4
    }

    fn encode(self) -> [u8; 64] {
        four_bytes(self.to_entry())
    }

    fn decode(bytes: &[u8]) -> Result<Residue, KindFault> {
        decode_number(bytes)
    }
}
