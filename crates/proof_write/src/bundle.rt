// A bundle's directory, and its records in lines of hexadecimal digits.
ghost use Rattle.std.specs.Prelude.{◌≡◌, ◌++◌, IfOk, map, vec_items, vec_len, OnOk};
ghost use Rattle.kind.specs.Bytes.{bytes_of};
ghost use Rattle.std.specs.Option.{option_map};
ghost use Rattle.proof_write.specs.Bundle.{directory_of};
ghost use Rattle.proof_write.specs.Hex.{hex_lines};

use crate::hex::push_hex;
use std::alloc::{AllocError, Global};

// Writes a record's offset and length behind what is there.
fn push_pair(out: &mut Vec<u8>, offset: u32, size: u32) -> Result<(), AllocError>
    ensures { OnOk result (out.new.items ≡ out.old.items ++ (bytes_of offset ++ bytes_of size)) }
{
    out.extend_from_slice(&offset.to_be_bytes())?;
    out.extend_from_slice(&size.to_be_bytes())
}

// The directory of these records, which stand without gaps; None where the count or an offset does not fit.
pub fn directory(heap: Global, records: &[Vec<u8>]) -> Result<Option<Vec<u8>>, AllocError>
    ensures { IfOk result (λ o. option_map vec_items o ≡ directory_of (map vec_len records.now)) }
{
    let Ok(count) = u16::try_from(records.len()) else {
        return Ok(None);
    };
    let mut offset = 2 + 8 * u32::from(count);
    let mut out = Vec::new(heap);
    out.extend_from_slice(&count.to_be_bytes())?;
    for record in records {
        let Ok(size) = u32::try_from(record.len()) else {
            return Ok(None);
        };
        push_pair(&mut out, offset, size)?;
        let Some(next) = offset.checked_add(size) else {
            return Ok(None);
        };
        offset = next;
    }
    Ok(Some(out))
}

// Writes each record in hexadecimal behind what is there, on a line of its own.
pub fn push_lines(out: &mut Vec<u8>, records: &[Vec<u8>]) -> Result<(), AllocError>
    ensures { OnOk result (out.new.items ≡ out.old.items ++ hex_lines (map vec_items records.now)) }
{
    for record in records {
        push_hex(out, record)?;
        out.push(b'\n')?;
    }
    Ok(())
}
