// Bytes in uppercase hexadecimal.
ghost use Rattle.std.specs.Prelude.{◌≡◌, ◌<◌, ◌++◌, OnOk};
ghost use Rattle.proof_write.specs.Hex.{hex_digit, hex_pair, hex_of};

use std::alloc::AllocError;

fn digit(n: u8) -> u8
    requires { n < 16 }
    ensures { result ≡ hex_digit n }
{
    if n < 10 { b'0' + n } else { b'A' + (n - 10) }
}

// The two digits of a byte.
fn pair(b: u8) -> [u8; 2]
    ensures { result ≡ hex_pair b }
{
    [digit(b / 16), digit(b % 16)]
}

// Writes the digits of the bytes behind what is there.
pub fn push_hex(out: &mut Vec<u8>, bytes: &[u8]) -> Result<(), AllocError>
    ensures { OnOk result (out.new.items ≡ out.old.items ++ hex_of bytes.now) }
{
    for byte in bytes {
        out.extend_from_slice(&pair(*byte))?;
    }
    Ok(())
}
