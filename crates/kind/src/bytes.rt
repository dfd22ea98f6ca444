// Cutting slices, and numbers in bytes, the highest first.
ghost use Rattle.std.specs.Prelude.{◌≡◌, take, drop, slice_index};
ghost use Rattle.kind.specs.Bytes.{number_in};

// The first n entries, and the rest. Where there are fewer, all of them, and nothing.
pub fn cut<T>(xs: &[T], n: usize) -> (&[T], &[T])
    ensures front { result.0.now ≡ take n xs.now }
    ensures back { result.1.now ≡ drop n xs.now }
{
    xs.split_at(n.min(xs.len()))
}

// The byte at a place, and 0 behind the end.
pub fn byte_at(bytes: &[u8], i: usize) -> u8
    ensures { result ≡ slice_index bytes.now i }
{
    bytes.get(i).copied().unwrap_or(0)
}

// The number that the first four bytes write; a byte that is not there counts as 0.
pub fn number_in(bytes: &[u8]) -> u32
    ensures { result ≡ number_in bytes.now }
{
    u32::from_be_bytes([
        byte_at(bytes, 0),
        byte_at(bytes, 1),
        byte_at(bytes, 2),
        byte_at(bytes, 3),
    ])
}
