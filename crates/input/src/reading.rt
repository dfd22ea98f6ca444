// A program's whole input.
ghost use Rattle.std.specs.Prelude.{◌≡◌, ◌≤◌, vec_items, vec_len, IfOk, IfSome};
ghost use Rattle.std.specs.Option.{option_map};
ghost use Rattle.input.specs.Limit.{up_to_limit};

use std::alloc::Global;
use std::io;
use std::io::Read;

// All bytes that a reader has left, or None where there are more than the limit. The programs alone call this: it allocates.
pub fn read_all<R: Read + Drop>(heap: Global, from: R, limit: u32) -> io::Result<Option<Vec<u8>>>
    ensures within { IfOk result (λ o. IfSome o (λ v. vec_len v ≤ limit)) }
    ensures bytes { IfOk result (λ o. IfSome (R.remaining from) (λ bs. option_map vec_items o ≡ up_to_limit limit bs)) }
{
    let mut all = Vec::new(heap);
    from.take(u64::from(limit) + 1).read_to_end(&mut all)?;
    Ok((all.len() <= limit as usize).then_some(all))
}

#[cfg(test)]
mod tests {
    use super::*;

    // At the limit all bytes are given, and one byte more gives none.
    #[test]
    fn reads_up_to_the_limit(rt: HostRuntime) -> io::Result<()> {
        let text: &[u8] = b"station";
        let Some(all) = read_all(rt.alloc(), text, 7)? else {
            panic!(rt; "seven bytes are no more than seven");
        };
        assert_eq!(rt; all.as_slice(), text);
        assert!(rt; read_all(rt.alloc(), text, 6)?.is_none());
        Ok(())
    }
}
