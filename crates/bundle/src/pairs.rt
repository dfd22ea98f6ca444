// The directory of a bundle: its pairs, and the check of them all.
ghost use Rattle.std.specs.Prelude.{◌≡◌, ◌+◌, [], ◌∷◌, MatchOption, ⊤};
ghost use Rattle.std.specs.Iterator.{MakesProgress};
ghost use Rattle.bundle.specs.Layout.{count_in, pair_in, all_pairs, to_come, whole_refusal, all_pairs_refusal, directory_refusal, pairs_most, GivesPair};

use crate::fault::BundleFault;
use kind::bytes::{byte_at, cut, number_in};
use kind::fault::require;

// Where a record lies in the file.
#[derive(Clone, Copy)]
pub(crate) struct Extent {
    pub(crate) offset: u32,
    pub(crate) size: u32,
}

// The pairs from the one of the index `index` on; `rest` begins with it. Bytes and a count, and no slice of pairs: the bytes are not
// copied.
#[derive(Drop)]
pub(crate) struct Pairs<'a> {
    pub(crate) rest: &'a [u8],
    pub(crate) count: usize,
    pub(crate) index: usize,
}

// How many pairs the directory has.
fn count(file: &[u8]) -> u16
    ensures { result ≡ count_in file.now }
{
    u16::from_be_bytes([byte_at(file, 0), byte_at(file, 1)])
}

// The pair that the first eight bytes write.
fn pair(bytes: &[u8]) -> Extent
    ensures { result ≡ pair_in bytes.now }
{
    let (_, size) = cut(bytes, 4);
    Extent {
        offset: number_in(bytes),
        size: number_in(size),
    }
}

impl<'a> Pairs<'a> {
    // All pairs of a bundle.
    pub(crate) fn all(file: &'a [u8]) -> Pairs<'a>
        ensures pairs { to_come result ≡ all_pairs file.now }
        ensures none { result.index ≡ 0 }
    {
        let (_, rest) = cut(file, 2);
        Pairs {
            rest,
            count: count(file) as usize,
            index: 0,
        }
    }
}

impl Iterator for Pairs<'_> {
    type Item = Extent;

    ghost next_gives = { GivesPair };

    ghost remaining = { pairs_most };

    // The next pair, or None when none is left.
    fn next(&mut self) -> Option<Extent>
        ensures pairs { MatchOption result ((to_come self.old ≡ []) × (to_come self.new ≡ [])) (λ p. to_come self.old ≡ p ∷ to_come self.new) }
        ensures counted { MatchOption result (self.new.index ≡ self.old.index) (λ _. self.new.index ≡ self.old.index + 1) }
        ensures goes { MakesProgress (λ _. ⊤) pairs_most self.old result self.new }
    {
        if self.index >= self.count {
            return None;
        }
        let first = pair(self.rest);
        let (_, rest) = cut(self.rest, 8);
        self.rest = rest;
        self.index += 1;
        Some(first)
    }
}

// Refuses a directory that is cut short.
fn check_whole(file: &[u8]) -> Result<(), BundleFault>
    ensures { result ≡ whole_refusal file.now }
{
    require(
        2 + 8 * count(file) as usize <= file.len(),
        BundleFault::Directory(0),
    )
}

// Refuses the first pair that breaks its rule.
fn check_pairs(file: &[u8]) -> Result<(), BundleFault>
    ensures { result ≡ all_pairs_refusal file.now }
{
    let mut pairs = Pairs::all(file);
    let mut from = 2 + 8 * count(file) as usize;
    loop {
        let index = pairs.index;
        let Some(next) = pairs.next() else {
            return Ok(());
        };
        let end = next.offset as usize + next.size as usize;
        require(
            from <= next.offset as usize && end <= file.len(),
            BundleFault::Directory(index),
        )?;
        from = end;
    }
}

// Checks the whole directory: that it is all there, then each pair in order.
pub(crate) fn check(file: &[u8]) -> Result<(), BundleFault>
    ensures { result ≡ directory_refusal file.now }
{
    check_whole(file)?;
    check_pairs(file)
}
