// The records of a bundle, handed out one by one.
ghost use Rattle.std.specs.Prelude.{◌≡◌, ◌+◌, [], ◌∷◌, MatchOption, ⊤};
ghost use Rattle.std.specs.Iterator.{MakesProgress};
ghost use Rattle.bundle.specs.Bodies.{left, handed_out, opened, opened_of, records_most, HandsOut};

use crate::fault::BundleFault;
use crate::pairs::{Pairs, check};
use kind::bytes::cut;

// The records that the pairs yet to come tell of.
#[derive(Drop)]
pub struct Records<'a> {
    file: &'a [u8],
    pairs: Pairs<'a>,
}

impl<'a> Records<'a> {
    // The records of a bundle whose whole directory keeps its rules; else the fault.
    pub fn open(file: &'a [u8]) -> Result<Records<'a>, BundleFault>
        ensures { opened result ≡ opened_of file.now }
    {
        check(file)?;
        let pairs = Pairs::all(file);
        Ok(Records { file, pairs })
    }

    // How many records were handed out.
    pub fn index(&self) -> usize
        ensures { result ≡ handed_out self.now }
    {
        self.pairs.index
    }
}

impl<'a> Iterator for Records<'a> {
    type Item = &'a [u8];

    ghost next_gives = { HandsOut };

    ghost remaining = { records_most };

    // The bytes of the next record, or None when none is left.
    fn next(&mut self) -> Option<&'a [u8]>
        ensures bodies { MatchOption result ((left self.old ≡ []) × (left self.new ≡ [])) (λ b. left self.old ≡ b.now ∷ left self.new) }
        ensures counted { MatchOption result (handed_out self.new ≡ handed_out self.old) (λ _. handed_out self.new ≡ handed_out self.old + 1) }
        ensures goes { MakesProgress (λ _. ⊤) records_most self.old result self.new }
    {
        let pair = self.pairs.next()?;
        let (_, after) = cut(self.file, pair.offset as usize);
        let (body, _) = cut(after, pair.size as usize);
        Some(body)
    }
}
