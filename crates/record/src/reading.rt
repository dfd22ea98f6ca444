// The reader that hands out the parts of a record.
ghost use Rattle.std.specs.Prelude.{◌≡◌, ⊤};
ghost use Rattle.std.specs.Iterator.{MakesProgress};
ghost use Rattle.record.specs.Parts.{left, pieces_in, parts_most, HandsOut};

use crate::part::{Part, Reader, Stage};
use kind::bytes::{byte_at, cut};
use kind::kind::Kind;
use kind::written::WrittenKind;

impl<'a> Reader<'a> {
    // The parts behind the first byte, with elements as the kind writes them.
    pub(crate) fn parts_of<K: WrittenKind>(bytes: &'a [u8]) -> Reader<'a>
        ensures { left result ≡ pieces_in K.WrittenKind.writing.width bytes.now }
    {
        let width = K::width();
        let (_, rest) = cut(bytes, 1);
        Reader {
            rest,
            claim_size: 2 * width,
            round_size: 4 * width + 4,
            stage: Stage::Claim(byte_at(bytes, 0)),
        }
    }
}

impl<'a> Iterator for Reader<'a> {
    type Item = Part<'a>;

    ghost next_gives = { HandsOut };

    ghost remaining = { parts_most };

    // The next part, or None when none is left.
    fn next(&mut self) -> Option<Part<'a>>
        ensures parts { HandsOut self.old result self.new }
        ensures goes { MakesProgress (λ _. ⊤) parts_most self.old result self.new }
    {
        match self.stage {
            Stage::Claim(k) => {
                let (claim, rest) = cut(self.rest, self.claim_size);
                self.rest = rest;
                self.stage = Stage::Rounds(k);
                Some(Part::Claim(claim))
            }
            Stage::Rounds(k) => {
                if k == 0 {
                    let (last, _) = cut(self.rest, 8);
                    self.stage = Stage::Done;
                    Some(Part::LastPair(last))
                } else {
                    let (round, rest) = cut(self.rest, self.round_size);
                    self.rest = rest;
                    self.stage = Stage::Rounds(k - 1);
                    Some(Part::Round(round))
                }
            }
            Stage::Done => None,
        }
    }
}
