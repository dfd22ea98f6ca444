// Reading a record whole: part by part, the commitments folded on the way.
ghost use Rattle.std.specs.Prelude.{◌≡◌, ◌+◌, ◌<◌, ◌≤◌, length, IfOk, Ok};
ghost use Rattle.kind.specs.Faults.{and_then};
ghost use Rattle.method.specs.Tables.{challenges};
ghost use Rattle.record.specs.Contents.{shape_in};
ghost use Rattle.record.specs.Fields.{pair_in, round_in, last_in};
ghost use Rattle.record.specs.Folded.{seen, seen_in, reckoned_in};
ghost use Rattle.record.specs.Noting.{taken_in, gathered, nothing, round_only, size_of, with_claim, with_round, with_last};
ghost use Rattle.record.specs.Parts.{piece_of, pieces_in, rounds_in};

use crate::fault::RecordFault;
use crate::fields::{read_last, read_pair, read_round};
use crate::noted::Noted;
use crate::part::{Part, Reader};
use kind::bytes::byte_at;
use kind::fault::require;
use kind::kind::Kind;
use kind::pair::Pair;
use kind::written::WrittenKind;
use method::commitments::fold_commitments;
use method::table::ChallengeTable;

// 10 if empty, 3 if there are more than eight rounds, 10 if the length does not fit them.
fn check_shape<K: WrittenKind>(bytes: &[u8]) -> Result<u8, RecordFault>
    ensures { result ≡ shape_in K.WrittenKind.writing.width bytes.now }
{
    let width = K::width();
    require(!bytes.is_empty(), RecordFault::Length(0))?;
    let k = byte_at(bytes, 0);
    require(k <= 8, RecordFault::TooManyRounds)?;
    let length = 9 + 2 * width + k as usize * (4 * width + 4);
    require(bytes.len() == length, RecordFault::Length(bytes.len()))?;
    Ok(k)
}

fn note_claim<K: WrittenKind>(
    noted: Noted<K>,
    bytes: &[u8],
    place: usize,
) -> Result<Noted<K>, RecordFault>
    requires { place ≤ 60000 }
    ensures noted { seen_in result ≡ and_then (pair_in K.WrittenKind.writing K.Kind.meaning.order place bytes.now) (λ z. Ok (with_claim z (seen noted))) }
{
    let z = read_pair::<K>(bytes, place)?;
    Ok(Noted { z, ..noted })
}

fn note_round<K: WrittenKind>(
    noted: Noted<K>,
    bytes: &[u8],
    place: usize,
) -> Result<Noted<K>, RecordFault>
    requires place { place ≤ 60000 }
    requires room { length (challenges noted.table) < 8 }
    ensures noted { seen_in result ≡ and_then (round_in K.WrittenKind.writing K.Kind.meaning.order place bytes.now) (λ x. Ok (with_round K.Kind.meaning x (seen noted))) }
{
    let round = read_round::<K>(bytes, place)?;
    let table = noted.table.with(round.challenge)?;
    let z = fold_commitments(round.lower, noted.z, round.upper, round.challenge);
    Ok(Noted { z, table, ..noted })
}

fn note_last<K: WrittenKind>(
    noted: Noted<K>,
    bytes: &[u8],
    place: usize,
) -> Result<Noted<K>, RecordFault>
    requires { place ≤ 60000 }
    ensures noted { seen_in result ≡ and_then (last_in K.Kind.meaning.order place bytes.now) (λ p. Ok (with_last p (seen noted))) }
{
    let (a, b) = read_last::<K>(bytes, place)?;
    Ok(Noted { a, b, ..noted })
}

// One part more: the claim is noted, a round folds the commitments, the last pair is noted.
fn note_part<K: WrittenKind>(
    noted: Noted<K>,
    part: Part,
    place: usize,
) -> Result<Noted<K>, RecordFault>
    requires place { place ≤ 60000 }
    requires room { length (challenges noted.table) + round_only (piece_of part) ≤ 8 }
    ensures noted { seen_in result ≡ taken_in K.Kind.meaning K.WrittenKind.writing place (seen noted) (piece_of part.entry) }
    ensures counted { IfOk result (λ n. length (challenges n.table) ≡ length (challenges noted.table) + round_only (piece_of part.entry)) }
{
    match part {
        Part::Claim(bytes) => note_claim::<K>(noted, bytes, place),
        Part::Round(bytes) => note_round::<K>(noted, bytes, place),
        Part::LastPair(bytes) => note_last::<K>(noted, bytes, place),
    }
}

fn part_size<K: WrittenKind>(part: Part) -> usize
    ensures { result ≡ size_of K.WrittenKind.writing.width (piece_of part.entry) }
{
    let width = K::width();
    match part {
        Part::Claim(_) => 2 * width,
        Part::Round(_) => 4 * width + 4,
        Part::LastPair(_) => 8,
    }
}

// All parts of a record of at most eight rounds.
fn gather<K: WrittenKind>(bytes: &[u8]) -> Result<Noted<K>, RecordFault>
    requires { rounds_in bytes.now ≤ 8 }
    ensures { seen_in result ≡ gathered K.Kind.meaning K.WrittenKind.writing 1 (nothing K.Kind.meaning) (pieces_in K.WrittenKind.writing.width bytes.now) }
{
    let mut reader = Reader::parts_of::<K>(bytes);
    let mut noted = Noted {
        z: Pair::<K>::unit(),
        table: ChallengeTable::empty(),
        a: 0,
        b: 0,
    };
    let mut place: usize = 1;
    loop {
        let Some(part) = reader.next() else {
            return Ok(noted);
        };
        noted = note_part::<K>(noted, part, place)?;
        place += part_size::<K>(part);
    }
}

// What a whole record comes to, or its first fault.
pub(crate) fn read_whole<K: WrittenKind>(bytes: &[u8]) -> Result<Noted<K>, RecordFault>
    ensures { seen_in result ≡ reckoned_in K.Kind.meaning K.WrittenKind.writing bytes.now }
{
    check_shape::<K>(bytes)?;
    gather::<K>(bytes)
}
