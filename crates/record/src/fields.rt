// The fields of a record, read at a place. A place is the number of the first byte, and goes with the bytes from there on; the two
// are no struct, since the definitions say what stands in bytes and tell of the place in faults alone.
ghost use Rattle.std.specs.Prelude.{◌≡◌, ◌≤◌};
ghost use Rattle.record.specs.Fields.{scalar_in, challenge_in, last_in, element_in, pair_in, round_in};

use crate::fault::RecordFault;
use crate::round::Round;
use kind::bytes::{cut, number_in};
use kind::fault::require;
use kind::kind::Kind;
use kind::pair::Pair;
use kind::written::WrittenKind;

fn read_scalar<K: Kind>(bytes: &[u8], place: usize) -> Result<u32, RecordFault>
    ensures { result ≡ scalar_in K.Kind.meaning.order place bytes.now }
{
    let n = number_in(bytes);
    require(n < K::order(), RecordFault::NotAScalar(place))?;
    Ok(n)
}

fn read_challenge<K: Kind>(bytes: &[u8], place: usize) -> Result<u32, RecordFault>
    ensures { result ≡ challenge_in K.Kind.meaning.order place bytes.now }
{
    let n = number_in(bytes);
    require(0 < n && n < K::order(), RecordFault::NotAChallenge(place))?;
    Ok(n)
}

fn read_element<K: WrittenKind>(bytes: &[u8], place: usize) -> Result<K, RecordFault>
    ensures { result ≡ element_in K.WrittenKind.writing K.Kind.meaning.order place bytes.now }
{
    let (element, _) = cut(bytes, K::width());
    K::decode(element).map_err(|fault| RecordFault::Kind(fault, place))
}

// Two elements, one behind the other.
pub(crate) fn read_pair<K: WrittenKind>(bytes: &[u8], place: usize) -> Result<Pair<K>, RecordFault>
    requires { place ≤ 65536 }
    ensures { result ≡ pair_in K.WrittenKind.writing K.Kind.meaning.order place bytes.now }
{
    let w = K::width();
    let (_, second) = cut(bytes, w);
    let a = read_element::<K>(bytes, place)?;
    let b = read_element::<K>(second, place + w)?;
    Ok(Pair { a, b })
}

// L1, L2, R1, R2 and the challenge.
pub(crate) fn read_round<K: WrittenKind>(
    bytes: &[u8],
    place: usize,
) -> Result<Round<K>, RecordFault>
    requires { place ≤ 60000 }
    ensures { result ≡ round_in K.WrittenKind.writing K.Kind.meaning.order place bytes.now }
{
    let w = K::width();
    let (_, high) = cut(bytes, 2 * w);
    let (_, word) = cut(bytes, 4 * w);
    let lower = read_pair::<K>(bytes, place)?;
    let upper = read_pair::<K>(high, place + 2 * w)?;
    let challenge = read_challenge::<K>(word, place + 4 * w)?;
    Ok(Round {
        lower,
        upper,
        challenge,
    })
}

// a, then b.
pub(crate) fn read_last<K: Kind>(bytes: &[u8], place: usize) -> Result<(u32, u32), RecordFault>
    requires { place ≤ 65536 }
    ensures { result ≡ last_in K.Kind.meaning.order place bytes.now }
{
    let (_, second) = cut(bytes, 4);
    let a = read_scalar::<K>(bytes, place)?;
    let b = read_scalar::<K>(second, place + 4)?;
    Ok((a, b))
}
