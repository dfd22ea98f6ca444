// The rounds of a record, and its last pair.
ghost use Rattle.std.specs.Prelude.{◌≡◌, ◌+◌, ◌*◌, ◌^◌, ◌≤◌, ◌++◌, length};
ghost use Rattle.kind.specs.Bytes.{bytes_of};
ghost use Rattle.kind.specs.Kinds.{AllElements};
ghost use Rattle.ledger.specs.Ledger.{lower, upper};
ghost use Rattle.ledger.specs.Rules.{folded, message_of};
ghost use Rattle.record.specs.Fields.{round_of};
ghost use Rattle.writer.specs.Laying.{Laid};
ghost use Rattle.writer.specs.Records.{round_written, rest_of};
ghost use Rattle.writer.specs.Rows.{lists_in};

use crate::laying::{put_number, put_round};
use crate::rows::{fold_rows, message_of_rows};
use kind::checked::Checked;
use kind::kind::Kind;
use kind::written::WrittenKind;

// One round: writes the message of the lists of 2m entries and the challenge c, and folds the lists by c.
fn play_round<K: WrittenKind>(
    key: K,
    c: u32,
    n: usize,
    m: usize,
    elements: &mut [K::Entry],
    numbers: &mut [u32],
    at: usize,
    out: &mut [u8],
) -> usize
    requires checked { AllElements K.Kind.meaning elements.old }
    requires elements { length elements.old ≡ n + n }
    requires numbers { length numbers.old ≡ n + n }
    requires rows { m + m ≤ n }
    requires room { at + (4 * K.WrittenKind.writing.width + 4) ≤ length out.old }
    ensures checked { AllElements K.Kind.meaning elements.new }
    ensures folded { lists_in K.Kind.meaning n m elements.new numbers.new ≡ folded K.Kind.meaning c (lists_in K.Kind.meaning n (m + m) elements.old numbers.old) }
    ensures laid { Laid at (round_written K.WrittenKind.writing (round_of (lower (message_of K.Kind.meaning key (lists_in K.Kind.meaning n (m + m) elements.old numbers.old))) (upper (message_of K.Kind.meaning key (lists_in K.Kind.meaning n (m + m) elements.old numbers.old))) c)) out.old out.new result }
{
    let list = Checked::<K> { entries: elements };
    let message = message_of_rows(key, n, m, &list, numbers);
    let past = put_round(message, c, at, out);
    fold_rows::<K>(c, n, m, elements, numbers);
    past
}

// a, then b.
pub(crate) fn put_last(a: u32, b: u32, at: usize, out: &mut [u8]) -> usize
    requires { at + 8 ≤ length out.old }
    ensures { Laid at (bytes_of a ++ bytes_of b) out.old out.new result }
{
    let past = put_number(a, at, out);
    put_number(b, past, out)
}

// A round for each challenge, and the two scalars that are left.
pub(crate) fn put_rounds<K: WrittenKind>(
    key: K,
    cs: &[u32],
    n: usize,
    elements: &mut [K::Entry],
    numbers: &mut [u32],
    start: usize,
    out: &mut [u8],
) -> usize
    requires checked { AllElements K.Kind.meaning elements.old }
    requires elements { length elements.old ≡ n + n }
    requires numbers { length numbers.old ≡ n + n }
    requires size { n ≡ 2 ^ length cs.now }
    requires room { start + (length cs.now * (4 * K.WrittenKind.writing.width + 4) + 8) ≤ length out.old }
    ensures { Laid start (rest_of K.Kind.meaning K.WrittenKind.writing key cs.now (lists_in K.Kind.meaning n n elements.old numbers.old)) out.old out.new result }
{
    let mut m = n;
    let mut at = start;
    for c in cs {
        m /= 2;
        at = play_round::<K>(key, *c, n, m, elements, numbers, at, out);
    }
    put_last(numbers[0], numbers[n], at, out)
}
