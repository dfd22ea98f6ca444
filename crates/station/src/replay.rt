// Replay: any list of calls on a new station, with every answer and the page after it.
ghost use Rattle.std.specs.Prelude.{◌≡◌, ◌≤◌, min, length, take, drop, replicate};
ghost use Rattle.kind.specs.Kinds.{unit_entry};
ghost use Rattle.ledger.specs.Ledger.{fresh, step, last_pair};
ghost use Rattle.ledger.specs.Promise.{Promise};
ghost use Rattle.ledger.specs.declared.parts.Sort.TheVariants as sort;
ghost use Rattle.station.specs.Calls.{call_of, calls_of, after_verdict, work_after};
ghost use Rattle.station.specs.View.{ledger_of, last_of};

use crate::call::{Call, LastPair};
use crate::state::Station;
use crate::tokens::{Closing, Heard, Held, Waiting};
use kind::entries::clear_entries;
use kind::kind::Kind;
use ledger::fault::StationFault;
use ledger::parts::{Answer, Line, Message, Numbers, Sort};
use method::method::Method;

// A last pair, lent as many elements and numbers of the work lists as it asks for.
fn perform_last<K: Kind, M: Method>(
    station: &mut Station<K, M>,
    numbers: Numbers,
    p: &LastPair<K>,
    work_elements: &mut [K::Entry],
    work_numbers: &mut [u32],
) -> Answer
    ensures answer { result ≡ (step K.Kind.meaning (ledger_of station.old) (last_pair sort.Closing numbers (last_of p.now.bases.g.now p.now.bases.h.now p.now.bases.key p.now.a p.now.b (min p.now.elements (length work_elements.old)) (min p.now.numbers (length work_numbers.old))))).answer }
    ensures ledger { ledger_of station.new ≡ (step K.Kind.meaning (ledger_of station.old) (last_pair sort.Closing numbers (last_of p.now.bases.g.now p.now.bases.h.now p.now.bases.key p.now.a p.now.b (min p.now.elements (length work_elements.old)) (min p.now.numbers (length work_numbers.old))))).ledger }
    ensures kept { station.new.method ≡ station.old.method }
    ensures elements { work_elements.new ≡ after_verdict result (unit_entry K.Kind.meaning) work_elements.old }
    ensures numbers { work_numbers.new ≡ after_verdict result 0 work_numbers.old }
{
    let elements = p.elements.min(work_elements.len());
    let scalars = p.numbers.min(work_numbers.len());
    match station.last(
        Closing { numbers },
        p.a,
        p.b,
        &p.bases,
        &mut work_elements[..elements],
        &mut work_numbers[..scalars],
    ) {
        Ok(passes) => {
            clear_entries::<K>(work_elements);
            work_numbers.fill(0);
            Answer::Verdict(passes)
        }
        Err(back) => back.into(),
    }
}

// One call, as the ledger's step. A verdict leaves both work lists cleared; any other answer alters none. A token of a sort that the call does not take is refused by 1, as any that is not current.
pub fn perform<K: Kind, M: Method>(
    station: &mut Station<K, M>,
    call: &Call<K>,
    elements: &mut [K::Entry],
    numbers: &mut [u32],
) -> Answer
    ensures answer { result ≡ (step K.Kind.meaning (ledger_of station.old) (call_of (length elements.old) (length numbers.old) call.now)).answer }
    ensures ledger { ledger_of station.new ≡ (step K.Kind.meaning (ledger_of station.old) (call_of (length elements.old) (length numbers.old) call.now)).ledger }
    ensures kept { station.new.method ≡ station.old.method }
    ensures elements { elements.new ≡ work_after call.now result (unit_entry K.Kind.meaning) elements.old }
    ensures numbers { numbers.new ≡ work_after call.now result 0 numbers.old }
{
    match call {
        Call::Open(k, z1, z2) => station
            .open(*k, *z1, *z2)
            .map_or_else(Answer::from, Answer::from),
        // `*m` is refused: a struct of a type parameter's values is not copied whole from behind a reference.
        Call::Message(Sort::Waiting, t, m) => station
            .message(Waiting { numbers: *t }, Message { ..*m })
            .map_or_else(Answer::from, Answer::from),
        Call::Draw(Sort::Heard, t, c) => station
            .draw(Heard { numbers: *t }, *c)
            .map_or_else(Answer::from, Answer::from),
        Call::Last(Sort::Closing, t, p) => perform_last(station, *t, p, elements, numbers),
        Call::Message(..) | Call::Draw(..) | Call::Last(..) => {
            Answer::Refused(StationFault::NotCurrent)
        }
        Call::Withdraw(sort, t) => station
            .withdraw(Held::new(*sort, *t))
            .map_or_else(Answer::from, |()| Answer::Withdrawn),
        Call::Turn => station.turn().map_or_else(Answer::from, Answer::Turned),
    }
}

// Performs the calls on a new station, as many as there are lines for: writes the answer to each with the page after it, clears
// the work lists, and hands the method back.
pub fn replay<K: Kind, M: Method>(
    number: u16,
    method: M,
    calls: &[Call<K>],
    elements: &mut [K::Entry],
    numbers: &mut [u32],
    out: &mut [Line],
) -> M
    ensures promise { Promise K.Kind.meaning (fresh number) (take (length out.old) (calls_of (length elements.old) (length numbers.old) calls.now)) (take (length calls.now) out.new) }
    ensures rest { drop (length calls.now) out.new ≡ drop (length calls.now) out.old }
    ensures elements { elements.new ≡ replicate (length elements.old) (unit_entry K.Kind.meaning) }
    ensures numbers { numbers.new ≡ replicate (length numbers.old) 0 }
    ensures method { result ≡ method }
{
    let mut station = Station::new(number, method);
    let n = calls.len().min(out.len());
    // Lines are written by index: after `iter_mut` a proof knows how many there are, and not what they say.
    for (i, call) in calls[..n].iter().enumerate() {
        let answer = perform(&mut station, call, elements, numbers);
        out[i] = Line {
            answer,
            page: station.page(),
        };
    }
    clear_entries::<K>(elements);
    numbers.fill(0);
    station.close()
}

// Two replays of the same calls by two methods: they write the same lines.
pub fn replay_both<K: Kind, M: Method, N: Method>(
    number: u16,
    first: M,
    second: N,
    calls: &[Call<K>],
    elements: &mut [K::Entry],
    numbers: &mut [u32],
    out: &mut [Line],
    again: &mut [Line],
) -> (M, N)
    ensures first { Promise K.Kind.meaning (fresh number) (take (length out.old) (calls_of (length elements.old) (length numbers.old) calls.now)) (take (length calls.now) out.new) }
    ensures second { Promise K.Kind.meaning (fresh number) (take (length again.old) (calls_of (length elements.old) (length numbers.old) calls.now)) (take (length calls.now) again.new) }
    ensures alike { length again.old ≡ length out.old → take (length calls.now) again.new ≡ take (length calls.now) out.new }
    ensures rest { drop (length calls.now) out.new ≡ drop (length calls.now) out.old }
    ensures rest_again { drop (length calls.now) again.new ≡ drop (length calls.now) again.old }
    ensures elements { elements.new ≡ replicate (length elements.old) (unit_entry K.Kind.meaning) }
    ensures numbers { numbers.new ≡ replicate (length numbers.old) 0 }
    ensures methods { result ≡ (first, second) }
{
    let first = replay(number, first, calls, elements, numbers, out);
    let second = replay(number, second, calls, elements, numbers, again);
    (first, second)
}
