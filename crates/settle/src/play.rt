// A writer's case, played on a station.
ghost use Rattle.std.specs.Prelude.{◌≡◌, ◌/◌, ◌<◌, true, ◌++◌, map, length, drop, replicate, Ok, slice_index_or};
ghost use Rattle.kind.specs.Kinds.{unit_entry};
ghost use Rattle.ledger.specs.Ledger.{step, final as final_of, opening, message as ledger_message, draw, last_pair, one_opened, one_judged};
ghost use Rattle.ledger.specs.Rules.{folded, claim_of, message_of, Follows};
ghost use Rattle.ledger.specs.Script.{Playable};
ghost use Rattle.ledger.specs.declared.parts.Answer.TheVariants.{Verdict, Withdrawn};
ghost use Rattle.ledger.specs.declared.parts.Sort.TheVariants.{Waiting, Heard, Closing};
ghost use Rattle.station.specs.Calls.{after_verdict};
ghost use Rattle.station.specs.declared.call.Call.TheVariants as call;
ghost use Rattle.station.specs.View.{ledger_of, last_of};
ghost use Rattle.writer.specs.Answers.{lists_of};
ghost use Rattle.writer.specs.Ready.{Ready};
ghost use Rattle.writer.specs.Refusals.{claim_refused, fold_refused};
ghost use Rattle.settle.specs.Cases.{passed_if_opened, if_judged, work_lists_refused, play_refused, opening_answer, play_answer, calls_from, calls_after, last_answer, Admitted};

use kind::entries::clear_entries;
use kind::kind::Kind;
use ledger::parts::{Answer, Message, Numbers, Sort};
use method::bases::Bases;
use method::method::Method;
use station::call::{Call, LastPair};
use station::replay::perform;
use station::state::Station;
use writer::admit::{check_challenges, check_content, check_room, check_shape};
use writer::calls::{claim, fold, message};
use writer::fault::WriterFault;

// 8: the four work lists.
fn check_rooms(
    n: usize,
    fold_g: usize,
    fold_h: usize,
    fold_l: usize,
    fold_r: usize,
) -> Result<(), WriterFault>
    ensures { result ≡ work_lists_refused n fold_g fold_h fold_l fold_r }
{
    check_room(n, fold_g)?;
    check_room(n, fold_h)?;
    check_room(n, fold_l)?;
    check_room(n, fold_r)
}

fn admit_play<K: Kind>(
    g: &[K::Entry],
    h: &[K::Entry],
    l: &[u32],
    r: &[u32],
    cs: &[u32],
    fold_g: usize,
    fold_h: usize,
    fold_l: usize,
    fold_r: usize,
) -> Result<(), WriterFault>
    ensures { result ≡ play_refused K.Kind.meaning g.now h.now l.now r.now cs.now fold_g fold_h fold_l fold_r }
{
    check_shape(g.len(), h.len(), l.len(), r.len(), cs.len())?;
    check_rooms(g.len(), fold_g, fold_h, fold_l, fold_r)?;
    check_content::<K>(g, h, l, r)?;
    check_challenges::<K>(cs)
}

// Calls as data that borrow nothing.
fn opening_call<'a, K: Kind>(k: u8, z1: K, z2: K) -> Call<'a, K>
    ensures { result ≡ call.Open k z1 z2 }
{
    Call::Open(k, z1, z2)
}

fn message_call<'a, K: Kind>(token: Numbers, m: Message<K>) -> Call<'a, K>
    ensures { result ≡ call.Message Waiting token m }
{
    Call::Message(Sort::Waiting, token, m)
}

fn draw_call<'a, K: Kind>(token: Numbers, c: u32) -> Call<'a, K>
    ensures { result ≡ call.Draw Heard token c }
{
    Call::Draw(Sort::Heard, token, c)
}

// The claim opens the case.
fn open_case<K: Kind, M: Method>(
    station: &mut Station<K, M>,
    bases: &Bases<K>,
    l: &[u32],
    r: &[u32],
    k: u8,
    fold_g: &mut [K::Entry],
    fold_l: &mut [u32],
) -> Result<Answer, WriterFault>
    requires { claim_refused K.Kind.meaning bases.now.g.now bases.now.h.now l.now r.now ≡ Ok tt }
    ensures answer { result ≡ Ok (step K.Kind.meaning (ledger_of station.old) (opening k (claim_of K.Kind.meaning bases.now.key (lists_of K.Kind.meaning bases.now.g.now bases.now.h.now l.now r.now)))).answer }
    ensures ledger { ledger_of station.new ≡ (step K.Kind.meaning (ledger_of station.old) (opening k (claim_of K.Kind.meaning bases.now.key (lists_of K.Kind.meaning bases.now.g.now bases.now.h.now l.now r.now)))).ledger }
    ensures kept { station.new.method ≡ station.old.method }
    ensures g { fold_g.new ≡ fold_g.old }
    ensures l { fold_l.new ≡ fold_l.old }
{
    let (z1, z2) = claim(bases, l, r)?;
    let call = opening_call(k, z1, z2);
    Ok(perform(station, &call, fold_g, fold_l))
}

// One round: the message of the lists, the draw of c, and the lists folded by c.
fn play_round<K: Kind, M: Method>(
    station: &mut Station<K, M>,
    key: K,
    c: u32,
    token: Numbers,
    g: &mut [K::Entry],
    h: &mut [K::Entry],
    l: &mut [u32],
    r: &mut [u32],
) -> Result<(), WriterFault>
    requires { fold_refused K.Kind.meaning g.old h.old l.old r.old c ≡ Ok tt }
    ensures answer { result ≡ Ok tt }
    ensures ledger { ledger_of station.new ≡ (step K.Kind.meaning (step K.Kind.meaning (ledger_of station.old) (ledger_message Waiting token (message_of K.Kind.meaning key (lists_of K.Kind.meaning g.old h.old l.old r.old)))).ledger (draw Heard token c)).ledger }
    ensures kept { station.new.method ≡ station.old.method }
    ensures g { g.new ≡ map K.Kind.meaning.entry (folded K.Kind.meaning c (lists_of K.Kind.meaning g.old h.old l.old r.old)).gs ++ replicate (length g.old / 2) (unit_entry K.Kind.meaning) }
    ensures h { h.new ≡ map K.Kind.meaning.entry (folded K.Kind.meaning c (lists_of K.Kind.meaning g.old h.old l.old r.old)).hs ++ replicate (length h.old / 2) (unit_entry K.Kind.meaning) }
    ensures l { l.new ≡ (folded K.Kind.meaning c (lists_of K.Kind.meaning g.old h.old l.old r.old)).l ++ replicate (length l.old / 2) 0 }
    ensures r { r.new ≡ (folded K.Kind.meaning c (lists_of K.Kind.meaning g.old h.old l.old r.old)).r ++ replicate (length r.old / 2) 0 }
{
    let bases = Bases { g, h, key };
    let sent = message(&bases, l, r)?;
    let telling = message_call(token, sent);
    perform(station, &telling, g, l);
    let drawing = draw_call(token, c);
    perform(station, &drawing, g, l);
    fold::<K>(g, h, l, r, c)
}

// The two scalars that are left are the last pair. The method works in two of the lists, and a verdict leaves these cleared.
fn close_case<'a, K: Kind, M: Method>(
    station: &mut Station<K, M>,
    bases: &Bases<'a, K>,
    token: Numbers,
    fold_g: &mut [K::Entry],
    fold_h: &mut [K::Entry],
    fold_l: &mut [u32],
    fold_r: &mut [u32],
) -> Answer
    requires g { length fold_g.old ≡ length bases.now.g.now }
    requires l { length fold_l.old ≡ length bases.now.g.now }
    requires some_l { 0 < length fold_l.old }
    requires some_r { 0 < length fold_r.old }
    ensures answer { result ≡ (step K.Kind.meaning (ledger_of station.old) (last_pair Closing token (last_of bases.now.g.now bases.now.h.now bases.now.key (slice_index_or fold_l.old 0 0) (slice_index_or fold_r.old 0 0) (length bases.now.g.now) (length bases.now.g.now)))).answer }
    ensures ledger { ledger_of station.new ≡ (step K.Kind.meaning (ledger_of station.old) (last_pair Closing token (last_of bases.now.g.now bases.now.h.now bases.now.key (slice_index_or fold_l.old 0 0) (slice_index_or fold_r.old 0 0) (length bases.now.g.now) (length bases.now.g.now)))).ledger }
    ensures kept { station.new.method ≡ station.old.method }
    ensures g { fold_g.new ≡ after_verdict result (unit_entry K.Kind.meaning) fold_g.old }
    ensures h { fold_h.new ≡ replicate (length fold_h.old) (unit_entry K.Kind.meaning) }
    ensures l { fold_l.new ≡ after_verdict result 0 fold_l.old }
    ensures r { fold_r.new ≡ replicate (length fold_r.old) 0 }
{
    let n = bases.g.len();
    // `*bases` is refused: a struct of a type parameter's values is not copied whole from behind a reference.
    let left = LastPair {
        bases: Bases { ..*bases },
        a: fold_l[0],
        b: fold_r[0],
        elements: n,
        numbers: n,
    };
    let call = Call::Last(Sort::Closing, token, left);
    let answer = perform(station, &call, fold_g, fold_l);
    clear_entries::<K>(fold_h);
    fold_r.fill(0);
    answer
}

// A round for each challenge, and the last pair. The work lists hold the case's lists, and are as long.
fn play_rounds<K: Kind, M: Method>(
    station: &mut Station<K, M>,
    bases: &Bases<K>,
    cs: &[u32],
    token: Numbers,
    fold_g: &mut [K::Entry],
    fold_h: &mut [K::Entry],
    fold_l: &mut [u32],
    fold_r: &mut [u32],
) -> Result<Answer, WriterFault>
    requires ready { Ready K.Kind.meaning bases.now.g.now bases.now.h.now fold_l.old fold_r.old }
    requires playable { Playable K.Kind.meaning (lists_of K.Kind.meaning bases.now.g.now bases.now.h.now fold_l.old fold_r.old) cs.now }
    requires g { fold_g.old ≡ bases.now.g.now }
    requires h { fold_h.old ≡ bases.now.h.now }
    ensures answer { result ≡ Ok (last_answer K.Kind.meaning (ledger_of station.old) Withdrawn (calls_after K.Kind.meaning token bases.now.g.now bases.now.h.now bases.now.key fold_l.old fold_r.old cs.now)) }
    ensures ledger { ledger_of station.new ≡ final_of K.Kind.meaning (ledger_of station.old) (calls_after K.Kind.meaning token bases.now.g.now bases.now.h.now bases.now.key fold_l.old fold_r.old cs.now) }
    ensures kept { station.new.method ≡ station.old.method }
    ensures g { result ≡ Ok (Verdict true) → fold_g.new ≡ replicate (length fold_g.old) (unit_entry K.Kind.meaning) }
    ensures h { result ≡ Ok (Verdict true) → fold_h.new ≡ replicate (length fold_h.old) (unit_entry K.Kind.meaning) }
    ensures l { result ≡ Ok (Verdict true) → fold_l.new ≡ replicate (length fold_l.old) 0 }
    ensures r { result ≡ Ok (Verdict true) → fold_r.new ≡ replicate (length fold_r.old) 0 }
{
    let mut m = bases.g.len();
    for (i, c) in cs.iter().enumerate() {
        let now = Numbers {
            rounds: i as u8,
            ..token
        };
        play_round(
            station,
            bases.key,
            *c,
            now,
            &mut fold_g[0..m],
            &mut fold_h[0..m],
            &mut fold_l[0..m],
            &mut fold_r[0..m],
        )?;
        m /= 2;
    }
    let end = Numbers {
        rounds: cs.len() as u8,
        ..token
    };
    Ok(close_case(station, bases, end, fold_g, fold_h, fold_l, fold_r))
}

// The case of lists that are not refused, with work lists as long.
fn play_admitted<K: Kind, M: Method>(
    station: &mut Station<K, M>,
    bases: &Bases<K>,
    l: &[u32],
    r: &[u32],
    cs: &[u32],
    fold_g: &mut [K::Entry],
    fold_h: &mut [K::Entry],
    fold_l: &mut [u32],
    fold_r: &mut [u32],
) -> Result<Answer, WriterFault>
    requires { Admitted K.Kind.meaning bases.now.g.now bases.now.h.now l.now r.now cs.now (length fold_g.old) (length fold_h.old) (length fold_l.old) (length fold_r.old) }
    ensures answer { result ≡ Ok (passed_if_opened (opening_answer K.Kind.meaning (ledger_of station.old) bases.now.g.now bases.now.h.now bases.now.key l.now r.now cs.now)) }
    ensures ledger { ledger_of station.new ≡ if_judged result (final_of K.Kind.meaning (ledger_of station.old) (calls_from K.Kind.meaning (ledger_of station.old) bases.now.g.now bases.now.h.now bases.now.key l.now r.now cs.now)) (ledger_of station.old) }
    ensures kept { station.new.method ≡ station.old.method }
    ensures g { fold_g.new ≡ if_judged result (replicate (length fold_g.old) (unit_entry K.Kind.meaning)) fold_g.old }
    ensures h { fold_h.new ≡ if_judged result (replicate (length fold_h.old) (unit_entry K.Kind.meaning)) fold_h.old }
    ensures l { fold_l.new ≡ if_judged result (replicate (length fold_l.old) 0) fold_l.old }
    ensures r { fold_r.new ≡ if_judged result (replicate (length fold_r.old) 0) fold_r.old }
{
    let opened = open_case(station, bases, l, r, cs.len() as u8, fold_g, fold_l)?;
    match opened {
        Answer::Token(_, token) => {
            fold_g.copy_from_slice(bases.g);
            fold_h.copy_from_slice(bases.h);
            fold_l.copy_from_slice(l);
            fold_r.copy_from_slice(r);
            play_rounds(station, bases, cs, token, fold_g, fold_h, fold_l, fold_r)
        }
        _ => Ok(opened),
    }
}

// Plays a whole case on a station by the writer's own calls: the claim opens it; for each challenge the message is sent, the
// challenge is drawn and the lists are folded; the two scalars that are left are the last pair. The four work lists hold the
// folded lists, and the method works in two of them; after a verdict their front is units and zeros.
// Refused by 5, 6, 8, 11, 12 and 13, as the whole-proof call; refused, it alters nothing. Where the station does not open the
// case, its refusal is the answer, and nothing is altered.
pub fn play_case<K: Kind, M: Method>(
    station: &mut Station<K, M>,
    bases: &Bases<K>,
    l: &[u32],
    r: &[u32],
    challenges: &[u32],
    fold_g: &mut [K::Entry],
    fold_h: &mut [K::Entry],
    fold_l: &mut [u32],
    fold_r: &mut [u32],
) -> Result<Answer, WriterFault>
    ensures answer { result ≡ play_answer K.Kind.meaning (ledger_of station.old) bases.now.g.now bases.now.h.now bases.now.key l.now r.now challenges.now (length fold_g.old) (length fold_h.old) (length fold_l.old) (length fold_r.old) }
    ensures ledger { ledger_of station.new ≡ if_judged result (final_of K.Kind.meaning (ledger_of station.old) (calls_from K.Kind.meaning (ledger_of station.old) bases.now.g.now bases.now.h.now bases.now.key l.now r.now challenges.now)) (ledger_of station.old) }
    ensures follows { result ≡ Ok (Verdict true) → Follows K.Kind.meaning (lists_of K.Kind.meaning bases.now.g.now bases.now.h.now l.now r.now) bases.now.key (calls_from K.Kind.meaning (ledger_of station.old) bases.now.g.now bases.now.h.now bases.now.key l.now r.now challenges.now) }
    ensures counted { result ≡ Ok (Verdict true) → (ledger_of station.new).page ≡ one_judged true (one_opened (ledger_of station.old).page) }
    ensures kept { station.new.method ≡ station.old.method }
    ensures g { fold_g.new ≡ if_judged result (replicate (length bases.now.g.now) (unit_entry K.Kind.meaning) ++ drop (length bases.now.g.now) fold_g.old) fold_g.old }
    ensures h { fold_h.new ≡ if_judged result (replicate (length bases.now.g.now) (unit_entry K.Kind.meaning) ++ drop (length bases.now.g.now) fold_h.old) fold_h.old }
    ensures l { fold_l.new ≡ if_judged result (replicate (length bases.now.g.now) 0 ++ drop (length bases.now.g.now) fold_l.old) fold_l.old }
    ensures r { fold_r.new ≡ if_judged result (replicate (length bases.now.g.now) 0 ++ drop (length bases.now.g.now) fold_r.old) fold_r.old }
{
    admit_play::<K>(
        bases.g,
        bases.h,
        l,
        r,
        challenges,
        fold_g.len(),
        fold_h.len(),
        fold_l.len(),
        fold_r.len(),
    )?;
    let n = bases.g.len();
    play_admitted(
        station,
        bases,
        l,
        r,
        challenges,
        &mut fold_g[..n],
        &mut fold_h[..n],
        &mut fold_l[..n],
        &mut fold_r[..n],
    )
}
