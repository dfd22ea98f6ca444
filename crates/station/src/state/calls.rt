// The calls of a station. The contract of each is the ledger's step.
ghost use Rattle.std.specs.Prelude.{◌≡◌, ◌+◌, ◌^◌, ◌<◌, false, [], ◌∷◌, ◌++◌, length, IfErr};
ghost use Rattle.kind.specs.Kinds.{unit_entry};
ghost use Rattle.kind.specs.Pairs.{pair_of};
ghost use Rattle.method.specs.Entries.{outside};
ghost use Rattle.method.specs.Meaning.{cleared};
ghost use Rattle.method.specs.Tables.{challenges};
ghost use Rattle.ledger.specs.Ledger.{fresh, step, case_answer, numbers_at, of_sort, stage_after, sort_after, opening, message as ledger_message, draw as ledger_draw, last_pair, withdrawal, page_turn};
ghost use Rattle.ledger.specs.declared.parts.Answer.TheVariants.{Token as Handed};
ghost use Rattle.ledger.specs.declared.parts.Sort.TheVariants as sort;
ghost use Rattle.station.specs.View.{ledger_of, case_of, last_of, case_k, current_case, next_answer, opening_answer, message_answer, draw_answer, last_answer, withdrawal_answer, turn_answer, held_sort, held_numbers};

use crate::case::Case;
use crate::state::Station;
use crate::tokens::{Back, Closing, Heard, Held, Next, Token, Waiting};
use kind::kind::Kind;
use kind::pair::Pair;
use ledger::fault::StationFault;
use ledger::parts::{Message, Numbers, Page, Sort, Stage};
use method::bases::Bases;
use method::commitments::fold_commitments;
use method::fault::MethodFault;
use method::method::Method;
use method::table::ChallengeTable;
use std::mem;

// Openings on one page.
const MOST_OPENED: u32 = 10000;

const MOST_ROUNDS: u8 = 8;

// Whether tokens of a sort are current at a stage.
fn is_of_sort<K>(stage: Stage<K>, sort: Sort) -> bool
where
    K: Drop,
    ensures { result ≡ of_sort stage sort }
{
    matches!(
        (stage, sort),
        (Stage::ForMessage, Sort::Waiting)
            | (Stage::ForDraw(_), Sort::Heard)
            | (Stage::ForLast, Sort::Closing)
    )
}

// What a case of k rounds waits for after so many.
fn waits_for<K>(k: u8, rounds: u8) -> Stage<K>
    ensures { result ≡ stage_after k rounds }
{
    if rounds == k {
        Stage::ForLast
    } else {
        Stage::ForMessage
    }
}

// The table with one challenge more.
fn extended(table: ChallengeTable, c: u32) -> ChallengeTable
    requires room { length (challenges table) < 8 }
    requires fine { outside c ≡ false }
    ensures value { challenges result ≡ challenges table ++ c ∷ [] }
    ensures long { length (challenges result) ≡ length (challenges table) + 1 }
{
    table.with(c).unwrap()
}

// The method's verdict on a case whose rounds are done.
fn ask_method<K: Kind, M: Method>(
    method: &M,
    case: Case<K>,
    a: u32,
    b: u32,
    bases: &Bases<K>,
    work_elements: &mut [K::Entry],
    work_numbers: &mut [u32],
) -> Result<bool, MethodFault>
    ensures answer { result ≡ case_answer K.Kind.meaning (case_of case) (last_of bases.now.g.now bases.now.h.now bases.now.key a b (length work_elements.old) (length work_numbers.old)) }
    ensures elements { work_elements.new ≡ cleared result (2 ^ case.rounds) (unit_entry K.Kind.meaning) work_elements.old }
    ensures numbers { work_numbers.new ≡ cleared result (2 ^ case.rounds) 0 work_numbers.old }
{
    method.verdict(
        &case.table,
        case.z,
        bases,
        a,
        b,
        work_elements,
        work_numbers,
    )
}

impl<K: Kind, M: Method> Station<K, M> {
    // A station with no case and a clean page.
    pub fn new(number: u16, method: M) -> Station<K, M>
        ensures ledger { ledger_of result ≡ fresh number }
        ensures method { result.method ≡ method }
    {
        Station {
            number,
            method,
            page: Page::default(),
            case: None,
        }
    }

    // Takes the station apart and hands the method back.
    pub fn close(self) -> M
        ensures { result ≡ self.method }
    {
        let Station {
            number: _,
            method,
            page: _,
            case: _,
        } = self;
        method
    }

    // The four counts as they stand.
    pub fn page(&self) -> Page
        ensures { result ≡ (ledger_of self.now).page }
    {
        self.page
    }

    // What the token says that is current after so many rounds of the open case.
    fn due(&self, rounds: u8) -> Numbers
        ensures { result ≡ numbers_at self.now.number self.now.page rounds }
    {
        Numbers {
            station: self.number,
            case: self.page.opened,
            rounds,
        }
    }

    // The token that is handed out after so many rounds of k.
    fn next(&self, k: u8, rounds: u8) -> Next
        ensures { next_answer result ≡ Handed (sort_after k rounds) (numbers_at self.now.number self.now.page rounds) }
    {
        let numbers = self.due(rounds);
        if rounds == k {
            Next::Closing(Closing { numbers })
        } else {
            Next::Waiting(Waiting { numbers })
        }
    }

    // The open case, where its current token is of this sort and says these numbers.
    fn current(&self, sort: Sort, numbers: Numbers) -> Option<Case<K>>
        ensures { result ≡ current_case self.now.number self.now.page sort numbers self.now.case }
    {
        let case = self.case?;
        (is_of_sort(case.stage, sort) && numbers == self.due(case.rounds)).then_some(case)
    }

    // Opens a case of k rounds for the commitments Z1 and Z2. Refused by 2, 3 and 4.
    pub fn open(&mut self, k: u8, z1: K, z2: K) -> Result<Next, StationFault>
        ensures answer { opening_answer result ≡ (step K.Kind.meaning (ledger_of self.old) (opening k (pair_of z1 z2))).answer }
        ensures ledger { ledger_of self.new ≡ (step K.Kind.meaning (ledger_of self.old) (opening k (pair_of z1 z2))).ledger }
        ensures kept { self.new.method ≡ self.old.method }
    {
        if self.case.is_some() {
            return Err(StationFault::CaseOpen);
        }
        if k > MOST_ROUNDS {
            return Err(StationFault::TooManyRounds);
        }
        if self.page.opened >= MOST_OPENED {
            return Err(StationFault::PageFull);
        }
        self.page.opened += 1;
        self.case = Some(Case {
            k,
            rounds: 0,
            stage: waits_for(k, 0),
            z: Pair { a: z1, b: z2 },
            table: ChallengeTable::empty(),
        });
        Ok(self.next(k, 0))
    }

    // Takes a round's message. Refused by 1.
    pub fn message(&mut self, t: Waiting, m: Message<K>) -> Result<Heard, Back<Waiting>>
        ensures answer { message_answer result ≡ (step K.Kind.meaning (ledger_of self.old) (ledger_message sort.Waiting t.numbers m)).answer }
        ensures ledger { ledger_of self.new ≡ (step K.Kind.meaning (ledger_of self.old) (ledger_message sort.Waiting t.numbers m)).ledger }
        ensures kept { self.new.method ≡ self.old.method }
        ensures back { IfErr result (λ b. b.token ≡ t) }
    {
        let Some(mut case) = self.current(Sort::Waiting, t.numbers) else {
            return Err(Back::not_current(t));
        };
        case.stage = Stage::ForDraw(m);
        self.case = Some(case);
        Ok(Heard { numbers: t.spend() })
    }

    // Folds the commitments by the challenge c. Refused by 1 and 13.
    pub fn draw(&mut self, t: Heard, c: u32) -> Result<Next, Back<Heard>>
        ensures answer { draw_answer result ≡ (step K.Kind.meaning (ledger_of self.old) (ledger_draw sort.Heard t.numbers c)).answer }
        ensures ledger { ledger_of self.new ≡ (step K.Kind.meaning (ledger_of self.old) (ledger_draw sort.Heard t.numbers c)).ledger }
        ensures kept { self.new.method ≡ self.old.method }
        ensures back { IfErr result (λ b. b.token ≡ t) }
    {
        let Some(mut case) = self.current(Sort::Heard, t.numbers) else {
            return Err(Back::not_current(t));
        };
        let Stage::ForDraw(m) = case.stage else {
            unreachable!();
        };
        if c == 0 || c >= K::order() {
            return Err(Back {
                token: t,
                fault: StationFault::NotAChallenge,
            });
        }
        t.spend();
        let lower = Pair { a: m.l1, b: m.l2 };
        let upper = Pair { a: m.r1, b: m.r2 };
        case.rounds += 1;
        case.stage = waits_for(case.k, case.rounds);
        case.z = fold_commitments(lower, case.z, upper, c);
        case.table = extended(case.table, c);
        self.case = Some(case);
        Ok(self.next(case.k, case.rounds))
    }

    // The method's verdict on the last pair a, b, counted. Refused by 1, and then as the method refuses: 5, 6, 8, 11 and 12.
    pub fn last(
        &mut self,
        t: Closing,
        a: u32,
        b: u32,
        bases: &Bases<K>,
        work_elements: &mut [K::Entry],
        work_numbers: &mut [u32],
    ) -> Result<bool, Back<Closing>>
        ensures answer { last_answer result ≡ (step K.Kind.meaning (ledger_of self.old) (last_pair sort.Closing t.numbers (last_of bases.now.g.now bases.now.h.now bases.now.key a b (length work_elements.old) (length work_numbers.old)))).answer }
        ensures ledger { ledger_of self.new ≡ (step K.Kind.meaning (ledger_of self.old) (last_pair sort.Closing t.numbers (last_of bases.now.g.now bases.now.h.now bases.now.key a b (length work_elements.old) (length work_numbers.old)))).ledger }
        ensures kept { self.new.method ≡ self.old.method }
        ensures back { IfErr result (λ b. b.token ≡ t) }
        ensures elements { work_elements.new ≡ cleared result (2 ^ case_k (ledger_of self.old)) (unit_entry K.Kind.meaning) work_elements.old }
        ensures numbers { work_numbers.new ≡ cleared result (2 ^ case_k (ledger_of self.old)) 0 work_numbers.old }
    {
        let Some(case) = self.current(Sort::Closing, t.numbers) else {
            return Err(Back::not_current(t));
        };
        match ask_method(&self.method, case, a, b, bases, work_elements, work_numbers) {
            Ok(passes) => {
                t.spend();
                if passes {
                    self.page.passed += 1;
                } else {
                    self.page.failed += 1;
                }
                self.case = None;
                Ok(passes)
            }
            Err(fault) => Err(Back {
                token: t,
                fault: fault.into(),
            }),
        }
    }

    // Withdraws the open case. Refused by 1.
    pub fn withdraw(&mut self, t: Held) -> Result<(), Back<Held>>
        ensures answer { withdrawal_answer result ≡ (step K.Kind.meaning (ledger_of self.old) (withdrawal (held_sort t) (held_numbers t))).answer }
        ensures ledger { ledger_of self.new ≡ (step K.Kind.meaning (ledger_of self.old) (withdrawal (held_sort t) (held_numbers t))).ledger }
        ensures kept { self.new.method ≡ self.old.method }
        ensures back { IfErr result (λ b. b.token ≡ t) }
    {
        if self.current(t.sort(), t.numbers()).is_none() {
            return Err(Back::not_current(t));
        }
        t.spend();
        self.page.withdrawn += 1;
        self.case = None;
        Ok(())
    }

    // Answers the four counts and sets them to 0. Refused by 2.
    pub fn turn(&mut self) -> Result<Page, StationFault>
        ensures answer { turn_answer result ≡ (step K.Kind.meaning (ledger_of self.old) page_turn).answer }
        ensures ledger { ledger_of self.new ≡ (step K.Kind.meaning (ledger_of self.old) page_turn).ledger }
        ensures kept { self.new.method ≡ self.old.method }
    {
        if self.case.is_some() {
            return Err(StationFault::CaseOpen);
        }
        Ok(mem::take(&mut self.page))
    }
}
