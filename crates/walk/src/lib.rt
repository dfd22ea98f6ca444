// How a caller spends tokens: one case of two rounds, by the station's calls. Three wrong uses of it do not compile; see token-uses.
#![tactic(auto)]

use kind::kind::Kind;
use kind::pair::Pair;
use ledger::fault::StationFault;
use ledger::parts::Message;
use method::bases::Bases;
use method::method::Method;
use station::state::Station;
use station::tokens::{Back, Closing, Held, Next, Token, Waiting};

// The token for a message, where that is what the case waits for.
fn waiting(next: Next) -> Result<Waiting, Back<Held>> {
    match next {
        Next::Waiting(t) => Ok(t),
        Next::Closing(t) => Err(Back {
            token: Held::Closing(t),
            fault: StationFault::NotCurrent,
        }),
    }
}

// The token for the last pair, where that is what the case waits for. The same match with the arms changed over: one function for both
// would want a trait for its two types.
fn closing(next: Next) -> Result<Closing, Back<Held>> {
    match next {
        Next::Closing(t) => Ok(t),
        Next::Waiting(t) => Err(Back {
            token: Held::Waiting(t),
            fault: StationFault::NotCurrent,
        }),
    }
}

// Two rounds, each a message and its challenge, and the last pair. A refusal hands the token back.
fn play<K: Kind, M: Method>(
    station: &mut Station<K, M>,
    opened: Next,
    rounds: [(Message<K>, u32); 2],
    bases: &Bases<K>,
    last: (u32, u32),
    elements: &mut [K::Entry],
    numbers: &mut [u32],
) -> Result<bool, Back<Held>> {
    let [first, second] = rounds;
    let heard = station.message(waiting(opened)?, first.0)?;
    let waiting_again = waiting(station.draw(heard, first.1)?)?;
    let heard_again = station.message(waiting_again, second.0)?;
    let closing = closing(station.draw(heard_again, second.1)?)?;
    let passes = station.last(closing, last.0, last.1, bases, elements, numbers)?;
    Ok(passes)
}

// Withdraws the case, and says why; a token that is refused even then is taken apart.
fn give_up<K: Kind, M: Method>(station: &mut Station<K, M>, back: Back<Held>) -> StationFault {
    let Back { token, fault } = back;
    match station.withdraw(token) {
        Ok(()) => fault,
        Err(Back { token, fault }) => {
            token.spend();
            fault
        }
    }
}

// A case of two rounds for the commitments z, from its opening to its verdict. Where a call refuses, the case is withdrawn.
pub fn two_rounds<K: Kind, M: Method>(
    station: &mut Station<K, M>,
    z: Pair<K>,
    rounds: [(Message<K>, u32); 2],
    bases: &Bases<K>,
    last: (u32, u32),
    elements: &mut [K::Entry],
    numbers: &mut [u32],
) -> Result<bool, StationFault> {
    let opened = station.open(2, z.a, z.b)?;
    let played = play(station, opened, rounds, bases, last, elements, numbers);
    played.map_err(|back| give_up(station, back))
}

#[cfg(test)]
mod tests {
    use crate::two_rounds;
    use kind::clear::Clear;
    use kind::kind::Kind;
    use kind::pair::Pair;
    use ledger::fault::StationFault;
    use ledger::parts::{Message, Page};
    use method::bases::Bases;
    use method::fault::MethodFault;
    use method::halving::Halving;
    use station::state::Station;

    fn message(l1: u32, l2: u32, r1: u32, r2: u32) -> Message<Clear> {
        let k = Clear::base();
        Message {
            l1: k.power(l1),
            l2: k.power(l2),
            r1: k.power(r1),
            r2: k.power(r2),
        }
    }

    // l = (3, 4, 5, 6) and r = (10, 20, 30, 40) over G = H = (2, 3, 4, 5) and K = 1 of the clear kind:
    // <l, r> = 500, Z1 = 68, Z2 = 400 + 500. By the challenges 6 and 7 there are left a = 313 and b = 790.
    fn play(
        station: &mut Station<Clear, Halving>,
        c: u32,
        a: u32,
        numbers: &mut [u32],
    ) -> Result<bool, StationFault> {
        let k = Clear::base();
        let lists = [2, 3, 4, 5];
        let z = Pair {
            a: k.power(68),
            b: k.power(900),
        };
        let rounds = [
            (message(28, 310, 32, 430), 6),
            (message(640, 6570, 759, 9440), c),
        ];
        let bases = Bases {
            g: &lists,
            h: &lists,
            key: k,
        };
        two_rounds(station, z, rounds, &bases, (a, 790), &mut [0; 4], numbers)
    }

    #[test]
    fn two_rounds_end_by_their_verdict_or_are_withdrawn(rt: HostRuntime) {
        let mut station = Station::<Clear, Halving>::new(7, Halving);
        let right = play(&mut station, 7, 313, &mut [0; 4]);
        let wrong = play(&mut station, 7, 314, &mut [0; 4]);
        let no_challenge = play(&mut station, 0, 313, &mut [0; 4]);
        let no_room = play(&mut station, 7, 313, &mut [0; 3]);
        let page = station.page();
        station.close();
        assert_eq!(rt; right, Ok(true));
        assert_eq!(rt; wrong, Ok(false));
        assert_eq!(rt; no_challenge, Err(StationFault::NotAChallenge));
        assert_eq!(rt; no_room, Err(StationFault::Method(MethodFault::Room(3), 0)));
        assert_eq!(rt;
            page,
            Page {
                opened: 4,
                passed: 1,
                failed: 1,
                withdrawn: 2
            }
        );
    }
}
