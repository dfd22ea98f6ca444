// station-replay: a script of calls, one to a line, performed on a station; a line is printed for each.
#![tactic(auto)]

mod lists;
mod script;

use crate::lists::Lists;
use crate::script::{Header, KindName, MethodName, Said};
use input::reading::read_all;
use kind::clear::Clear;
use kind::kind::Kind;
use kind::residue::Residue;
use method::halving::Halving;
use method::method::Method;
use method::multiplying::MultiplyingOut;
use station::state::Station;
use std::io;
use text::lines::Lines;

const LIMIT: u32 = 1_048_576;

// Performs line after line, and prints each answer and the page after it. A line that is no call ends it.
fn perform_lines<K: Kind<Entry = u32>, M: Method>(
    rt: &HostRuntime,
    station: &mut Station<K, M>,
    lists: &mut Lists,
    lines: Lines,
) -> io::Result<()> {
    for (i, line) in lines.enumerate() {
        let Some(said) = Said::read(line) else {
            let number = i.saturating_add(2);
            return println!(rt; "line {number}: not a call");
        };
        let done = lists.perform(station, said);
        println!(rt; "{done}")?;
    }
    Ok(())
}

// A station of this kind and method, for the whole script.
fn serve<K: Kind<Entry = u32>, M: Method + Drop>(
    rt: &HostRuntime,
    number: u16,
    method: M,
    lines: Lines,
) -> io::Result<()> {
    let mut lists = Lists::new::<K>(rt.alloc())?;
    let mut station = Station::<K, M>::new(number, method);
    let done = perform_lines(rt, &mut station, &mut lists, lines);
    station.close();
    done
}

fn run(rt: &HostRuntime, text: &[u8]) -> io::Result<()> {
    let mut lines = Lines::from(text);
    let Some(
        Header {
            number,
            kind,
            method,
        },
    ) = lines.next().and_then(Header::read)
    else {
        return println!(rt; "line 1: not a call");
    };
    // No lists are made for a script without calls.
    if lines.rest.is_empty() {
        return Ok(());
    }
    match (kind, method) {
        (KindName::Clear, MethodName::Halving) => {
            serve::<Clear, Halving>(rt, number, Halving, lines)
        }
        (KindName::Clear, MethodName::Multiplying) => {
            serve::<Clear, MultiplyingOut>(rt, number, MultiplyingOut, lines)
        }
        (KindName::Residue, MethodName::Halving) => {
            serve::<Residue, Halving>(rt, number, Halving, lines)
        }
        (KindName::Residue, MethodName::Multiplying) => {
            serve::<Residue, MultiplyingOut>(rt, number, MultiplyingOut, lines)
        }
    }
}

fn main(rt: HostRuntime) -> io::Result<()> {
    match read_all(rt.alloc(), rt.stdin(), LIMIT)? {
        None => println!(rt; "input too long"),
        Some(text) => run(&rt, &text),
    }
}
