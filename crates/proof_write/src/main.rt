// proof-write: groups of quantities, prices and challenges from standard input, and the bundle of their proofs.
#![tactic(auto)]

mod bundle;
mod groups;
mod hex;
mod prove;
mod stop;

use crate::bundle::{directory, push_lines};
use crate::hex::push_hex;
use crate::prove::prove_all;
use crate::stop::Stop;
use input::reading::read_all;
use std::io::{BufWriter, Write};
use std::{env, io};

const LIMIT: u32 = 1_048_576;

// How the bundle is written.
#[derive(Clone, Copy)]
enum Output {
    Bytes,
    Hex,
}

// What the arguments ask for; None where they are not as they should be.
fn wanted_output(rt: &HostRuntime) -> io::Result<Option<Output>> {
    let mut args = env::args(rt)?.skip(1);
    let Some(option) = args.next() else {
        return Ok(Some(Output::Bytes));
    };
    let hex = option.as_str() == "--hex" && args.next().is_none();
    Ok(hex.then_some(Output::Hex))
}

// Writes the directory, and the records behind it. Where there is no memory for a buffer, each record is written by itself.
fn write_bytes<W: Write>(to: &mut W, front: &[u8], records: &[Vec<u8>]) -> io::Result<()> {
    to.write_all(front)?;
    for record in records {
        to.write_all(record)?;
    }
    to.flush()
}

// Writes the bundle's bytes, or its directory and its records in lines of hexadecimal digits. A text within the limit has
// too few groups for a bundle that is too long.
fn write_bundle(rt: &HostRuntime, records: &[Vec<u8>], output: Output) -> io::Result<()> {
    let Some(front) = directory(rt.alloc(), records)? else {
        return println!(rt; "bundle too long");
    };
    match output {
        Output::Bytes => {
            match BufWriter::new(rt.alloc(), rt.stdout()) {
                Ok(mut to) => write_bytes(&mut to, &front, records),
                Err(_) => write_bytes(&mut rt.stdout(), &front, records),
            }
        }
        Output::Hex => {
            let mut digits = Vec::new(rt.alloc());
            push_hex(&mut digits, &front)?;
            digits.push(b'\n')?;
            push_lines(&mut digits, records)?;
            rt.stdout().write_all(&digits)
        }
    }
}

// The text is let go before the bundle is written.
fn run(rt: &HostRuntime, text: Vec<u8>, output: Output) -> io::Result<()> {
    let proved = prove_all(rt.alloc(), &text);
    drop(text);
    match proved {
        Ok(records) => write_bundle(rt, &records, output),
        Err(Stop::Memory(e)) => Err(e.into()),
        Err(stop) => println!(rt; "{stop}"),
    }
}

fn main(rt: HostRuntime) -> io::Result<()> {
    let Some(output) = wanted_output(&rt)? else {
        return println!(rt; "usage: proof-write [--hex]");
    };
    match read_all(rt.alloc(), rt.stdin(), LIMIT)? {
        None => println!(rt; "input too long"),
        Some(text) => run(&rt, text, output),
    }
}
