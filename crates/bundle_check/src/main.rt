// Reads a bundle of clear-kind records from standard input, checks each by halving over the bench lists, and prints the verdicts.
#![tactic(auto)]

use bundle::fault::BundleFault;
use bundle::records::Records;
use input::reading::read_all;
use kind::bench::fill_bench;
use kind::clear::Clear;
use kind::kind::Kind;
use method::bases::Bases;
use method::halving::Halving;
use std::io;

const LIMIT: u32 = 65_536;

// The directory counts as record 0.
fn print_fault(rt: &HostRuntime, fault: BundleFault) -> io::Result<()> {
    let number = fault.refusal().number;
    let (record, place) = match fault {
        BundleFault::Directory(place) => (0, place),
        BundleFault::Record(inner, index) => (index.saturating_add(1), inner.place()),
    };
    println!(rt; "fault {number} record {record} place {place}")
}

// Checks record after record, and prints each verdict, then the sums; a fault ends it.
fn report(rt: &HostRuntime, file: &[u8]) -> io::Result<()> {
    let mut records = match Records::open(file) {
        Ok(records) => records,
        Err(fault) => return print_fault(rt, fault),
    };
    let mut bench = vec![in rt.alloc(); 0u32; 256]?;
    fill_bench::<Clear>(&mut bench);
    let bases = Bases {
        g: &bench,
        h: &bench,
        key: Clear::base(),
    };
    let mut elements = vec![in rt.alloc(); 0u32; 256]?;
    let mut numbers = vec![in rt.alloc(); 0u32; 256]?;
    let mut passed = 0u32;
    let mut failed = 0u32;
    // A rule of the project: let .. else takes the reader's answer apart, and none ends the loop.
    loop {
        let Some(answer) = records.check_next::<Clear, Halving>(
            &Halving,
            &bases,
            &mut elements,
            &mut numbers,
        ) else {
            break;
        };
        let number = records.index();
        match answer {
            Ok(true) => {
                passed = passed.saturating_add(1);
                println!(rt; "{number} pass")?;
            }
            Ok(false) => {
                failed = failed.saturating_add(1);
                println!(rt; "{number} fail")?;
            }
            Err(fault) => return print_fault(rt, fault),
        }
    }
    println!(rt; "passed {passed} failed {failed}")
}

fn main(rt: HostRuntime) -> io::Result<()> {
    match read_all(rt.alloc(), rt.stdin(), LIMIT)? {
        None => println!(rt; "input too long"),
        Some(file) => report(&rt, &file),
    }
}
