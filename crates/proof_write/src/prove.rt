// The proofs of groups, over the bench lists.
ghost use Rattle.std.specs.Prelude.{◌≡◌, min, take, IfOk};
ghost use Rattle.kind.specs.Bench.{bench_entries};
ghost use Rattle.kind.specs.Clears.{clear_meaning};
ghost use Rattle.record.specs.Parts.{record_length};
ghost use Rattle.proof_write.specs.Proofs.{record_over, group_record};

use crate::groups::{Group, Groups};
use crate::stop::Stop;
use kind::bench::fill_bench;
use kind::clear::Clear;
use kind::kind::Kind;
use method::bases::Bases;
use std::alloc::{AllocError, Global};
use writer::fault::WriterFault;
use writer::whole::whole_proof;

// How many bytes a record of so many rounds has. No record has more than eight.
fn record_size(rounds: usize) -> usize
    ensures { result ≡ record_length 4 (min rounds 8) }
{
    17 + 20 * rounds.min(8)
}

// The bench list of n entries.
fn bench_list(heap: Global, n: usize) -> Result<Vec<u32>, AllocError>
    ensures { IfOk result (λ v. v.items ≡ bench_entries clear_meaning n) }
{
    let mut bench = vec![in heap; 0u32; n]?;
    fill_bench::<Clear>(&mut bench);
    Ok(bench)
}

// Writes a group's record at the output's start, and answers its length.
fn write_record(
    group: &Group,
    bench: &[u32],
    out: &mut [u8],
    elements: &mut [u32],
    numbers: &mut [u32],
) -> Result<usize, WriterFault>
    ensures { IfOk result (λ n. take n out.new ≡ record_over bench.now group.now) }
{
    let bases = Bases {
        g: bench,
        h: bench,
        key: Clear::base(),
    };
    whole_proof(
        &bases,
        &group.quantities,
        &group.prices,
        &group.challenges,
        out,
        elements,
        numbers,
    )
}

// The record of the group with this number.
fn record_of(heap: Global, group: &Group, number: usize) -> Result<Vec<u8>, Stop>
    ensures { IfOk result (λ v. v.items ≡ group_record group.now) }
{
    let n = group.quantities.len();
    let bench = bench_list(heap, n)?;
    let twice = n.saturating_mul(2);
    let mut elements = vec![in heap; 0u32; twice]?;
    let mut numbers = vec![in heap; 0u32; twice]?;
    let mut out = vec![in heap; 0u8; record_size(group.challenges.len())]?;
    let length = write_record(group, &bench, &mut out, &mut elements, &mut numbers).map_err(
        |fault| Stop::Refused(fault, number),
    )?;
    out.truncate(length);
    Ok(out)
}

// The records of all groups of a text, or what comes first in it that stops this.
pub fn prove_all(heap: Global, text: &[u8]) -> Result<Vec<Vec<u8>>, Stop> {
    let mut groups = Groups::all(text);
    let mut records = Vec::new(heap);
    loop {
        let group = groups.group(heap)?;
        let number = records.len().saturating_add(1);
        records.push(record_of(heap, &group, number)?)?;
        if groups.is_empty() {
            return Ok(records);
        }
    }
}
