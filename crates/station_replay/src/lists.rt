// The lists that a station's calls are lent.
use crate::script::Said;
use kind::bench::fill_bench;
use kind::kind::Kind;
use ledger::fault::StationFault;
use ledger::parts::Line;
use method::fault::MethodFault;
use method::method::Method;
use station::replay::perform;
use station::state::Station;
use std::alloc::{AllocError, Global};

const LONGEST: usize = 65_535;

#[derive(Drop)]
pub struct Lists {
    bench: Vec<u32>,
    elements: Vec<u32>,
    numbers: Vec<u32>,
}

impl Lists {
    // The bench list of a kind, and work lists of the same length.
    pub fn new<K: Kind<Entry = u32>>(heap: Global) -> Result<Lists, AllocError> {
        let mut bench = vec![in heap; 0u32; LONGEST]?;
        fill_bench::<K>(&mut bench);
        let elements = vec![in heap; 0u32; LONGEST]?;
        let numbers = vec![in heap; 0u32; LONGEST]?;
        Ok(Lists {
            bench,
            elements,
            numbers,
        })
    }

    // Performs a call, and tells its answer and the page after it.
    pub fn perform<K: Kind<Entry = u32>, M: Method>(
        &mut self,
        station: &mut Station<K, M>,
        said: Said,
    ) -> Line {
        let answer = match said.call::<K>(&self.bench) {
            Ok(call) => perform(station, &call, &mut self.elements, &mut self.numbers),
            Err(fault) => StationFault::from(MethodFault::from(fault)).into(),
        };
        Line {
            answer,
            page: station.page(),
        }
    }
}
