// The challenges of the rounds: at most eight, each from 1 to 2^31 - 1, with zeros behind them. An array and a length, since the core
// has no heap.
ghost use Rattle.method.specs.Entries.{Kept};

#[derive(Clone, Copy)]
pub struct ChallengeTable {
    pub(crate) entries: [u32; 8],
    pub(crate) len: usize,
    ghost ok: { Kept entries len },
}
