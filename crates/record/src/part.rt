// The parts of a record, and the reader that hands them out one by one. Each borrows the record's bytes.

#[derive(Clone, Copy)]
pub enum Part<'a> {
    // Z1 and Z2.
    Claim(&'a [u8]),
    // L1, L2, R1, R2 and the challenge.
    Round(&'a [u8]),
    // a and b.
    LastPair(&'a [u8]),
}

// What comes next, and how many rounds are to come. A state and no closure: the reader is handed to callers.
#[derive(Clone, Copy)]
pub(crate) enum Stage {
    Claim(u8),
    Rounds(u8),
    Done,
}

// `rest` is what is still to be handed out.
#[derive(Drop)]
pub struct Reader<'a> {
    pub(crate) rest: &'a [u8],
    pub(crate) claim_size: usize,
    pub(crate) round_size: usize,
    pub(crate) stage: Stage,
}
