// One round of a record: the message's pairs L1, L2 and R1, R2, and the challenge.
use kind::pair::Pair;

#[derive(Clone, Copy)]
pub struct Round<K> {
    pub lower: Pair<K>,
    pub upper: Pair<K>,
    pub challenge: u32,
}
