// What a record comes to, noted down part by part.
use kind::pair::Pair;
use method::table::ChallengeTable;

// The folded commitments, the challenges so far, and the last pair.
#[derive(Clone, Copy)]
pub(crate) struct Noted<K> {
    pub(crate) z: Pair<K>,
    pub(crate) table: ChallengeTable,
    pub(crate) a: u32,
    pub(crate) b: u32,
}
