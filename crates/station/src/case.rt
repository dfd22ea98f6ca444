// The open case.
ghost use Rattle.std.specs.Prelude.{◌≡◌, ◌≤◌, length, ◌==◌, ⊤};
ghost use Rattle.method.specs.Tables.{challenges};
ghost use Rattle.station.specs.Kept.{is_last};

use kind::pair::Pair;
use ledger::parts::Stage;
use method::table::ChallengeTable;
use std::alloc::AllocError;

// Its rounds k, those done, what it waits for, Z1 and Z2 as folded so far, and the challenges drawn.
pub struct Case<K> {
    pub k: u8,
    pub rounds: u8,
    pub stage: Stage<K>,
    pub z: Pair<K>,
    pub table: ChallengeTable,
    ghost few: { k ≤ 8 },
    ghost most: { rounds ≤ k },
    ghost counted: { length (challenges table) ≡ rounds },
    ghost due: { is_last stage ≡ (rounds == k) },
}

// Written out: neither is derived for a generic struct with ghost fields.
impl<K: Copy> Copy for Case<K> {}

impl<K: Copy> Clone for Case<K> {
    ghost is_clone = { λ s r. r ≡ s };

    ghost is_infallible = { λ _. ⊤ };

    fn clone(&self) -> Result<Case<K>, AllocError> {
        Ok(*self)
    }
}
