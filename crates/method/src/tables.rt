// Making a challenge table, and reading it.
ghost use Rattle.std.specs.Prelude.{◌≡◌, ◌-◌, ◌^◌, ◌≤◌, [], ◌∷◌, ◌++◌, length, replicate, position};
ghost use Rattle.kind.specs.Faults.{first_bad};
ghost use Rattle.method.specs.Entries.{outside};
ghost use Rattle.method.specs.Tables.{challenges as challenges_of, listed, table_answer};
ghost use Rattle.method.specs.declared.fault.MethodFault.TheVariants.{NotAChallenge};

use crate::admit::list_length;
use crate::fault::MethodFault;
use crate::table::ChallengeTable;
use kind::bytes::cut;

fn is_outside(c: u32) -> bool
    ensures { result ≡ outside c }
{
    c == 0 || c > 2147483647
}

fn first_outside(entries: &[u32]) -> Option<usize>
    ensures { result ≡ position outside entries.now }
{
    entries.iter().position(|c| is_outside(*c))
}

fn check_entries(entries: &[u32]) -> Result<(), MethodFault>
    ensures { result ≡ first_bad outside NotAChallenge 0 entries.now }
{
    match first_outside(entries) {
        Some(i) => Err(MethodFault::NotAChallenge(i)),
        None => Ok(()),
    }
}

// The entries, and zeros behind them.
fn padded(entries: &[u32]) -> [u32; 8]
    requires { length entries.now ≤ 8 }
    ensures { result ≡ entries.now ++ replicate (8 - length entries.now) 0 }
{
    let mut all = [0; 8];
    all[..entries.len()].copy_from_slice(entries);
    all
}

impl ChallengeTable {
    // A table of these challenges, the first round's first. A ninth is refused by 3, one out of range by 13.
    pub fn new(entries: &[u32]) -> Result<ChallengeTable, MethodFault>
        ensures { listed result ≡ table_answer entries.now }
    {
        if entries.len() > 8 {
            return Err(MethodFault::TooManyRounds);
        }
        check_entries(entries)?;
        Ok(ChallengeTable {
            entries: padded(entries),
            len: entries.len(),
        })
    }

    // A table with no challenges yet.
    pub fn empty() -> ChallengeTable
        ensures { challenges_of result ≡ [] }
    {
        ChallengeTable {
            entries: [0; 8],
            len: 0,
        }
    }

    // The table with one challenge more at its end, as if it were made of all of them.
    pub fn with(self, c: u32) -> Result<ChallengeTable, MethodFault>
        ensures { listed result ≡ table_answer (challenges_of self ++ c ∷ []) }
    {
        if self.len >= 8 {
            return Err(MethodFault::TooManyRounds);
        }
        if is_outside(c) {
            return Err(MethodFault::NotAChallenge(self.len));
        }
        let mut entries = self.entries;
        entries[self.len] = c;
        Ok(ChallengeTable {
            entries,
            len: self.len + 1,
        })
    }

    // How many entries its rounds fold to one.
    pub fn size(&self) -> usize
        ensures { result ≡ 2 ^ length (challenges_of self.now) }
    {
        list_length(self.len)
    }

    pub fn challenges(&self) -> &[u32]
        ensures value { result.now ≡ challenges_of self.now }
        ensures few { length result.now ≤ 8 }
    {
        let (front, _) = cut(&self.entries, self.len);
        front
    }
}
