// What a checking method is.
ghost use Rattle.std.specs.Prelude.{◌≡◌, ◌^◌, length, replicate};
ghost use Rattle.kind.specs.Kinds.{unit_entry};
ghost use Rattle.method.specs.Meaning.{verdict_of, method_answer, cleared};
ghost use Rattle.method.specs.Sides.{Admitted};
ghost use Rattle.method.specs.Tables.{challenges};

use crate::admit::{check_content, check_lengths};
use crate::bases::{Bases, CheckedBases};
use crate::fault::MethodFault;
use crate::last_pair::clear_numbers;
use crate::table::ChallengeTable;
use kind::entries::clear_entries;
use kind::kind::Kind;
use kind::pair::Pair;

// The two work lists stay two parameters. In a struct of two `&mut`, each contract would also have to say that both references are
// still the same ones.
pub trait Method {
    // The verdict on lists of which nothing is refused. The work lists may be left with anything in them.
    // This is what a method writes; a program calls `verdict`.
    fn decide<K: Kind>(
        &self,
        cs: &[u32],
        z: Pair<K>,
        bases: &CheckedBases<K>,
        a: u32,
        b: u32,
        elements: &mut [K::Entry],
        numbers: &mut [u32],
    ) -> bool
        requires { Admitted cs.now (length bases.now.g.entries.now) (length bases.now.h.entries.now) (length elements.old) (length numbers.old) }
        ensures { result ≡ verdict_of K.Kind.meaning cs.now z bases.now.g.entries.now bases.now.h.entries.now bases.now.key a b };

    // The same, with the work lists cleared.
    fn decide_and_clear<K: Kind>(
        &self,
        cs: &[u32],
        z: Pair<K>,
        bases: &CheckedBases<K>,
        a: u32,
        b: u32,
        elements: &mut [K::Entry],
        numbers: &mut [u32],
    ) -> bool
        requires { Admitted cs.now (length bases.now.g.entries.now) (length bases.now.h.entries.now) (length elements.old) (length numbers.old) }
        ensures verdict { result ≡ verdict_of K.Kind.meaning cs.now z bases.now.g.entries.now bases.now.h.entries.now bases.now.key a b }
        ensures elements { elements.new ≡ replicate (length elements.old) (unit_entry K.Kind.meaning) }
        ensures numbers { numbers.new ≡ replicate (length numbers.old) 0 }
    {
        let passes = self.decide(cs, z, bases, a, b, elements, numbers);
        clear_entries::<K>(elements);
        clear_numbers(numbers);
        passes
    }

    // Whether the last pair a, b passes, for G and H folded by the table's challenges and the folded commitments z.
    // Refused by 5, 6, 8, 11 and 12; refused, it alters nothing.
    fn verdict<K: Kind>(
        &self,
        table: &ChallengeTable,
        z: Pair<K>,
        bases: &Bases<K>,
        a: u32,
        b: u32,
        work_elements: &mut [K::Entry],
        work_numbers: &mut [u32],
    ) -> Result<bool, MethodFault>
        ensures answer { result ≡ method_answer K.Kind.meaning (challenges table.now) z bases.now.g.now bases.now.h.now bases.now.key a b (length work_elements.old) (length work_numbers.old) }
        ensures elements { work_elements.new ≡ cleared result (2 ^ length (challenges table.now)) (unit_entry K.Kind.meaning) work_elements.old }
        ensures numbers { work_numbers.new ≡ cleared result (2 ^ length (challenges table.now)) 0 work_numbers.old }
    {
        let cs = table.challenges();
        let n = table.size();
        check_lengths(
            n,
            bases.g.len(),
            bases.h.len(),
            work_elements.len(),
            work_numbers.len(),
        )?;
        let checked = check_content(bases, a, b)?;
        Ok(self.decide_and_clear(
            cs,
            z,
            &checked,
            a,
            b,
            &mut work_elements[..n],
            &mut work_numbers[..n],
        ))
    }
}
