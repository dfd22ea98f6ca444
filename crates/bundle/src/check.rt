// Checking the records of a bundle one after the other.
ghost use Rattle.std.specs.Prelude.{◌≡◌, ◌+◌, [], length, MatchOption};
ghost use Rattle.kind.specs.Kinds.{unit_entry};
ghost use Rattle.bundle.specs.Bodies.{left, handed_out};
ghost use Rattle.bundle.specs.Checks.{next_answer, behind, one_more, cleared_next};

use crate::fault::BundleFault;
use crate::records::Records;
use kind::kind::Kind;
use kind::written::WrittenKind;
use method::bases::Bases;
use method::method::Method;
use record::check::check_front;

impl<'a> Records<'a> {
    // Checks the next record over the first 2^k entries of the lists, k being the record's. None when no record is left.
    // A record's fault goes up whole, with the record's index.
    pub fn check_next<K: WrittenKind, M: Method>(
        &mut self,
        method: &M,
        bases: &Bases<K>,
        work_elements: &mut [K::Entry],
        work_numbers: &mut [u32],
    ) -> Option<Result<bool, BundleFault>>
        ensures answer { result ≡ next_answer K.Kind.meaning K.WrittenKind.writing (handed_out self.old) (left self.old) bases.now.g.now bases.now.h.now bases.now.key (length work_elements.old) (length work_numbers.old) }
        ensures bodies { left self.new ≡ behind (left self.old) }
        ensures counted { handed_out self.new ≡ handed_out self.old + one_more (left self.old) }
        ensures fewer { MatchOption result (left self.new ≡ []) (λ _. length (left self.new) + 1 ≡ length (left self.old)) }
        ensures elements { work_elements.new ≡ cleared_next (left self.old) result (unit_entry K.Kind.meaning) work_elements.old }
        ensures numbers { work_numbers.new ≡ cleared_next (left self.old) result 0 work_numbers.old }
    {
        let index = self.index();
        let body = self.next()?;
        let answer = check_front::<K, M>(method, body, bases, work_elements, work_numbers);
        Some(answer.map_err(|fault| BundleFault::Record(fault, index)))
    }
}
