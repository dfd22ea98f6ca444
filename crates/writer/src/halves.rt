// Messages.
ghost use Rattle.std.specs.Prelude.{◌≡◌, ◌+◌, ◌/◌, length};
ghost use Rattle.ledger.specs.Rules.{message_of};
ghost use Rattle.writer.specs.Answers.{lists_of};
ghost use Rattle.writer.specs.Ready.{AsLong};

use crate::commitments::commit_second;
use kind::bytes::cut;
use kind::kind::Kind;
use ledger::parts::Message;
use method::bases::CheckedBases;

// The message of four lists: the commitments of the halves across.
pub(crate) fn message_across<K: Kind>(bases: &CheckedBases<K>, l: &[u32], r: &[u32]) -> Message<K>
    requires long { AsLong (length bases.now.g.entries.now) (length bases.now.h.entries.now) (length l.now) (length r.now) }
    requires even { length bases.now.g.entries.now / 2 + length bases.now.g.entries.now / 2 ≡ length bases.now.g.entries.now }
    ensures { result ≡ message_of K.Kind.meaning bases.now.key (lists_of K.Kind.meaning bases.now.g.entries.now bases.now.h.entries.now l.now r.now) }
{
    let m = bases.g.entries.len() / 2;
    let (g_first, g_last) = bases.g.cut(m);
    let (h_first, h_last) = bases.h.cut(m);
    let (l_first, l_last) = cut(l, m);
    let (r_first, r_last) = cut(r, m);
    let l1 = g_first.join_powers(l_last);
    let l2 = commit_second(&h_last, bases.key, l_last, r_first);
    let r1 = g_last.join_powers(l_first);
    let r2 = commit_second(&h_first, bases.key, l_first, r_last);
    Message { l1, l2, r1, r2 }
}
