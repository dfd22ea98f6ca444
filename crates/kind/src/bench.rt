// The bench lists, over which examples and programs check.
ghost use Rattle.std.specs.Prelude.{◌≡◌, length};
ghost use Rattle.kind.specs.Bench.{bench_entries};

use crate::kind::Kind;

// Fills a list: the entry of i is that of the base joined 2 + (i mod 9) times.
pub fn fill_bench<K: Kind>(entries: &mut [K::Entry])
    ensures { entries.new ≡ bench_entries K.Kind.meaning (length entries.old) }
{
    for (i, entry) in entries.iter_mut().enumerate() {
        *entry = K::base().power((2 + i % 9) as u32).to_entry();
    }
}
