// A station: its number, its method, the page and the open case.
pub mod calls;

ghost use Rattle.std.specs.Prelude.{◌≡◌, ◌+◌, ◌≤◌};
ghost use Rattle.station.specs.Kept.{open_cases};

use crate::case::Case;
use kind::kind::Kind;
use ledger::parts::Page;
use method::method::Method;

// Every opened case of the page is counted once: passed, failed, withdrawn, or still open.
pub struct Station<K: Kind, M: Method> {
    number: u16,
    method: M,
    page: Page,
    case: Option<Case<K>>,
    ghost balanced: { page.opened ≡ page.passed + page.failed + page.withdrawn + open_cases case },
    ghost within: { page.opened ≤ 10000 },
}
