// The promise over the ledger's runs, for every kind: each function carries one theorem in its contract.
ghost use Rattle.ledger.specs.Promise.{RunKeepsPromise};
ghost use Rattle.ledger.specs.Script.{GoesThrough};

// The ledger's own run keeps the whole promise. M: elements, E: entries.
pub fn the_promise_is_kept<M, E>() -> u8
    ensures { RunKeepsPromise M E }
{
    0
}

// A case played by the rules follows them, is not refused, and passes.
pub fn a_case_by_the_rules_goes_through<M, E>() -> u8
    ensures { GoesThrough M E }
{
    0
}
