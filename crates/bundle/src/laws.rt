// Theorems on bundles: each function does nothing but carry one in its contract.
ghost use Rattle.bundle.specs.Laws.{FaultIsFirst, BodiesAreWhole};

// A directory is refused at the first pair that breaks its rule, or where it is cut short, and only then.
pub fn directory_fault_is_first() -> u8
    ensures { FaultIsFirst }
{
    0
}

// Where the directory is not refused, each record has as many bytes as its pair says.
pub fn bodies_are_whole() -> u8
    ensures { BodiesAreWhole }
{
    0
}
