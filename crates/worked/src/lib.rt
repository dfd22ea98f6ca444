// The worked examples over the bench lists, held against the definitions.
#![tactic(auto)]

ghost use Rattle.worked.specs.Worked.{Worked};

// The worked examples, as one list against the definitions.
pub fn worked_examples() -> u8
    ensures { Worked }
{
    0
}
