// What the definitions of this layer come to: each function carries one theorem in its contract.
ghost use Rattle.method.specs.Theorems.{VerdictIsPublished, TableDetermined};

use kind::kind::Kind;

// A verdict is a pass exactly when both published equations hold for the folded lists.
pub fn verdict_is_published<K: Kind>() -> u8
    ensures { VerdictIsPublished K.Kind.meaning }
{
    0
}

// A table is known by its challenges.
pub fn challenges_determine_table() -> u8
    ensures { TableDetermined }
{
    0
}
