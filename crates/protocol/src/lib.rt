// The theorems of the halving argument, for every commutative group of prime order.
//
// Each function here does nothing but carry one theorem in its contract, so that the crate is proved only with the theorem.
#![tactic(auto)]

ghost use Rattle.protocol.specs.Halving.{FoldingKeepsClaims, RulesPass};
ghost use Rattle.protocol.specs.Quick.{QuickDecides};
ghost use Rattle.protocol.specs.Weights.{MultipliesOut, WeightsExist};

// A round by the rules keeps a claim true.
pub fn folding_keeps_claims<E>() -> u8
    ensures { FoldingKeepsClaims E }
{
    0
}

// Following the rules from a true claim ends in a last pair that passes, whatever the challenges.
pub fn following_the_rules_passes<E>() -> u8
    ensures { RulesPass E }
{
    0
}

// The product by weights is the element that folding leaves, for G and for H.
pub fn weights_multiply_out<E>() -> u8
    ensures { MultipliesOut E }
{
    0
}

// For any challenges there are weights that keep the rule.
pub fn weights_exist() -> u8
    ensures { WeightsExist }
{
    0
}

// The quick check passes at every weight what both equations pass, and at two weights below the order only that.
pub fn quick_check_decides<E>() -> u8
    ensures { QuickDecides E }
{
    0
}
