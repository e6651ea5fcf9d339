//! The laws of the table. They speak of the rule and of the machine alone, and the functions do
//! nothing.
ghost use Rattle.rv_slots.specs.Says.{RuleSays};
ghost use Rattle.rv_slots.specs.Steps.{ClaimIsStep, PutIsStep, PublishIsStep, PinIsStep};
ghost use Rattle.rv_slots.specs.Steps.{GetIsStep, DoneIsStep};
ghost use Rattle.rv_slots.specs.Steps.{UnpinIsStep, UnpinStrayIsStep, FreeIsStep};

/// Each of the eight kinds of exchange is the step of the machine that its name says, and keeps the
/// rule.
pub fn each_exchange_is_a_step()
    ensures claim { ClaimIsStep }
    ensures put { PutIsStep }
    ensures publish { PublishIsStep }
    ensures pin { PinIsStep }
    ensures get { GetIsStep }
    ensures done { DoneIsStep }
    ensures unpin { UnpinIsStep }
    ensures unpin_stray { UnpinStrayIsStep }
    ensures free { FreeIsStep }
{}

/// What the rule says of the table between any two exchanges of any threads.
pub fn the_rule_says()
    ensures { RuleSays }
{}
