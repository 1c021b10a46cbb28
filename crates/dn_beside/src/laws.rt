//! What is so of steps, as functions without work: what each says is its contract.

ghost use Rattle.std.specs.Prelude.{◌≡◌};
ghost use Rattle.dn_beside.specs.Pool.{Pool, IsWhole};
ghost use Rattle.dn_beside.specs.Step.{Acting, IsStepBy, IsQuiet, by_nobody};

/// Nothing happens: that is a step of nobody, which keeps all.
pub fn still()
    ensures step { (p : Pool) → IsWhole p → IsStepBy by_nobody p p }
    ensures quiet { (p : Pool) → IsQuiet p p }
{}

/// Two steps of one actor are a step of it.
pub fn chained()
    ensures step { (who : Acting) (p q r : Pool) → IsStepBy who p q → IsStepBy who q r
        → IsStepBy who p r }
    ensures quiet { (p q r : Pool) → IsQuiet p q → IsQuiet q r → IsQuiet p r }
{}
