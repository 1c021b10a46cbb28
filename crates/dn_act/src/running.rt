ghost use Rattle.std.specs.Prelude.{◌<◌, length, IfOk, OnErr};
ghost use Rattle.dn_act.specs.Access.{CountsFault};
ghost use Rattle.dn_act.specs.Action.{at_of, Performs, MayPerform};

use crate::actions::Action;
use crate::faults::Failed;
use crate::memories::Memory;

/// Carries out an action by its method, and answers the word that it found. The action's word lies in the pool.
/// A `Failed` access raised the memory's count of faults, and whether its action took place is not known.
pub fn exec<M: Memory>(mem: &mut M, action: &Action) -> Result<u64, Failed>
    requires { at_of action.now < length (M.words mem.old) }
    ensures ok { IfOk result (λ word.
        Performs action.now word (M.words mem.old) (M.words mem.new)) }
    ensures failed { OnErr result (MayPerform action.now (M.words mem.old) (M.words mem.new)) }
    ensures count { CountsFault result (M.faults mem.old) (M.faults mem.new) }
{
    match *action {
        Action::Load { at } => mem.load(at),
        Action::Store { at, word } => mem.store(at, word),
        Action::Cas { at, old, new } => mem.cas(at, old, new),
        Action::Or { at, bits } => mem.or(at, bits),
        Action::Add { at, by } => mem.add(at, by),
    }
}
