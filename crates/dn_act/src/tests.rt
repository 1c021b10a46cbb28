ghost use Rattle.std.specs.Prelude.{◌≡◌};
ghost use Rattle.dn_act.specs.Action.{at_of};

use crate::actions::Action;
use crate::faults::Failed;
use crate::memories::Memory;
use crate::plain_pool::Plain;
use crate::running::exec;
use crate::sound_pool::Sound;
use std::process::Abort;
use std::test::Fail;

const AT: u32 = 7;

/// Carries out an action on word 7, and compares its answer.
fn expect<M: Memory>(rt: &impl Abort, pool: &mut M, action: Action, answer: Result<u64, Failed>)
    requires { at_of action ≡ 7 }
{
    assert!(rt; AT < pool.size());
    assert_eq!(rt; exec(pool, &action), answer, "at {action:?}");
}

#[test]
fn each_action_answers_the_word_it_found(rt: HostRuntime) -> Result<(), Fail> {
    let mut pool = Sound::new(rt.alloc(), 1)?;
    assert_eq!(rt; pool.size(), 99328);
    expect(&rt, &mut pool, Action::Store { at: AT, word: 0xf0 }, Ok(0));
    expect(&rt, &mut pool, Action::Or { at: AT, bits: 0x1f }, Ok(0xf0));
    expect(
        &rt,
        &mut pool,
        Action::Cas {
            at: AT,
            old: 0xf0,
            new: 2,
        },
        Ok(0xff),
    );
    expect(
        &rt,
        &mut pool,
        Action::Cas {
            at: AT,
            old: 0xff,
            new: u64::MAX,
        },
        Ok(0xff),
    );
    expect(&rt, &mut pool, Action::Add { at: AT, by: 3 }, Ok(u64::MAX));
    expect(&rt, &mut pool, Action::Load { at: AT }, Ok(2));
    assert!(rt; 99327 < pool.size());
    assert_eq!(rt; pool.word(AT), 2);
    assert_eq!(rt; pool.word(99327), 0);
    Ok(())
}

#[test]
fn listed_calls_fail(rt: HostRuntime) -> Result<(), Fail> {
    let failing = vec![in rt.alloc(); (2u64, true), (4, false)]?;
    let mut pool = Plain::new(rt.alloc(), 1, failing)?;
    expect(&rt, &mut pool, Action::Store { at: AT, word: 1 }, Ok(0));
    expect(
        &rt,
        &mut pool,
        Action::Store { at: AT, word: 2 },
        Err(Failed),
    );
    expect(&rt, &mut pool, Action::Load { at: AT }, Ok(2));
    expect(
        &rt,
        &mut pool,
        Action::Store { at: AT, word: 3 },
        Err(Failed),
    );
    expect(&rt, &mut pool, Action::Load { at: AT }, Ok(2));
    assert!(rt; AT < pool.size());
    assert_eq!(rt; pool.word(AT), 2);
    Ok(())
}
