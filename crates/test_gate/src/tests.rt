ghost use Rattle.std.specs.Prelude.{◌≡◌, false};

use super::*;
use std::alloc::AllocError;
use std::sync::Wait;
use std::sync::atomic::AtomicBool;
use std::sync::atomic::Ordering::SeqCst;
use std::test::Fail;
use std::thread::{Threads, join, sleep};
use std::time::{Clock, Duration};
use turn_gate::{Left, Right, open};

#[test]
fn a_thousand_turns_each(rt: HostRuntime) -> Result<(), Fail> {
    let row = Row {
        items: Vec::new(rt.alloc()),
        name: 7,
    };
    let Ok((left, right)) = open::<Numbers>(rt.alloc(), row) else {
        return Err(AllocError.into());
    };
    let (_left, mut right, mut taken) = across(&rt, rt.alloc(), left, right, 1000)?;
    taken.append(&mut take_all(&rt, rt.alloc(), &mut right))?;
    assert_eq!(rt; taken.len(), 1000);
    for (i, number) in taken.iter().enumerate() {
        assert_eq!(rt; *number, i as u64);
    }
    Ok(())
}

const NOT_VISITED: Visited = Visited {
    left: false,
    right: false,
};

#[test]
fn a_turn_keeps_the_other_end_out(rt: HostRuntime) -> Result<(), Fail> {
    let Ok((mut left, mut right)) = open::<Visits>(rt.alloc(), NOT_VISITED) else {
        return Err(AllocError.into());
    };
    assert_eq!(rt;
        visit_meanwhile(&mut left, &mut right),
        Some((None, Some(true)))
    );
    Ok(())
}

// Holds the turn for a while, and says so.
fn hold<R: Clock>(rt: &R, mut left: Left<Visits>, held: &AtomicBool)
    requires { left.has ≡ false }
{
    let turn = left.try_turn();
    held.store(true, SeqCst);
    if let Some(mut turn) = turn {
        sleep(rt, Duration::from_millis(50));
        turn.state().left = true;
        left.end(turn, ());
    }
}

// Asks for the turn once it is held.
fn ask<R: Wait>(rt: &R, mut right: Right<Visits>, held: &AtomicBool) -> bool
    requires { right.has ≡ false }
{
    for _ in rt.forever() {
        if held.load(SeqCst) {
            break;
        }
    }
    visit_right(rt, &mut right)
}

fn hold_and_ask<R: Threads + Wait + Clock + Sync>(
    rt: &R,
    left: Left<Visits>,
    right: Right<Visits>,
) -> bool
    requires { (left.has ≡ false) × (right.has ≡ false) }
{
    let held = AtomicBool::new(false);
    let flag = &held;
    let (_, found) = join(
        rt,
        move ||
            requires { left.has ≡ false }
        { hold(rt, left, flag) },
        move ||
            requires { right.has ≡ false }
        { ask(rt, right, flag) },
    );
    found
}

#[test]
fn a_turn_is_waited_for(rt: HostRuntime) -> Result<(), Fail> {
    let Ok((left, right)) = open::<Visits>(rt.alloc(), NOT_VISITED) else {
        return Err(AllocError.into());
    };
    assert!(rt; hold_and_ask(&rt, left, right));
    Ok(())
}
