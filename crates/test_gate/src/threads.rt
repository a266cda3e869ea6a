//! Two threads, each with one end.
ghost use Rattle.std.specs.Prelude.{if◌then◌else◌, ◌≡◌, ◌++◌, ◌∷◌, [], false, ◌+◌, IfOk, length};
ghost use Rattle.std.specs.List.{range_with_len};
ghost use Rattle.test_gate.specs.Numbers.{added, taken};

use crate::pact::Numbers;
use crate::turns::{add, take_all};
use std::alloc::{AllocError, Global};
use std::sync::Wait;
use std::thread::{Threads, join};
use turn_gate::{Left, Right};

/// Tries to add a number, and says whether the turn was won and there was memory.
#[tactic(auto, using(crate::proofs::Lists::adds_one))]
fn add_once(left: &mut Left<Numbers>, number: u64) -> bool
    requires { left.old.has ≡ false }
    ensures has { left.new.has ≡ false }
    ensures added { added left.new.own ≡
        (if result then added left.old.own ++ number ∷ [] else added left.old.own) }
{
    match add(left, number) {
        Some(room) => room,
        None => false,
    }
}

/// Adds a number, and tries again until it is there.
fn add_surely<W: Wait>(rt: &W, left: &mut Left<Numbers>, number: u64)
    requires { left.old.has ≡ false }
    ensures has { left.new.has ≡ false }
    ensures added { added left.new.own ≡ added left.old.own ++ number ∷ [] }
{
    for _ in rt.forever() {
        if add_once(left, number) {
            return;
        }
    }
    unreachable!()
}

/// Adds the numbers below `count`, one in each turn.
#[tactic(auto, using(crate::proofs::Lists::range_more))]
pub fn add_all<W: Wait>(rt: &W, mut left: Left<Numbers>, count: u64) -> Left<Numbers>
    requires { left.has ≡ false }
    ensures has { result.has ≡ false }
    ensures added { added result.own ≡ added left.own ++ range_with_len 0 count }
{
    for number in 0..count {
        add_surely(rt, &mut left, number);
    }
    left
}

/// Takes what it finds, in `count` turns.
pub fn take_often<W: Wait>(
    rt: &W,
    alloc: Global,
    mut right: Right<Numbers>,
    count: u64,
) -> Result<(Right<Numbers>, Vec<u64>), AllocError>
    requires { right.has ≡ false }
    ensures has { IfOk result (λ r. r.0.has ≡ false) }
    ensures taken { IfOk result (λ r. taken r.0.own ≡ taken right.own ++ r.1.items) }
    ensures turns { IfOk result (λ r. length r.0.own ≡ length right.own + count) }
{
    let mut all = Vec::new(alloc);
    for turn in 0..count {
        all.append(&mut take_all(rt, alloc, &mut right))?;
    }
    Ok((right, all))
}

/// Both at once.
pub fn across<R: Threads + Wait + Sync>(
    rt: &R,
    alloc: Global,
    left: Left<Numbers>,
    right: Right<Numbers>,
    count: u64,
) -> Result<(Left<Numbers>, Right<Numbers>, Vec<u64>), AllocError>
    requires { (left.has ≡ false) × (right.has ≡ false) }
    ensures has { IfOk result (λ r. (r.0.has ≡ false) × (r.1.has ≡ false)) }
    ensures added { IfOk result (λ r. added r.0.own ≡ added left.own ++ range_with_len 0 count) }
    ensures taken { IfOk result (λ r. taken r.1.own ≡ taken right.own ++ r.2.items) }
    ensures turns { IfOk result (λ r. length r.1.own ≡ length right.own + count) }
{
    let (left, taken) = join(
        rt,
        move || -> Left<Numbers>
            requires { left.has ≡ false }
            ensures has { result.has ≡ false }
            ensures added { added result.own ≡ added left.own ++ range_with_len 0 count }
        { add_all(rt, left, count) },
        move || -> Result<(Right<Numbers>, Vec<u64>), AllocError>
            requires { right.has ≡ false }
            ensures has { IfOk result (λ r. r.0.has ≡ false) }
            ensures taken { IfOk result (λ r. taken r.0.own ≡ taken right.own ++ r.1.items) }
            ensures turns { IfOk result (λ r. length r.0.own ≡ length right.own + count) }
        { take_often(rt, alloc, right, count) },
    );
    let (right, taken) = taken?;
    Ok((left, right, taken))
}
