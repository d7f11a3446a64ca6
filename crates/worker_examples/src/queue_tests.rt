ghost use Rattle.session_workers.specs.Passes.{IsPassIn, IsOpener};

use crate::shared::*;
use session_workers::*;
use std::alloc::Global;
use std::process::Abort;
use std::sync::Wait;
use std::sync::atomic::AtomicU64;
use std::sync::atomic::Ordering::SeqCst;
use std::test::*;
use std::thread;
use std::thread::{Threads, join};
use step_hub::Hub;

/// Holds number 1 until number 2 is done, or for a million turns.
#[derive(Drop)]
struct SecondFirst {
    done: AtomicU64,
    met: AtomicU64,
}

impl SecondFirst {
    fn new() -> SecondFirst {
        SecondFirst {
            done: AtomicU64::new(0),
            met: AtomicU64::new(0),
        }
    }
}

impl Gate for SecondFirst {
    fn before(&self, number: u64) {
        if number != 1 {
            return;
        }
        for _ in 0..1_000_000u32 {
            if self.done.load(SeqCst) == 1 {
                self.met.store(1, SeqCst);
                return;
            }
            thread::yield_now();
        }
    }

    fn after(&self, number: u64) {
        if number == 2 {
            self.done.store(1, SeqCst);
        }
    }
}

/// Two workers, side by side.
pub fn work_two<R: Threads + Wait + Sync, H: Hub + Send, G: Gate + Sync>(
    rt: &R,
    shared: &Shared<H>,
    mut one: Pass,
    mut two: Pass,
    gate: &G,
) -> ((u64, u8), (u64, u8))
    requires { IsPassIn shared.now one × IsPassIn shared.now two }
{
    join(
        rt,
        move ||
            requires { IsPassIn shared.now one }
        { work(rt, shared, &mut one, gate) },
        move ||
            requires { IsPassIn shared.now two }
        { work(rt, shared, &mut two, gate) },
    )
}

/// Number 1 went this way and number 2 that way.
pub fn are(first: (u64, u8), second: (u64, u8), ways: (u8, u8)) -> bool {
    let (one, two) = if first.0 == 1 {
        (first, second)
    } else {
        (second, first)
    };
    one == (1, ways.0) && two == (2, ways.1)
}

#[test]
fn two_workers_take_each_item_once(rt: HostRuntime) -> Result<(), Fail> {
    let alloc = rt.alloc();
    let (shared, mut pass) = open_lns(alloc, None, memory_hub(alloc, false))?;
    let one = split_pass(&shared, &mut pass);
    let two = split_pass(&shared, &mut pass);
    assert_eq!(rt; put_one(&rt, alloc, &shared, &mut pass, IP), 0);
    assert_eq!(rt; put_one(&rt, alloc, &shared, &mut pass, CONTROL), 0);
    let gate = SecondFirst::new();
    let (first, second) = work_two(&rt, &shared, one, two, &gate);
    // number 1 waited for number 2, so the two were worked side by side
    assert_eq!(rt; gate.met.load(SeqCst), 1);
    assert!(rt; are(first, second, (2, 3)));
    assert_eq!(rt; work(&rt, &shared, &mut pass, &gate), (0, 0));
    // either may be handed over first
    let first = take(&rt, &shared, &mut pass);
    let second = take(&rt, &shared, &mut pass);
    assert!(rt; are(first, second, (2, 3)));
    assert_eq!(rt; take(&rt, &shared, &mut pass), (0, 0));
    Ok(())
}

#[test]
fn a_frame_goes_up_before_a_message_that_came_first(rt: HostRuntime) -> Result<(), Fail> {
    let alloc = rt.alloc();
    let (shared, mut pass) = open_lns(alloc, None, memory_hub(alloc, false))?;
    assert!(rt; establish(&shared, &mut pass));
    let one = split_pass(&shared, &mut pass);
    let two = split_pass(&shared, &mut pass);
    assert_eq!(rt; put_one(&rt, alloc, &shared, &mut pass, SCCRQ), 0);
    assert_eq!(rt; put_one(&rt, alloc, &shared, &mut pass, IP), 0);
    let gate = SecondFirst::new();
    let (first, second) = work_two(&rt, &shared, one, two, &gate);
    assert_eq!(rt; gate.met.load(SeqCst), 1);
    assert!(rt; are(first, second, (3, 1)));
    Ok(())
}

/// Puts so many datagrams, and counts those that were taken in.
fn put_many<W: Wait, H: Hub>(
    rt: &W,
    alloc: Global,
    shared: &Shared<H>,
    pass: &mut Pass,
    count: u32,
) -> u32
    requires { IsPassIn shared.now pass.old × IsOpener pass.old }
    ensures { IsPassIn shared.now pass.new × IsOpener pass.new }
{
    for k in 0..count {
        if put_one(rt, alloc, shared, pass, IP) != 0 {
            return k;
        }
    }
    count
}

#[test]
fn a_full_queue_refuses_the_next(rt: HostRuntime) -> Result<(), Fail> {
    let alloc = rt.alloc();
    let (shared, mut pass) = open_lns(alloc, None, memory_hub(alloc, false))?;
    assert_eq!(rt; put_many(&rt, alloc, &shared, &mut pass, 2_000), 1_024);
    assert_eq!(rt; put_one(&rt, alloc, &shared, &mut pass, IP), 1_024);
    Ok(())
}

/// Works an item: 1 where its frame goes up, and 2 where it is dropped.
fn way<W: Wait, H: Hub>(rt: &W, shared: &Shared<H>, pass: &mut Pass) -> u8
    requires { IsPassIn shared.now pass.old }
    ensures { IsPassIn shared.now pass.new }
{
    work(rt, shared, pass, &Open).1
}

#[test]
fn a_datagram_is_judged_by_what_its_worker_sees(rt: HostRuntime) -> Result<(), Fail> {
    let alloc = rt.alloc();
    let (shared, mut pass) = open_lns(alloc, None, memory_hub(alloc, false))?;
    let mut worker = split_pass(&shared, &mut pass);
    assert_eq!(rt; put_many(&rt, alloc, &shared, &mut pass, 2), 2);
    assert_eq!(rt; way(&rt, &shared, &mut worker), 2);
    // the session lives from now on, and its datagram was put before
    assert!(rt; establish(&shared, &mut worker));
    assert_eq!(rt; way(&rt, &shared, &mut worker), 1);
    Ok(())
}

#[test]
fn a_workers_pass_comes_back(rt: HostRuntime) -> Result<(), Fail> {
    let alloc = rt.alloc();
    let (shared, mut pass) = open_lns(alloc, None, memory_hub(alloc, false))?;
    let mut worker = split_pass(&shared, &mut pass);
    assert_eq!(rt; put_many(&rt, alloc, &shared, &mut pass, 2), 2);
    assert_eq!(rt; way(&rt, &shared, &mut worker), 2);
    join_pass(&shared, &mut pass, worker);
    // the opener puts as before, and takes what the worker left
    assert_eq!(rt; put_many(&rt, alloc, &shared, &mut pass, 1), 1);
    assert_eq!(rt; way(&rt, &shared, &mut pass), 2);
    assert_eq!(rt; way(&rt, &shared, &mut pass), 2);
    assert_eq!(rt; way(&rt, &shared, &mut pass), 0);
    Ok(())
}
