//! Pools that end by themselves.

use crate::batch::Batch;
use crate::days::Day;
use crate::gates::{InOrder, Open, Pairs};
use crate::pools::open;
use session_workers::Gate;
use std::alloc::Global;
use std::process::Abort;
use std::sync::Wait;
use std::test::*;
use std::thread::Threads;
use wire_base::NoMemory;
use worker_pool::pool_run;

/// What a pool did: what the calling thread put and was given, how often the queue was full, its tally, how many outputs its turns gave
/// and how many turns were refused, the records that its hub was left with, and the numbers given, in their order.
#[derive(Drop)]
struct Told {
    counts: (u64, u64, u64),
    tally: (u64, u64, u64),
    turns: (usize, u64),
    records: u32,
    numbers: Vec<u64>,
}

/// Runs a pool for the batch. Where `fails` is set, the store fails at the first turn.
fn run_over<R: Threads + Wait + Sync, G: Gate + Sync>(
    rt: &R,
    alloc: Global,
    fails: bool,
    workers: u32,
    gate: &G,
    mut batch: Batch<'_, G>,
) -> Result<Told, NoMemory> {
    let (pool, mut pass) = open(alloc, fails)?;
    let tally = pool_run(rt, &pool, &mut pass, workers, gate, &mut batch);
    let hub = pool.into_shared().into_hub();
    Ok(Told {
        counts: batch.counts(),
        tally: (tally.taken, tally.up, tally.dropped),
        turns: batch.turns(),
        records: hub.records(),
        numbers: batch.numbers,
    })
}

/// Runs a pool for the batch, over a store that doesn't fail.
fn run<R: Threads + Wait + Sync, G: Gate + Sync>(
    rt: &R,
    alloc: Global,
    workers: u32,
    gate: &G,
    batch: Batch<'_, G>,
) -> Result<Told, NoMemory> {
    run_over(rt, alloc, false, workers, gate, batch)
}

/// The numbers from 1 on, in their order.
fn is_count(numbers: &[u64]) -> bool {
    (1..).zip(numbers.iter()).all(|(k, number)| k == *number)
}

#[test]
fn a_worker_waits_for_another(rt: HostRuntime) -> Result<(), Fail> {
    let gate = Pairs::new();
    let told = run(
        &rt,
        rt.alloc(),
        2,
        &gate,
        Batch::new(&gate, rt.alloc(), Day::Strange, 2),
    )?;
    assert_eq!(rt; told.counts, (2, 2, 0));
    assert_eq!(rt; gate.met(), 1);
    Ok(())
}

// In each pair one of the two waits for the other, so the one worker has to wake.
#[test]
fn a_worker_that_sleeps_wakes(rt: HostRuntime) -> Result<(), Fail> {
    let gate = Pairs::new();
    let told = run(
        &rt,
        rt.alloc(),
        1,
        &gate,
        Batch::in_pairs(&gate, rt.alloc(), Day::Strange, 400),
    )?;
    assert_eq!(rt; told.counts, (400, 400, 0));
    assert_eq!(rt; gate.met(), 200);
    Ok(())
}

/// The numbers that are given back of 3,000 datagrams, in their order.
fn given_back<R: Threads + Wait + Sync>(
    rt: &R,
    alloc: Global,
    workers: u32,
) -> Result<Told, NoMemory> {
    let mut told = run(
        rt,
        alloc,
        workers,
        &Open,
        Batch::new(&Open, alloc, Day::Strange, 3_000),
    )?;
    if told.numbers.sort().is_err() {
        return Err(NoMemory);
    }
    Ok(told)
}

#[test]
fn each_item_comes_back_once(rt: HostRuntime) -> Result<(), Fail> {
    for workers in [1, 2, 4] {
        let told = given_back(&rt, rt.alloc(), workers)?;
        assert_eq!(rt; told.tally, (3_000, 0, 2_000), "{workers} workers");
        assert_eq!(rt; told.numbers.len(), 3_000, "{workers} workers");
        assert!(rt; is_count(told.numbers.as_slice()), "{workers} workers");
    }
    Ok(())
}

#[test]
fn without_workers_the_calling_thread_does_all(rt: HostRuntime) -> Result<(), Fail> {
    let told = run(
        &rt,
        rt.alloc(),
        0,
        &Open,
        Batch::new(&Open, rt.alloc(), Day::Strange, 1_025),
    )?;
    assert_eq!(rt; told.counts, (1_025, 1_025, 1));
    assert_eq!(rt; told.tally, (1_025, 0, 684));
    assert_eq!(rt; told.numbers.len(), 1_025);
    assert!(rt; is_count(told.numbers.as_slice()));
    Ok(())
}

// The calling thread works beside the worker, so the order in which items are given is the schedule's.
#[test]
fn a_gate_lets_one_follow_another(rt: HostRuntime) -> Result<(), Fail> {
    let gate = InOrder::new();
    let told = run(
        &rt,
        rt.alloc(),
        1,
        &gate,
        Batch::new(&gate, rt.alloc(), Day::Strange, 100),
    )?;
    assert_eq!(rt; told.counts, (100, 100, 0));
    assert_eq!(rt; gate.late(), 0);
    Ok(())
}

// Each message of the call is begun once the one before is done, by whichever thread.
#[test]
fn turns_come_back_with_what_they_gave(rt: HostRuntime) -> Result<(), Fail> {
    for workers in [0, 1, 3] {
        let gate = InOrder::new();
        let batch = Batch::new(&gate, rt.alloc(), Day::Call, 9);
        let told = run(&rt, rt.alloc(), workers, &gate, batch)?;
        assert_eq!(rt; gate.late(), 0, "{workers} workers");
        assert_eq!(rt; told.counts, (9, 9, 0), "{workers} workers");
        // the LCP requests go up
        assert_eq!(rt; told.tally, (9, 5, 0), "{workers} workers");
        // an SCCRP, an acknowledgement, an ICRP, a request of LCP and an acknowledgement
        assert_eq!(rt; told.turns, (5, 0), "{workers} workers");
        assert_eq!(rt; told.records, 4, "{workers} workers");
    }
    Ok(())
}

// The third datagram is the first SCCRQ. The store refuses what its turn leaves, so no tunnel is opened. What was put is finished.
#[test]
fn a_refused_turn_is_the_last_that_is_put(rt: HostRuntime) -> Result<(), Fail> {
    let batch = Batch::in_pairs(&Open, rt.alloc(), Day::Opening, 400);
    let told = run_over(&rt, rt.alloc(), true, 2, &Open, batch)?;
    assert_eq!(rt; told.counts, (4, 4, 0));
    assert_eq!(rt; told.tally, (4, 0, 3));
    assert_eq!(rt; told.turns, (0, 1));
    assert_eq!(rt; told.records, 0);
    Ok(())
}

// Here the queue is full before any item is worked, so the refusal is known only when 1,026 were put.
#[test]
fn what_waits_when_a_turn_is_refused_is_finished(rt: HostRuntime) -> Result<(), Fail> {
    let batch = Batch::new(&Open, rt.alloc(), Day::Opening, 3_000);
    let told = run_over(&rt, rt.alloc(), true, 0, &Open, batch)?;
    assert_eq!(rt; told.counts, (1_026, 1_026, 3));
    assert_eq!(rt; told.tally, (1_026, 0, 684));
    assert_eq!(rt; told.turns, (0, 342));
    Ok(())
}
