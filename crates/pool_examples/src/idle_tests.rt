//! Workers for whom nothing waits take no processor time.

use crate::gates::Open;
use crate::pools::open;
use libc::types::timespec;
use libc::{CLOCK_PROCESS_CPUTIME_ID, clock_gettime};
use session_workers::Finished;
use std::process::Abort;
use std::sync::Wait;
use std::test::*;
use std::thread;
use std::time::{Clock, Duration};
use step_hub::Hub;
use worker_pool::{Pool, PoolPass, Serving, pool_run};

/// The processor time that this process took, in milliseconds.
fn processor_time() -> Option<u64> {
    let mut time = timespec {
        tv_sec: 0,
        tv_nsec: 0,
    };
    if clock_gettime(CLOCK_PROCESS_CPUTIME_ID, &mut time) != 0 {
        return None;
    }
    let seconds = u64::try_from(time.tv_sec).ok()?;
    let nanoseconds = u64::try_from(time.tv_nsec).ok()?;
    Some(
        seconds
            .saturating_mul(1_000)
            .saturating_add(nanoseconds / 1_000_000),
    )
}

/// Puts nothing for a second, and measures the processor time of it.
#[derive(Drop)]
struct Still<'a, C: Clock> {
    clock: &'a C,
    spent: Option<u64>,
    given: u64,
}

impl<'a, H: Hub, C: Clock> Serving<H> for Still<'a, C> {
    ghost use Rattle.std.specs.Prelude.{⊤};

    ghost given = { λ s. s.given };

    ghost puts = { λ s. 0 };

    ghost serves = { λ before after. ⊤ };

    fn serve<W: Wait>(&mut self, _rt: &W, _pool: &Pool<H>, _pass: &mut PoolPass) {
        let before = processor_time();
        thread::sleep(self.clock, Duration::from_millis(1_000));
        let after = processor_time();
        self.spent = before.zip(after).map(|(a, b)| b.saturating_sub(a));
    }

    fn finished<W: Wait>(
        &mut self,
        rt: &W,
        _pool: &Pool<H>,
        _pass: &mut PoolPass,
        _finished: Finished,
    ) {
        for _ in rt.forever() {
            if self.given < u64::MAX {
                break;
            }
        }
        self.given += 1;
    }
}

#[test]
fn idle_workers_sleep(rt: HostRuntime) -> Result<(), Fail> {
    let (pool, mut pass) = open(rt.alloc(), false)?;
    let mut still = Still {
        clock: &rt,
        spent: None,
        given: 0,
    };
    let tally = pool_run(&rt, &pool, &mut pass, 4, &Open, &mut still);
    assert_eq!(rt; (tally.taken, still.given), (0, 0));
    let spent = still.spent.ok_or("no processor time is told")?;
    assert!(rt; spent < 200, "{spent} ms");
    Ok(())
}
