//! Steps of a link's LCP end.

ghost use Rattle.std.specs.Prelude.{◌≡◌, IfOk, drop};
ghost use Rattle.lcp_end.specs.Steps.{opened, ticked, after_packet};

use crate::env::LinkEnv;
use crate::frames::packet_in;
use lcp_end::{LcpEnd, LcpOut};
use std::alloc::Global;
use std::marker::Model;
use wire_base::NoMemory;

/// An LCP end as a step leaves it, with what the step gave.
#[derive(Drop)]
pub(crate) struct LcpStep {
    pub(crate) lcp: LcpEnd,
    pub(crate) out: LcpOut,
}

impl Model for LcpStep {
    ghost use Rattle.lcp_end.specs.Steps.{Turn};

    ghost Value = { Turn };

    ghost view = { λ s. record { kept = s.lcp; out = s.out } };
}

/// It is opened.
pub(crate) fn open_lcp(alloc: Global, env: &LinkEnv, mut lcp: LcpEnd) -> Result<LcpStep, NoMemory>
    ensures { IfOk result (λ s. s ≡ opened env.now.moment lcp) }
{
    let mut out = LcpOut::new(alloc);
    lcp.open_link(alloc, env.moment, &mut out)?;
    Ok(LcpStep { lcp, out })
}

/// Time passes.
pub(crate) fn tick_lcp(alloc: Global, env: &LinkEnv, mut lcp: LcpEnd) -> Result<LcpStep, NoMemory>
    ensures { IfOk result (λ s. s ≡ ticked env.now.moment lcp) }
{
    let mut out = LcpOut::new(alloc);
    lcp.on_tick(alloc, env.moment, &mut out)?;
    Ok(LcpStep { lcp, out })
}

/// The packet in this frame came to it.
pub(crate) fn hear_lcp(
    alloc: Global,
    env: &LinkEnv,
    frame: &[u8],
    mut lcp: LcpEnd,
) -> Result<LcpStep, NoMemory>
    ensures { IfOk result (λ s. s ≡ after_packet (drop 2 frame.now) env.now.block env.now.moment lcp) }
{
    let mut out = LcpOut::new(alloc);
    lcp.on_packet(alloc, packet_in(frame), &env.block, env.moment, &mut out)?;
    Ok(LcpStep { lcp, out })
}
