use crate::pair::{Pair, new_pair, stopping_pair};
use crate::sites::LacSite;
use disk_core::{MemoryDisk, StopDisk};
use end_model::{Event, Out, address_of};
use end_store::{Store, StoreStop};
use std::alloc::Global;
use std::test::Fail;

/// The journal of the LAC 1, worked out from the format: kind 1 and number 1, the ceilings of its tunnel and session ids, which are 64
/// from the first id on, its tunnel 1 to the tunnel 1 of 10.0.0.2 with a window of 8 and the flags 3, and its call 1 of port 1 in tunnel
/// 1, which is the peer's call 1. A port stands as ffff0000 and its number.
const LAC_FILE: &[u8; 161] = b"OL2TPCKP1\x01\x01\0\0\0\0\0\0\0\0\0\0\0\0\0\0\0\0\0\0\0\0C\
O\x01\x01\0\0\0\x40\0\0\0\0\0\0\0\0\0\0\0\0\0\0\0\0\0\0\0\0\0\0\0\0\0\
O\x01\x02\0\0\0\x40\0\0\0\0\0\0\0\0\0\0\0\0\0\0\0\0\0\0\0\0\0\0\0\0\0\
O\x02\0\x01\0\x01\x0a\0\0\x02\0\x08\0\x03\0\0\0\0\0\0\0\0\0\0\0\0\0\0\0\0\0\0\
O\x04\0\x01\0\x01\0\x01\xff\xff\0\0\0\x01\0\0\0\0\0\0\0\0\0\0\0\0\0\0\0\0\0\0\
C";

/// The journal of the LNS 2, worked out from the format and the messages in their order: kind 2 and number 2; the SCCRQ draws a tunnel
/// id, so its ceiling is first; the SCCCN brings the tunnel 1 up, to the tunnel 1 of 10.0.0.1 with a window of 8 and the flags 3, which
/// the SCCRQ told; the ICRQ draws a session id; and the ICCN brings the call 1 in tunnel 1 up, the peer's call 1, of which an LNS knows
/// no subscriber, and whose messages have no numbers.
const LNS_FILE: &[u8; 161] = b"OL2TPCKP1\x02\x02\0\0\0\0\0\0\0\0\0\0\0\0\0\0\0\0\0\0\0\0C\
O\x01\x01\0\0\0\x40\0\0\0\0\0\0\0\0\0\0\0\0\0\0\0\0\0\0\0\0\0\0\0\0\0\
O\x02\0\x01\0\x01\x0a\0\0\x01\0\x08\0\x03\0\0\0\0\0\0\0\0\0\0\0\0\0\0\0\0\0\0\
O\x01\x02\0\0\0\x40\0\0\0\0\0\0\0\0\0\0\0\0\0\0\0\0\0\0\0\0\0\0\0\0\0\
O\x04\0\x01\0\x01\0\x01\0\0\0\0\0\0\0\0\0\0\0\0\0\0\0\0\0\0\0\0\0\0\0\0\
C";

/// The journal of the LAC that started again, worked out from the format: that of before, and behind it the ceilings of its tunnel ids,
/// which is 128 from the id 65 of its recovery tunnel on, and of its draw numbers, which is 64 from the first one on.
const STARTED_FILE: &[u8; 225] = b"OL2TPCKP1\x01\x01\0\0\0\0\0\0\0\0\0\0\0\0\0\0\0\0\0\0\0\0C\
O\x01\x01\0\0\0\x40\0\0\0\0\0\0\0\0\0\0\0\0\0\0\0\0\0\0\0\0\0\0\0\0\0\
O\x01\x02\0\0\0\x40\0\0\0\0\0\0\0\0\0\0\0\0\0\0\0\0\0\0\0\0\0\0\0\0\0\
O\x02\0\x01\0\x01\x0a\0\0\x02\0\x08\0\x03\0\0\0\0\0\0\0\0\0\0\0\0\0\0\0\0\0\0\
O\x04\0\x01\0\x01\0\x01\xff\xff\0\0\0\x01\0\0\0\0\0\0\0\0\0\0\0\0\0\0\0\0\0\0\
O\x01\x01\0\0\0\x80\0\0\0\0\0\0\0\0\0\0\0\0\0\0\0\0\0\0\0\0\0\0\0\0\0\
O\x01\x03\0\0\0\x40\0\0\0\0\0\0\0\0\0\0\0\0\0\0\0\0\0\0\0\0\0\0\0\0\0\
C";

/// The SCCRQ of the LAC that started again, worked out from the messages: its recovery tunnel has the id 65, it asks for the tunnel that
/// is 1 at both ends, and its draw number is 1.
const ATTEMPT: &[u8; 102] = b"\xc8\x02\0\x66\0\0\0\0\0\0\0\0\
\x80\x08\0\0\0\0\0\x01\x80\x08\0\0\0\x02\x01\0\x80\x0a\0\0\0\x03\0\0\0\x03\x80\x0a\0\0\0\x07lac1\
\x80\x08\0\0\0\x09\0\x41\x80\x08\0\0\0\x0a\0\x08\0\x0c\0\0\0\x4c\0\x03\0\0\x75\x30\
\x80\x10\0\0\0\x4d\0\0\0\0\0\x01\0\0\0\x01\0\x0a\xff\xff\0\x01\0\0\0\x01";

/// What stands behind it after the close of its tunnel and the next ring: that the tunnel 1 went, and the ceiling of its session ids,
/// which is 128 from the id 65 on. Its tunnel ids are below their ceiling.
const RUNG_AGAIN: &[u8; 65] = b"\
O\x03\0\x01\0\0\0\0\0\0\0\0\0\0\0\0\0\0\0\0\0\0\0\0\0\0\0\0\0\0\0\0\
O\x01\x02\0\0\0\x80\0\0\0\0\0\0\0\0\0\0\0\0\0\0\0\0\0\0\0\0\0\0\0\0\0\
C";

// Functions without clauses: a test that calls them is proved at little cost.

/// Both ends, whose call is up.
fn talked(alloc: Global) -> Option<Pair<MemoryDisk>> {
    let mut pair = new_pair(alloc)?;
    pair.talk().ok()?;
    Some(pair)
}

/// Nothing is on its way, and the disks hold these bytes.
fn has_files(pair: &Pair<MemoryDisk>, lac: &[u8], lns: &[u8]) -> bool {
    pair.is_quiet() && pair.lac.disk.bytes() == lac && pair.lns.disk.bytes() == lns
}

/// The call comes up until nothing is on its way, and the disks hold these bytes then.
fn leaves_files(alloc: Global, lac: &[u8], lns: &[u8]) -> bool {
    match talked(alloc) {
        None => false,
        Some(pair) => has_files(&pair, lac, lns),
    }
}

/// The bytes begin with a file up to so many records.
fn has_first(bytes: &[u8], file: &[u8; 161], records: u32) -> bool {
    let end = 32 + 32 * records.min(4) as usize;
    bytes.starts_with(&file[..end])
}

/// The call comes up until the disk of the LAC stops: the step in which it does isn't made, nor is the next one.
fn stops(pair: &mut Pair<StopDisk>) -> bool {
    pair.talk() == Err(StoreStop::StoreFault)
        && pair.lac.stop_of(&Event::Tick) == Some(StoreStop::Halted)
}

/// The pair whose call comes up until the disk of the LAC stops at this call of the device.
fn stopped_at(alloc: Global, call: u64) -> Option<Pair<StopDisk>> {
    let mut pair = stopping_pair(alloc, call.saturating_sub(1))?;
    if stops(&mut pair) { Some(pair) } else { None }
}

/// The LAC has these tunnels, nothing is on its way to the LNS, and the LNS has so many records.
fn has_heard(alloc: Global, pair: &Pair<StopDisk>, tunnels: (usize, u16, u16), heard: u32) -> bool {
    let lns = pair.lns.disk.bytes();
    pair.lac.tunnels(alloc) == Ok(tunnels)
        && pair.to_lns.len() == 0
        && lns.len() == 33 + 32 * heard.min(4) as usize
        && has_first(lns, LNS_FILE, heard)
}

/// The step in which the disk of the LAC stops at this call isn't made, nor is the next one: the LAC has these tunnels, as before, nothing
/// is on its way to the LNS, and the LNS has as many records as before.
fn stops_at(alloc: Global, call: u64, tunnels: (usize, u16, u16), heard: u32) -> bool {
    match stopped_at(alloc, call) {
        None => false,
        Some(pair) => has_heard(alloc, &pair, tunnels, heard),
    }
}

/// The disk opens as that of the LAC, with so many records.
fn opens_with(alloc: Global, disk: &mut MemoryDisk, found: u32) -> bool {
    let records = match Store::open(alloc, disk, 1, 1) {
        Ok(store) => store.records(),
        Err(_) => return false,
    };
    records == found && has_first(disk.bytes(), LAC_FILE, found)
}

/// The disk of the LAC stops at this call as the call comes up, and crashes: with so many records it opens then.
fn is_left(alloc: Global, call: u64, kept: bool, found: u32) -> bool {
    let Some(pair) = stopped_at(alloc, call) else {
        return false;
    };
    let mut disk = Box::into_inner(pair.into_lac_disk()).into_disk();
    disk.after_crash(kept);
    opens_with(alloc, &mut disk, found)
}

/// The LAC whose call was up is opened again after a crash.
fn opened_again(alloc: Global) -> Option<LacSite<MemoryDisk>> {
    let pair = talked(alloc)?;
    let mut disk = pair.into_lac_disk();
    disk.after_crash(false);
    LacSite::open(alloc, disk)
}

/// Whether outputs are one datagram to the node 2, with these bytes.
fn are_sent(outputs: &[Out], wanted: &[u8]) -> bool {
    match outputs {
        [Out::Send { peer, bytes, .. }] => *peer == address_of(2) && bytes.as_slice() == wanted,
        _ => false,
    }
}

/// Whether the start of a LAC asks for the recovery of its tunnel, and gives nothing else.
fn asks(lac: &mut LacSite<MemoryDisk>) -> Option<bool> {
    let given = lac.start().ok()?;
    Some(are_sent(given.outputs.as_slice(), ATTEMPT))
}

/// The same LAC, and whether its start asks for the recovery of its tunnel, and gives nothing else.
fn started_again(alloc: Global) -> Option<(bool, LacSite<MemoryDisk>)> {
    let mut lac = opened_again(alloc)?;
    let asked = asks(&mut lac)?;
    Some((asked, lac))
}

/// The LAC has these tunnels, and its disk has this file.
fn has_file(
    alloc: Global,
    lac: &LacSite<MemoryDisk>,
    tunnels: (usize, u16, u16),
    file: &[u8],
) -> bool {
    lac.tunnels(alloc) == Ok(tunnels) && lac.disk.bytes() == file
}

/// A LAC that starts again asks for the recovery of its tunnel, has that tunnel, and its disk has this file.
fn recovers(alloc: Global, file: &[u8]) -> bool {
    match started_again(alloc) {
        None => false,
        Some((asked, lac)) => asked && has_file(alloc, &lac, (1, 1, 1), file),
    }
}

/// The start of the LAC, whose disk stops at this call, isn't made: it has no tunnel, and halts.
fn start_stops(lac: &mut LacSite<StopDisk>, alloc: Global) -> bool {
    lac.start().err() == Some(StoreStop::StoreFault)
        && lac.tunnels(alloc) == Ok((0, 0, 0))
        && lac.stop_of(&Event::Tick) == Some(StoreStop::Halted)
}

/// The LAC whose start stops at this call of its disk.
fn unstarted(alloc: Global, call: u64) -> Option<LacSite<StopDisk>> {
    let mut lac = opened_again(alloc)?.stopping(alloc, call.saturating_sub(1))?;
    if start_stops(&mut lac, alloc) {
        Some(lac)
    } else {
        None
    }
}

/// With how many records the disk of the LAC opens that begins with so many of this file.
fn begun(alloc: Global, disk: &mut MemoryDisk, file: &[u8; 225]) -> Option<u32> {
    let records = match Store::open(alloc, disk, 1, 1) {
        Ok(store) => store.records(),
        Err(_) => return None,
    };
    let end = 32 + 32 * records.min(6) as usize;
    if disk.bytes().starts_with(&file[..end]) {
        Some(records)
    } else {
        None
    }
}

/// The start of the LAC stops at this call of its disk, which crashes: with how many records of this file it opens then.
fn start_leaves(alloc: Global, call: u64, kept: bool, file: &[u8; 225]) -> Option<u32> {
    let lac = unstarted(alloc, call)?;
    let mut disk = Box::into_inner(lac.into_disk()).into_disk();
    disk.after_crash(kept);
    begun(alloc, &mut disk, file)
}

/// The store has these ceilings of tunnel and session ids, so many records, and no tunnel.
fn holds_ceilings(store: &Store, ceiling: u32, records: u32) -> bool {
    let book = store.book();
    book.ceiling(1) == ceiling
        && book.ceiling(2) == ceiling
        && book.tunnels().is_empty()
        && book.calls().is_empty()
        && store.records() == records
}

/// The file that the store of a LAC opens has these ceilings of tunnel and session ids, so many records, and no tunnel.
fn has_ceilings(alloc: Global, disk: &mut MemoryDisk, ceiling: u32, records: u32) -> bool {
    match Store::open(alloc, disk, 1, 1) {
        Ok(store) => holds_ceilings(&store, ceiling, records),
        Err(_) => false,
    }
}

/// A ring at a LAC whose only tunnel isn't recovered leaves its tunnel and its disk as they were.
fn is_unrung(alloc: Global, file: &[u8]) -> bool {
    let Some((_, mut lac)) = started_again(alloc) else {
        return false;
    };
    lac.stop_of(&Event::Ring { port: 1 }).is_none() && has_file(alloc, &lac, (1, 1, 1), file)
}

/// A LAC that started again, whose tunnel is closed.
fn closed_again(alloc: Global) -> Option<LacSite<MemoryDisk>> {
    let (_, mut lac) = started_again(alloc)?;
    match lac.stop_of(&Event::CloseTunnel { tunnel: 1 }) {
        None => Some(lac),
        Some(_) => None,
    }
}

/// The same LAC, whose first port rings.
fn rung_again(alloc: Global) -> Option<LacSite<MemoryDisk>> {
    let mut lac = closed_again(alloc)?;
    match lac.stop_of(&Event::Ring { port: 1 }) {
        None => Some(lac),
        Some(_) => None,
    }
}

/// The LAC has one tunnel, with this id, and its disk begins as this file before its end, and goes on with these bytes.
fn has_rung(
    alloc: Global,
    lac: &LacSite<MemoryDisk>,
    tunnel: u16,
    file: &[u8; 225],
    behind: &[u8],
) -> bool {
    lac.tunnels(alloc) == Ok((1, tunnel, 0))
        && lac.disk.bytes().strip_prefix(&file[..224]) == Some(behind)
}

/// The ring of a LAC that started again, and whose tunnel was closed: its tunnel has this id, and behind the file of before its disk has
/// these bytes.
fn rings_again(alloc: Global, tunnel: u16, file: &[u8; 225], behind: &[u8]) -> bool {
    let Some(lac) = rung_again(alloc) else {
        return false;
    };
    let is_rung = has_rung(alloc, &lac, tunnel, file, behind);
    let mut disk = lac.into_disk();
    is_rung && has_ceilings(alloc, &mut disk, 128, 8)
}

/// The ring of that LAC, whose disk stops at this call: why it isn't made, and which tunnels the LAC has then.
fn ring_stops_at(alloc: Global, call: u64) -> Option<(Option<StoreStop>, (usize, u16, u16))> {
    let mut lac = closed_again(alloc)?.stopping(alloc, call.saturating_sub(1))?;
    let stop = lac.stop_of(&Event::Ring { port: 1 });
    Some((stop, lac.tunnels(alloc).ok()?))
}

#[test]
fn a_call_that_comes_up_is_on_both_disks_byte_for_byte(rt: HostRuntime) -> Result<(), Fail> {
    assert!(rt; leaves_files(rt.alloc(), LAC_FILE, LNS_FILE));
    Ok(())
}

#[test]
fn a_step_in_which_the_disk_stops_gives_nothing(rt: HostRuntime) -> Result<(), Fail> {
    for (calls, tunnels, heard) in [
        (1..=8, (0, 0, 0), 0),
        (9..=12, (1, 1, 0), 1),
        (13..=16, (1, 1, 1), 3),
    ] {
        for call in calls {
            assert!(rt; stops_at(rt.alloc(), call, tunnels, heard), "call {call}");
        }
    }
    Ok(())
}

#[test]
fn a_stop_at_each_call_leaves_the_first_few_records(rt: HostRuntime) -> Result<(), Fail> {
    for (call, lost, kept) in [
        (1, 0, 0),
        (2, 0, 0),
        (3, 0, 1),
        (4, 0, 1),
        (5, 1, 1),
        (6, 1, 1),
        (7, 1, 2),
        (8, 1, 2),
        (9, 2, 2),
        (10, 2, 2),
        (11, 2, 3),
        (12, 2, 3),
        (13, 3, 3),
        (14, 3, 3),
        (15, 3, 4),
        (16, 3, 4),
    ] {
        assert!(rt; is_left(rt.alloc(), call, false, lost), "call {call}");
        assert!(rt; is_left(rt.alloc(), call, true, kept), "call {call}");
    }
    Ok(())
}

#[test]
fn a_start_after_a_crash_has_its_tunnel_and_asks_for_its_recovery(
    rt: HostRuntime,
) -> Result<(), Fail> {
    assert!(rt; recovers(rt.alloc(), STARTED_FILE));
    Ok(())
}

#[test]
fn a_start_in_which_the_disk_stops_leaves_the_first_few_records(
    rt: HostRuntime,
) -> Result<(), Fail> {
    for (call, lost, kept) in [
        (1, 4, 4),
        (2, 4, 4),
        (3, 4, 5),
        (4, 4, 5),
        (5, 5, 5),
        (6, 5, 5),
        (7, 5, 6),
        (8, 5, 6),
    ] {
        assert!(rt;
            start_leaves(rt.alloc(), call, false, STARTED_FILE) == Some(lost),
            "call {call}"
        );
        assert!(rt;
            start_leaves(rt.alloc(), call, true, STARTED_FILE) == Some(kept),
            "call {call}"
        );
    }
    assert!(rt; start_leaves(rt.alloc(), 9, false, STARTED_FILE).is_none());
    Ok(())
}

#[test]
fn a_ring_waits_for_no_recovery(rt: HostRuntime) -> Result<(), Fail> {
    assert!(rt; is_unrung(rt.alloc(), STARTED_FILE));
    Ok(())
}

#[test]
fn a_ring_after_a_crash_draws_above_the_ceiling_and_commits_a_new_one_first(
    rt: HostRuntime,
) -> Result<(), Fail> {
    assert!(rt; rings_again(rt.alloc(), 66, STARTED_FILE, RUNG_AGAIN));
    for call in 1..=4 {
        assert!(rt;
            ring_stops_at(rt.alloc(), call) == Some((Some(StoreStop::StoreFault), (0, 0, 0))),
            "call {call}"
        );
    }
    assert!(rt; ring_stops_at(rt.alloc(), 5) == Some((None, (1, 66, 0))));
    Ok(())
}
