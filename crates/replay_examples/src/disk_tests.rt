use disk_core::{Fails, MemoryDisk};
use end_store::Store;
use schedule_replay::{LineFault, World};
use schedule_text::{Line, read_schedule};
use std::alloc::Global;
use std::test::Fail;
use wire_base::{Bytes, NoMemory};
use world_model::Refusal;

/// The journal of the LAC 1 whose call with the LNS 2 is up, worked out from the format: kind 1 and number 1, the ceilings of its tunnel
/// and session ids, which are 64 from the first id on, its tunnel 1 to the tunnel 1 of 10.0.0.2 with a window of 8 and the flags 3, and
/// its call 1 of port 1 in tunnel 1, which is the peer's call 1. A port stands as ffff0000 and its number.
const FIRST_FILE: &[u8; 161] = b"OL2TPCKP1\x01\x01\0\0\0\0\0\0\0\0\0\0\0\0\0\0\0\0\0\0\0\0C\
O\x01\x01\0\0\0\x40\0\0\0\0\0\0\0\0\0\0\0\0\0\0\0\0\0\0\0\0\0\0\0\0\0\
O\x01\x02\0\0\0\x40\0\0\0\0\0\0\0\0\0\0\0\0\0\0\0\0\0\0\0\0\0\0\0\0\0\
O\x02\0\x01\0\x01\x0a\0\0\x02\0\x08\0\x03\0\0\0\0\0\0\0\0\0\0\0\0\0\0\0\0\0\0\
O\x04\0\x01\0\x01\0\x01\xff\xff\0\0\0\x01\0\0\0\0\0\0\0\0\0\0\0\0\0\0\0\0\0\0\
C";

/// The journal of the LAC 8, whose second call, of port 80, is up with the LNS 3: it drew the session id 1 before for a call that went
/// before its tunnel was up, and so left no record.
const LAC_FILE: &[u8; 161] = b"OL2TPCKP1\x01\x08\0\0\0\0\0\0\0\0\0\0\0\0\0\0\0\0\0\0\0\0C\
O\x01\x01\0\0\0\x40\0\0\0\0\0\0\0\0\0\0\0\0\0\0\0\0\0\0\0\0\0\0\0\0\0\
O\x01\x02\0\0\0\x40\0\0\0\0\0\0\0\0\0\0\0\0\0\0\0\0\0\0\0\0\0\0\0\0\0\
O\x02\0\x01\0\x01\x0a\0\0\x03\0\x08\0\x03\0\0\0\0\0\0\0\0\0\0\0\0\0\0\0\0\0\0\
O\x04\0\x02\0\x01\0\x01\xff\xff\0\0\0\x50\0\0\0\0\0\0\0\0\0\0\0\0\0\0\0\0\0\0\
C";

/// The journal of the LNS 3, worked out from the format and the messages in their order: kind 2 and number 3; the SCCRQ draws a tunnel
/// id, so its ceiling is first; the SCCCN brings the tunnel 1 up, to the tunnel 1 of 10.0.0.8 with a window of 8 and the flags 3, which
/// the SCCRQ told; the ICRQ draws a session id; and the ICCN brings the call 1 in tunnel 1 up, the peer's call 2, of which an LNS knows
/// no subscriber, and whose messages have no numbers.
const LNS_FILE: &[u8; 161] = b"OL2TPCKP1\x02\x03\0\0\0\0\0\0\0\0\0\0\0\0\0\0\0\0\0\0\0\0C\
O\x01\x01\0\0\0\x40\0\0\0\0\0\0\0\0\0\0\0\0\0\0\0\0\0\0\0\0\0\0\0\0\0\
O\x02\0\x01\0\x01\x0a\0\0\x08\0\x08\0\x03\0\0\0\0\0\0\0\0\0\0\0\0\0\0\0\0\0\0\
O\x01\x02\0\0\0\x40\0\0\0\0\0\0\0\0\0\0\0\0\0\0\0\0\0\0\0\0\0\0\0\0\0\
O\x04\0\x01\0\x01\0\x02\0\0\0\0\0\0\0\0\0\0\0\0\0\0\0\0\0\0\0\0\0\0\0\0\
C";

/// The journal of the LAC 8 that started again over its four records: it has its tunnel 1 again, and to ask for its recovery it draws a
/// tunnel id, whose ceiling is 128 from the id 65 on, and a draw number, whose ceiling is 64 from the first one on.
const STARTED_FILE: &[u8; 225] = b"OL2TPCKP1\x01\x08\0\0\0\0\0\0\0\0\0\0\0\0\0\0\0\0\0\0\0\0C\
O\x01\x01\0\0\0\x40\0\0\0\0\0\0\0\0\0\0\0\0\0\0\0\0\0\0\0\0\0\0\0\0\0\
O\x01\x02\0\0\0\x40\0\0\0\0\0\0\0\0\0\0\0\0\0\0\0\0\0\0\0\0\0\0\0\0\0\
O\x02\0\x01\0\x01\x0a\0\0\x03\0\x08\0\x03\0\0\0\0\0\0\0\0\0\0\0\0\0\0\0\0\0\0\
O\x04\0\x02\0\x01\0\x01\xff\xff\0\0\0\x50\0\0\0\0\0\0\0\0\0\0\0\0\0\0\0\0\0\0\
O\x01\x01\0\0\0\x80\0\0\0\0\0\0\0\0\0\0\0\0\0\0\0\0\0\0\0\0\0\0\0\0\0\
O\x01\x03\0\0\0\x40\0\0\0\0\0\0\0\0\0\0\0\0\0\0\0\0\0\0\0\0\0\0\0\0\0\
C";

/// The same behind another crash and another start: each start draws above the ceilings, so both rise again.
const TWICE_FILE: &[u8; 289] = b"OL2TPCKP1\x01\x08\0\0\0\0\0\0\0\0\0\0\0\0\0\0\0\0\0\0\0\0C\
O\x01\x01\0\0\0\x40\0\0\0\0\0\0\0\0\0\0\0\0\0\0\0\0\0\0\0\0\0\0\0\0\0\
O\x01\x02\0\0\0\x40\0\0\0\0\0\0\0\0\0\0\0\0\0\0\0\0\0\0\0\0\0\0\0\0\0\
O\x02\0\x01\0\x01\x0a\0\0\x03\0\x08\0\x03\0\0\0\0\0\0\0\0\0\0\0\0\0\0\0\0\0\0\
O\x04\0\x02\0\x01\0\x01\xff\xff\0\0\0\x50\0\0\0\0\0\0\0\0\0\0\0\0\0\0\0\0\0\0\
O\x01\x01\0\0\0\x80\0\0\0\0\0\0\0\0\0\0\0\0\0\0\0\0\0\0\0\0\0\0\0\0\0\
O\x01\x03\0\0\0\x40\0\0\0\0\0\0\0\0\0\0\0\0\0\0\0\0\0\0\0\0\0\0\0\0\0\
O\x01\x01\0\0\0\xc0\0\0\0\0\0\0\0\0\0\0\0\0\0\0\0\0\0\0\0\0\0\0\0\0\0\
O\x01\x03\0\0\0\x80\0\0\0\0\0\0\0\0\0\0\0\0\0\0\0\0\0\0\0\0\0\0\0\0\0\
C";

/// What stands in the journal of the LNS 3 behind its four records once it answered the LAC 8 that started again: the ceiling of its draw
/// numbers, and the mark of its tunnel 1, which is the LAC's draw number 1. Its tunnel id is below the ceiling that there is.
const ANSWERED: &[u8; 65] = b"\
O\x01\x03\0\0\0\x40\0\0\0\0\0\0\0\0\0\0\0\0\0\0\0\0\0\0\0\0\0\0\0\0\0\
O\x06\0\x01\0\0\0\x01\0\0\0\0\0\0\0\0\0\0\0\0\0\0\0\0\0\0\0\0\0\0\0\0\
C";

/// What stands in the journal of that LAC behind what its start left, once it took the answer: the mark of its tunnel 1, which is the LNS's
/// draw number 1.
const TAKEN: &[u8; 33] = b"\
O\x06\0\x01\0\0\0\x01\0\0\0\0\0\0\0\0\0\0\0\0\0\0\0\0\0\0\0\0\0\0\0\0\
C";

/// A LAC and an LNS, and the messages with which a call comes up between them.
const NODES: &[u8] = b"lns 3 -\nlac 8 3 - plain\n";

const CALL: &[u8] =
    b"ring 8 79\nhang 8 1\nring 8 80\ndeliver 1\ndeliver 2\ndeliver 3\ndeliver 4\ndeliver 6\ndeliver 7\n";

// Functions without clauses: a test that calls them is proved at little cost.

/// Runs these lines, those left out that don't fit the world; whether each other one could be run.
fn runs_fitting(world: &mut World, lines: &[Line]) -> bool {
    let mut number = 0u64;
    for line in lines {
        number = number.saturating_add(1);
        match world.line(number, line) {
            Ok(())
            | Err(
                LineFault::Refused {
                    refusal: Refusal::Unfit { .. },
                },
            ) => (),
            Err(_) => return false,
        }
    }
    true
}

/// The same of the lines of a text.
fn runs_text(alloc: Global, world: &mut World, text: &[u8]) -> bool {
    match read_schedule(alloc, text) {
        Ok(lines) => runs_fitting(world, lines.as_slice()),
        Err(_) => false,
    }
}

/// The world behind these lines, those left out that don't fit it. It is in a box, since it is large: a function that owns it inline, with
/// ways out, is dear to prove.
fn run_fitting(alloc: Global, text: &[u8]) -> Option<Box<World>> {
    let mut world = Box::new(alloc, World::new(alloc)).ok()?;
    if runs_text(alloc, &mut world, text) {
        Some(world)
    } else {
        None
    }
}

/// These pieces, one behind the other.
fn joined(alloc: Global, pieces: &[&[u8]]) -> Result<Bytes, NoMemory> {
    let mut text = Bytes::new(alloc);
    for piece in pieces {
        text.push_slice(piece)?;
    }
    Ok(text)
}

/// A number below 10 in a text.
fn digit(number: u8) -> u8 {
    b'0'.saturating_add(number)
}

/// The line of a stop of a node. Each number has one digit.
fn stop_line(alloc: Global, node: u8, commit: u8, call: u8, kept: bool) -> Result<Bytes, NoMemory> {
    let numbers = [digit(node), b' ', digit(commit), b' ', digit(call)];
    let mut line = joined(alloc, &[b"stop ", &numbers])?;
    line.push_slice(if kept { b" kept\n" } else { b" lost\n" })?;
    Ok(line)
}

/// The world in which a call comes up, after this line, and before that one.
fn talk(alloc: Global, before: &[u8], behind: &[u8]) -> Option<Box<World>> {
    let text = joined(alloc, &[NODES, before, CALL, behind]).ok()?;
    run_fitting(alloc, text.as_slice())
}

/// The kind of a node's journal, by its number.
fn kind_of(node: u8) -> u8 {
    if node == 3 { 2 } else { 1 }
}

/// With how many records a disk opens as that of its node.
fn opened_records(alloc: Global, disk: &mut MemoryDisk, node: u8) -> Option<u32> {
    let store = Store::open(alloc, disk, kind_of(node), node).ok()?;
    Some(store.records())
}

/// With how many records a file opens as the journal of its node.
fn records_of(alloc: Global, file: &[u8], node: u8) -> Option<u32> {
    let image = Bytes::from_slice(alloc, file).ok()?;
    let mut disk = MemoryDisk::new(alloc, image, Fails::new(alloc)).ok()?;
    opened_records(alloc, &mut disk, node)
}

/// With how many records the disk of a node opens.
fn node_records(alloc: Global, world: &World, node: u8) -> Option<u32> {
    records_of(alloc, world.file(node)?, node)
}

/// The disk of a node has this file.
fn has_file(world: &World, node: u8, file: &[u8]) -> bool {
    world.file(node) == Some(file)
}

/// The disk of a node begins as this file up to so many records, with which it opens.
fn has_first(alloc: Global, world: &World, node: u8, file: &[u8; 161], records: u32) -> bool {
    let Some(found) = world.file(node) else {
        return false;
    };
    found.starts_with(&file[..32 + 32 * records.min(4) as usize])
        && records_of(alloc, found, node) == Some(records)
}

/// The disk of a node has this file behind a call that came up, and these lines.
fn talk_leaves(alloc: Global, behind: &[u8], node: u8, file: &[u8]) -> bool {
    match talk(alloc, b"", behind) {
        Some(world) => has_file(&world, node, file),
        None => false,
    }
}

/// The disk of a node has this file without its end, and goes on with these bytes, behind a call that came up and these lines.
fn talk_goes_on(alloc: Global, lines: &[u8], node: u8, file: &[u8], behind: &[u8]) -> bool {
    let Some(world) = talk(alloc, b"", lines) else {
        return false;
    };
    match (world.file(node), file.split_last()) {
        (Some(found), Some((_, front))) => found.strip_prefix(front) == Some(behind),
        _ => false,
    }
}

/// A node stops at this call of this commit as a call comes up.
fn stops(alloc: Global, stop: (u8, u8, u8, bool), behind: &[u8]) -> Option<Box<World>> {
    let (node, commit, call, kept) = stop;
    let line = stop_line(alloc, node, commit, call, kept).ok()?;
    talk(alloc, line.as_slice(), behind)
}

/// A node that stops there has the first so many records of this file.
fn stop_leaves(alloc: Global, stop: (u8, u8, u8, bool), file: &[u8; 161], records: u32) -> bool {
    match stops(alloc, stop, b"") {
        Some(world) => has_first(alloc, &world, stop.0, file, records),
        None => false,
    }
}

/// With how many records the disk of a node opens that stopped there and started again.
fn started_records(alloc: Global, stop: (u8, u8, u8, bool)) -> Option<u32> {
    let start: &[u8] = if stop.0 == 3 {
        b"start 3\n"
    } else {
        b"start 8\n"
    };
    match stops(alloc, stop, start) {
        Some(world) => node_records(alloc, &world, stop.0),
        None => None,
    }
}

/// A node that stops there has the records before, and the one that it stopped at where that is kept; and so it is behind its start, with
/// two more where it has its tunnel again: of the 48 stops these are the ones from the tunnel's record on. The recovery that it asks for
/// there draws a tunnel id and a draw number, and both are above their ceilings.
fn stops_whole(alloc: Global, stop: (u8, u8, u8, bool), file: &[u8; 161], up: u32) -> bool {
    let (_, commit, _, kept) = stop;
    let records = u32::from(commit).saturating_sub(u32::from(!kept));
    let drawn = if records >= up { 2 } else { 0 };
    stop_leaves(alloc, stop, file, records)
        && started_records(alloc, stop) == Some(records.saturating_add(drawn))
}

/// The schedule in which the LAC 1 stops at its fourth commit, where its call comes up.
fn first_row(alloc: Global, stop: &[u8]) -> Option<Box<World>> {
    let call: &[u8] =
        b"lns 2 -\nlac 1 2 - plain\nring 1 1\ndeliver 1\ndeliver 2\ndeliver 3\ndeliver 4\n";
    let text = joined(alloc, &[call, stop, b"deliver 6\n"]).ok()?;
    run_fitting(alloc, text.as_slice())
}

/// The disk of the LAC 1 has the whole file behind that schedule.
fn first_row_leaves_all(alloc: Global, stop: &[u8]) -> bool {
    match first_row(alloc, stop) {
        Some(world) => has_file(&world, 1, FIRST_FILE),
        None => false,
    }
}

/// It begins as that file up to so many records, with which it opens.
fn first_row_leaves(alloc: Global, stop: &[u8], records: u32) -> bool {
    match first_row(alloc, stop) {
        Some(world) => has_first(alloc, &world, 1, FIRST_FILE, records),
        None => false,
    }
}

#[test]
fn a_stop_that_keeps_its_record_leaves_the_whole_file(rt: HostRuntime) -> Result<(), Fail> {
    assert!(rt; first_row_leaves_all(rt.alloc(), b"stop 1 1 4 kept\n"));
    assert!(rt; first_row_leaves(rt.alloc(), b"stop 1 1 4 lost\n", 3));
    Ok(())
}

#[test]
fn a_call_that_comes_up_is_on_both_disks(rt: HostRuntime) -> Result<(), Fail> {
    let alloc = rt.alloc();
    assert!(rt; talk_leaves(alloc, b"", 8, LAC_FILE));
    assert!(rt; talk_leaves(alloc, b"", 3, LNS_FILE));
    assert!(rt; talk_leaves(alloc, b"crash 8\nstart 8\n", 8, STARTED_FILE));
    assert!(rt;
        talk_leaves(
            alloc,
            b"crash 8\nstart 8\ncrash 8\nstart 8\n",
            8,
            TWICE_FILE
        )
    );
    Ok(())
}

#[test]
fn a_recovery_leaves_its_marks_at_both_ends(rt: HostRuntime) -> Result<(), Fail> {
    let alloc = rt.alloc();
    // The packets 10 to 12 are the SCCRQ, the SCCRP and the SCCCN of the recovery; an end that waits for an answer has no mark
    assert!(rt;
        talk_goes_on(
            alloc,
            b"crash 8\nstart 8\ndeliver 10\n",
            3,
            LNS_FILE,
            ANSWERED
        )
    );
    assert!(rt; talk_leaves(alloc, b"crash 8\nstart 8\ndeliver 10\n", 8, STARTED_FILE));
    assert!(rt;
        talk_goes_on(
            alloc,
            b"crash 8\nstart 8\ndeliver 10\ndeliver 11\n",
            8,
            STARTED_FILE,
            TAKEN
        )
    );
    assert!(rt;
        talk_goes_on(
            alloc,
            b"crash 8\nstart 8\ndeliver 10\ndeliver 11\ndeliver 12\n",
            3,
            LNS_FILE,
            ANSWERED
        )
    );
    Ok(())
}

#[test]
fn a_stop_at_each_call_of_each_commit_leaves_the_first_few_records(
    rt: HostRuntime,
) -> Result<(), Fail> {
    for commit in 1..=4 {
        for (call, kept) in [
            (1, false),
            (2, false),
            (3, false),
            (3, true),
            (4, false),
            (4, true),
        ] {
            assert!(rt;
                stops_whole(rt.alloc(), (8, commit, call, kept), LAC_FILE, 3),
                "node 8 commit {commit} call {call} kept {kept}"
            );
            assert!(rt;
                stops_whole(rt.alloc(), (3, commit, call, kept), LNS_FILE, 2),
                "node 3 commit {commit} call {call} kept {kept}"
            );
        }
    }
    Ok(())
}
