use pppoe_session::*;
use std::alloc::Global;
use wire_base::Bytes;

const HOST: [u8; 6] = [2, 0, 0, 0, 0, 1];

const OTHER: [u8; 6] = [2, 0, 0, 0, 0, 2];

// A test fails where memory is wanting: what has no HostUniq then is no repeat of what has one.

fn uniq_of(alloc: Global, text: &[u8]) -> Option<Bytes> {
    Bytes::from_slice(alloc, text).ok()
}

fn admits(table: &mut Table, mac: [u8; 6], session: u16, uniq: Option<Bytes>) -> bool {
    table.admit(mac, session, uniq).is_ok()
}

fn is_taken(table: &mut Table, mac: [u8; 6], session: u16) -> bool {
    table.admit(mac, session, None) == Err(AdmitError::Taken { session })
}

fn repeat(table: &Table, mac: [u8; 6], uniq: &Option<Bytes>) -> Option<u16> {
    table.repeat_of(mac, uniq)
}

fn holds(table: &Table, session: u16) -> Option<[u8; 6]> {
    table.holder(session)
}

fn drops(table: &mut Table, session: u16) -> bool {
    table.drop_one(session)
}

/// A host gets the session 1, and the session 7 with a HostUniq; nobody else gets the first one.
fn admits_both(table: &mut Table, uniq: Option<Bytes>) -> bool {
    let is_first = admits(table, HOST, 1, None);
    let is_held = is_taken(table, OTHER, 1);
    let holders = [holds(table, 1), holds(table, 2)];
    let is_second = admits(table, HOST, 7, uniq);
    is_first && is_held && is_second && holders == [Some(HOST), None]
}

/// Who repeats a request, and who doesn't.
fn repeats(alloc: Global, table: &Table) -> [Option<u16>; 4] {
    let uniq = uniq_of(alloc, b"ab");
    let stranger = uniq_of(alloc, b"ac");
    [
        repeat(table, HOST, &None),
        repeat(table, HOST, &uniq),
        repeat(table, HOST, &stranger),
        repeat(table, OTHER, &None),
    ]
}

/// The session 1 goes, once.
fn drops_one(table: &mut Table) -> bool {
    let is_dropped = drops(table, 1);
    let again = drops(table, 1);
    is_dropped && !again && repeat(table, HOST, &None) == None
}

#[test]
fn sessions_and_repeats(rt: HostRuntime) {
    let alloc = rt.alloc();
    let mut table = Table::new(alloc);
    assert!(rt; admits_both(&mut table, uniq_of(alloc, b"ab")));
    assert!(rt; repeats(alloc, &table) == [Some(1), Some(7), None, None]);
    assert!(rt; drops_one(&mut table));
}
