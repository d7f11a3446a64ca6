//! Rows of LCP packets and PPPoE frames.

use crate::row::{Fault, Row};
use crate::spelling::told;
use lcp_wire::{Lcp, Packets, read_lcp, read_options, write_lcp, write_option};
use pppoe_wire::{Pppoe, read_frame, read_tags, write_frame, write_tag};
use std::alloc::Global;
use wire_base::Bytes;

/// The answer of a call that reads.
pub fn link_row(alloc: Global, row: &Row<'_>) -> Result<String, Fault> {
    let bytes = row.bytes(1, 2000);
    match row.word(0) {
        "read_lcp" => told(alloc, &read_lcp(alloc, bytes)),
        "read_options" => told(alloc, &read_options(alloc, bytes)),
        "read_frame" => told(alloc, &read_frame(alloc, bytes)),
        "read_tags" => told(alloc, &read_tags(alloc, bytes)),
        _ => Err(Fault::NotARow),
    }
}

/// Writes a packet, and reads it back with some bytes behind it.
pub fn write_lcp_row(row: &Row<'_>) -> Result<String, Fault> {
    let mut out = Bytes::new(row.alloc);
    let packet = Lcp {
        code: row.byte(1),
        id: row.byte(2),
        body: row.owned(3, 2000)?,
    };
    write_lcp(&mut out, &packet)?;
    out.push_slice(row.bytes(4, 2000))?;
    let read = read_lcp(row.alloc, out.as_slice());
    told(row.alloc, &(out, read))
}

/// Puts a packet into a list.
pub fn list_packet_row(row: &Row<'_>) -> Result<String, Fault> {
    let mut packets = Packets::new(row.alloc);
    packets.push(row.owned(1, 2000)?)?;
    told(row.alloc, &packets)
}

/// Writes an option behind some others, and reads all of them.
pub fn write_option_row(row: &Row<'_>) -> Result<String, Fault> {
    let mut out = row.owned(1, 2000)?;
    write_option(&mut out, row.byte(2), row.bytes(3, 253))?;
    let read = read_options(row.alloc, out.as_slice());
    told(row.alloc, &(out, read))
}

/// Writes a frame of the discovery stage, and reads it back with some bytes behind it.
pub fn write_frame_row(row: &Row<'_>) -> Result<String, Fault> {
    let payload = row.owned(5, 2000)?;
    let frame = Pppoe {
        dst: row.array(1),
        src: row.array(2),
        session_stage: false,
        code: row.byte(3),
        session: row.short(4),
        start: 20,
        end: 20 + payload.len(),
        payload,
    };
    let mut out = write_frame(row.alloc, &frame)?;
    out.push_slice(row.bytes(6, 2000))?;
    let read = read_frame(row.alloc, out.as_slice());
    told(row.alloc, &(out, read))
}

/// Writes a tag behind some others, and reads all of them.
pub fn write_tag_row(row: &Row<'_>) -> Result<String, Fault> {
    let mut out = row.owned(1, 2000)?;
    write_tag(&mut out, row.short(2), row.bytes(3, 2000))?;
    let read = read_tags(row.alloc, out.as_slice());
    told(row.alloc, &(out, read))
}
