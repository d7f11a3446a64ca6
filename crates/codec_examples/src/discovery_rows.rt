//! Rows of PPPoE's discovery stage.

use crate::row::{Fault, Row};
use crate::spelling::told;
use pppoe_discovery::{Discovered, cookie, on_frame, padt_frame, write_pads};
use wire_base::{Bytes, Cause};

/// The cookie of an address, what a frame leads to, or a PADT from an address of one's own to another.
pub fn discovery_row(row: &Row<'_>) -> Result<String, Fault> {
    let (key, own) = (row.array(1), row.array(1));
    let address = row.array(2);
    match row.word(0) {
        "cookie" => told(row.alloc, &cookie(&key, &address)),
        "on_frame" => told(
            row.alloc,
            &on_frame(
                row.alloc,
                &key,
                &address,
                row.bytes(3, 255),
                row.bytes(4, 2000),
            )?,
        ),
        _ => told(
            row.alloc,
            &Bytes::from_slice(row.alloc, &padt_frame(&own, &address, row.short(3)))?,
        ),
    }
}

/// The PADS to a PADR that was admitted.
pub fn write_pads_row(row: &Row<'_>) -> Result<String, Fault> {
    let asked = Discovered::Admit {
        src: row.array(2),
        service: row.owned(3, 600)?,
        uniq: row.some_owned(4, 600)?,
        relay: row.some_owned(5, 600)?,
    };
    let cause = match row.word(7) {
        "Calls" => Some(Cause::Calls),
        "Recovering" => Some(Cause::Recovering),
        _ => None,
    };
    told(
        row.alloc,
        &write_pads(row.alloc, &row.array(1), &asked, row.short(6), cause)?,
    )
}
