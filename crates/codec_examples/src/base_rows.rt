//! Rows of numbers, headers and pairs.

use crate::row::{Fault, Row};
use crate::spelling::told;
use avp_codec::{Avp, read_avps, write_avp};
use l2tp_header::{read_header, write_control, write_data};
use wire_base::{Bytes, put_u16, put_u32, take_u16, take_u32};

/// The answer of a call of `wire_base` or `l2tp_header`.
pub fn base_row(row: &Row<'_>) -> Result<String, Fault> {
    let bytes = row.bytes(1, 2000);
    let at = bytes.len().min(row.short(2) as usize);
    match row.word(0) {
        "take_u16" => told(row.alloc, &take_u16(bytes, at)),
        "take_u32" => told(row.alloc, &take_u32(bytes, at)),
        "read_header" => told(row.alloc, &read_header(bytes)),
        _ => {
            let mut out = row.owned(1, 2000)?;
            match row.word(0) {
                "put_u16" => put_u16(&mut out, row.short(2))?,
                "put_u32" => put_u32(&mut out, row.long(2))?,
                "write_control" => write_control(
                    &mut out,
                    row.short(2),
                    row.short(3),
                    row.short(4),
                    row.short(5),
                    row.bytes(6, 2000),
                )?,
                "write_data" => write_data(
                    &mut out,
                    row.short(2),
                    row.short(3),
                    row.some_short(4),
                    row.bytes(5, 2000),
                )?,
                _ => return Err(Fault::NotARow),
            }
            told(row.alloc, &out)
        }
    }
}

/// Writes a mandatory pair behind some bytes, and alone, and reads it back.
pub fn write_avp_row(row: &Row<'_>) -> Result<String, Fault> {
    let mut out = row.owned(1, 2000)?;
    let mut alone = Bytes::new(row.alloc);
    let avp = Avp {
        mandatory: true,
        hidden: false,
        reserved: 0,
        vendor: row.short(2),
        attribute: row.short(3),
        value: row.owned(4, 1017)?,
    };
    write_avp(&mut out, &avp)?;
    write_avp(&mut alone, &avp)?;
    told(row.alloc, &(out, read_avps(row.alloc, alone.as_slice())))
}
