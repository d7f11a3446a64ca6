//! Rows of the codecs: each line of the input names a call and gives its arguments, and the line of the output at its place
//! tells the value or the fault. A line that begins with `#` is a remark, which is told as it is.
//!
//! The rows were written down from the standards (RFC 2661, 2516 and 1661) and from the grammar of schedules, byte by byte,
//! and none is the program's own output. Digests are those of RFC 1321 appendix A.5, or another MD5's, as hidden values are.
#![tactic(auto)]

mod base_rows;
mod discovery_rows;
mod link_rows;
mod message_rows;
mod row;
mod spelling;
mod text_rows;

use base_rows::{base_row, write_avp_row};
use discovery_rows::{discovery_row, write_pads_row};
use link_rows::{
    link_row, list_packet_row, write_frame_row, write_lcp_row, write_option_row, write_tag_row,
};
use message_rows::{pairs_row, write_hidden_row, write_message_row};
use row::{Fault, Row};
use spelling::plain;
use std::alloc::Global;
use std::io;
use text_rows::{schedule_row, secret_row, written_row};

/// The answer of the call that a line names.
fn answer(alloc: Global, line: &str) -> Result<String, Fault> {
    let row = Row::read(alloc, line)?;
    match row.word(0) {
        "put_u16" | "put_u32" | "take_u16" | "take_u32" => base_row(&row),
        "read_header" | "write_control" | "write_data" => base_row(&row),
        "write_avp" => write_avp_row(&row),
        "read_avps" | "read_message" | "read_base" | "kind_of_pairs" => pairs_row(&row),
        "assigned_tunnel" | "assigned_session" => pairs_row(&row),
        "write_message" => write_message_row(&row),
        "write_hidden" => write_hidden_row(&row),
        "read_schedule" => schedule_row(alloc, line),
        "write_schedule" => written_row(alloc, line),
        "hide" | "unhide" | "response" => secret_row(&row),
        "read_lcp" | "read_options" | "read_frame" | "read_tags" => link_row(alloc, &row),
        "write_lcp" => write_lcp_row(&row),
        "list_packet" => list_packet_row(&row),
        "write_option" => write_option_row(&row),
        "write_frame" => write_frame_row(&row),
        "write_tag" => write_tag_row(&row),
        "cookie" | "on_frame" | "padt_frame" => discovery_row(&row),
        "write_pads" => write_pads_row(&row),
        _ => Err(Fault::NotARow),
    }
}

/// The line of the output at a line's place.
fn tell(alloc: Global, line: &str) -> Result<String, Fault> {
    if line.starts_with('#') {
        return Ok(String::from_str(alloc, line)?);
    }
    let answer = answer(alloc, line)?;
    plain(alloc, answer.as_str())
}

fn main(rt: HostRuntime) -> io::Result<()> {
    for line in rt.lines(rt.alloc()) {
        match tell(rt.alloc(), line?.as_str()) {
            Ok(told) => println!(rt; "{told}")?,
            Err(fault) => println!(rt; "{fault:?}")?,
        }
    }
    Ok(())
}
