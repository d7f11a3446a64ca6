//! The texts that the program writes beside a capture.

ghost use Rattle.std.specs.Prelude.{◌≡◌, ◌++◌, IfOk, codes};
ghost use Rattle.std.specs.Fmt.{decimal};
ghost use Rattle.l2tp_capture.specs.Texts.{bad_line_text, too_long_text};

use std::alloc::Global;
use wire_base::{Bytes, NoMemory};

/// How the program is used.
pub const HELP: &[u8] = b"\
l2tp_capture: what a run of l2tp sent, as a capture file

usage:
  l2tp_capture             reads the report of l2tp replay on standard input and writes a capture to standard output
  l2tp_capture --help      writes this text
  l2tp_capture --version   writes the version

  l2tp replay < x.schedule | l2tp_capture > x.pcap

The capture is a classic pcap file of Ethernet frames, its numbers the highest byte first. Each line L send P N M HEX of the
report is a UDP datagram from 10.0.0.N to 10.0.0.M, port 1701 at both, whose IPv4 identification is the low half of P. Each
line L frame N HEX is that frame as it is. The moment of a frame is L seconds. Other lines give no frame. Frames that came to
a LAC are in no report, and so not in the capture.

A report has at most 1048576 lines and 67108864 bytes. What goes wrong is told on standard error, and then no capture is
written.

status: 0 done, 1 usage, 2 bad line, 5 read fault, 6 write fault, 7 too long, 20 no memory
";

/// The version.
pub const VERSION: &[u8] = b"l2tp_capture 0.1.0\n";

/// The words are no command.
pub const USAGE: &[u8] = b"usage: l2tp_capture\n";

/// The source failed.
pub const READ_FAULT: &[u8] = b"read fault\n";

/// A text before a number, in a line.
fn numbered(alloc: Global, front: &[u8], number: u64) -> Result<Bytes, NoMemory>
    ensures { IfOk result (λ text. text ≡ front.now ++ decimal number ++ codes "\n") }
{
    let digits = number.to_string(alloc)?;
    let mut text = Bytes::from_slice(alloc, front)?;
    text.push_slice(digits.as_bytes())?;
    text.push_slice(b"\n")?;
    Ok(text)
}

/// A line that no report has.
pub fn bad_line_text(alloc: Global, line: u64) -> Result<Bytes, NoMemory>
    ensures { IfOk result (λ text. text ≡ bad_line_text line) }
{
    numbered(alloc, b"bad line ", line)
}

/// A text that passes a limit, with as many lines as are begun there.
pub fn too_long_text(alloc: Global, lines: u64) -> Result<Bytes, NoMemory>
    ensures { IfOk result (λ text. text ≡ too_long_text lines) }
{
    numbered(alloc, b"too long: ", lines)
}
