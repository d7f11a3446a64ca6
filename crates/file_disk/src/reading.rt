//! What is asked of a file that is open.

ghost use Rattle.std.specs.Prelude.{◌≤◌, length, IfOk};

use std::fs::File;
use std::io;
use std::os::unix::fs::FileExt;

/// Reads from a place on until the buffer is full or the file ends.
pub(crate) fn read_all(file: &File, at: u64, buf: &mut [u8]) -> io::Result<usize>
    ensures { IfOk result (λ n. n ≤ length buf.old) }
{
    let mut have = 0;
    for _ in 0..buf.len() {
        let place = at.saturating_add(have as u64);
        let got = file.read_at(&mut buf[have..], place)?;
        if got == 0 {
            break;
        }
        have += got;
    }
    Ok(have)
}

/// How many bytes a file has.
pub(crate) fn length_of(file: &File) -> io::Result<u64> {
    Ok(file.metadata()?.len())
}

/// Cuts off what is past a length. A file that is no longer stays as it is.
pub(crate) fn shorten(file: &File, len: u64) -> io::Result<()> {
    if len < length_of(file)? {
        file.set_len(len)?;
    }
    Ok(())
}
