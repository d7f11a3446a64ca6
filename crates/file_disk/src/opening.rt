//! How a file is opened so that what is read of it is what the device holds.

use std::fs::{File, TryLockError};
use std::io;
use std::io::ErrorKind;
use std::os::fd::AsRawFd;
use std::path::Path;
use std::rt::Files;

/// Locks the file against other processes for as long as it is open.
fn lock(file: &File) -> io::Result<()> {
    match file.try_lock() {
        Ok(()) => Ok(()),
        Err(TryLockError::WouldBlock) => Err(io::Error::new(
            ErrorKind::WouldBlock,
            "another process holds the file",
        )),
        Err(TryLockError::Error(e)) => Err(e),
    }
}

/// Asks the system to drop the pages that it holds of a file.
fn drop_pages(file: &File) -> io::Result<()> {
    let refused = libc::posix_fadvise(file.as_raw_fd(), 0, 0, libc::POSIX_FADV_DONTNEED);
    if refused != 0 {
        return Err(io::Error::from_raw_os_error(refused));
    }
    Ok(())
}

/// The folder of a file.
fn folder_of(path: &str) -> &str {
    match Path::new(path).parent() {
        Some(folder) if !folder.as_str().is_empty() => folder.as_str(),
        _ => ".",
    }
}

/// Opens a file that nobody else holds, and makes it where it isn't there. What the system holds of it goes to the device
/// first, and then its pages are dropped: a page whose write failed earlier may be marked as written. Then its entry in
/// the folder is made durable.
pub(crate) fn open<R: Files<File = File>>(system: &R, path: &str) -> io::Result<File> {
    let mut options = File::options();
    options.read(true);
    options.write(true);
    options.create(true);
    let file = options.open(system, path)?;
    lock(&file)?;
    file.sync_all()?;
    drop_pages(&file)?;
    File::open(system, folder_of(path))?.sync_all()?;
    Ok(file)
}
