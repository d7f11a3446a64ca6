//! The disk.

ghost use Rattle.std.specs.Prelude.{◌≡◌, ◌≤◌, ◌^◌, length, IfOk, OnOk, OnErr, None, Some, false, true};
ghost use Rattle.wire_base.specs.Causes.{Rose};

use crate::opening::open;
use crate::reading::{length_of, read_all, shorten};
use disk_core::Disk;
use std::fs::File;
use std::io;
use std::io::ErrorKind;
use std::os::unix::fs::FileExt;
use std::rt::Files;
use wire_base::{Failed, NoMemory};

/// A file of the system, opened at its first call, and made where it isn't there. No call takes memory, so there is always
/// room. Another process that holds the file makes the opening fail. After an opening or a sync that failed each later
/// call fails, and with the same error: what the system then gives of the file may not be on the device.
#[derive(Drop)]
pub struct FileDisk<R: Files<File = File>> {
    system: R,
    path: String,
    file: Option<File>,
    is_refused: bool,
    faults: u64,
    last_error: Option<io::Error>,
}

impl<R: Files<File = File>> FileDisk<R> {
    /// A disk whose file isn't open yet.
    pub fn new(system: R, path: String) -> FileDisk<R>
        ensures { result ≡ record { system = system; path = path; file = None; is_refused = false; faults = 0; last_error = None } }
    {
        FileDisk {
            system,
            path,
            file: None,
            is_refused: false,
            faults: 0,
            last_error: None,
        }
    }

    /// Opens the file where it isn't open yet, unless it is refused.
    fn begin(&mut self) -> io::Result<()>
        ensures taken { OnOk result (self.old.is_refused ≡ false) }
        ensures open { OnOk result (self.new.is_refused ≡ false) }
        ensures refused { OnErr result (self.new.is_refused ≡ true) }
        ensures faults { self.new.faults ≡ self.old.faults }
    {
        if self.is_refused {
            return Err(self.last_error.unwrap_or(ErrorKind::Other.into()));
        }
        if self.file.is_none() {
            let opened = open(&self.system, self.path.as_str());
            self.is_refused = opened.is_err();
            self.file = Some(opened?);
        }
        Ok(())
    }

    /// How many bytes the file has.
    fn try_len(&mut self) -> io::Result<u64>
        ensures taken { OnOk result (self.old.is_refused ≡ false) }
        ensures stays { self.old.is_refused ≡ true → self.new.is_refused ≡ true }
        ensures faults { self.new.faults ≡ self.old.faults }
    {
        self.begin()?;
        match &self.file {
            Some(file) => length_of(file),
            None => Err(ErrorKind::Other.into()),
        }
    }

    /// Reads from a place on.
    fn try_read(&mut self, at: u64, buf: &mut [u8]) -> io::Result<usize>
        ensures bound { IfOk result (λ n. n ≤ length buf.old) }
        ensures taken { OnOk result (self.old.is_refused ≡ false) }
        ensures stays { self.old.is_refused ≡ true → self.new.is_refused ≡ true }
        ensures faults { self.new.faults ≡ self.old.faults }
    {
        self.begin()?;
        match &self.file {
            Some(file) => read_all(file, at, buf),
            None => Err(ErrorKind::Other.into()),
        }
    }

    /// Writes at a place.
    fn try_write(&mut self, at: u64, piece: &[u8]) -> io::Result<()>
        ensures taken { OnOk result (self.old.is_refused ≡ false) }
        ensures stays { self.old.is_refused ≡ true → self.new.is_refused ≡ true }
        ensures faults { self.new.faults ≡ self.old.faults }
    {
        self.begin()?;
        match &self.file {
            Some(file) => file.write_all_at(piece, at),
            None => Err(ErrorKind::Other.into()),
        }
    }

    /// Cuts off what is past a length.
    fn try_cut(&mut self, len: u64) -> io::Result<()>
        ensures taken { OnOk result (self.old.is_refused ≡ false) }
        ensures stays { self.old.is_refused ≡ true → self.new.is_refused ≡ true }
        ensures faults { self.new.faults ≡ self.old.faults }
    {
        self.begin()?;
        match &self.file {
            Some(file) => shorten(file, len),
            None => Err(ErrorKind::Other.into()),
        }
    }

    /// Waits until the device holds what was written. A file whose sync failed is refused from then on.
    fn try_sync(&mut self) -> io::Result<()>
        ensures taken { OnOk result (self.old.is_refused ≡ false) }
        ensures refused { OnErr result (self.new.is_refused ≡ true) }
        ensures faults { self.new.faults ≡ self.old.faults }
    {
        self.begin()?;
        let synced = match &self.file {
            Some(file) => file.sync_data(),
            None => Err(ErrorKind::Other.into()),
        };
        self.is_refused = synced.is_err();
        synced
    }

    /// Counts a fault, and keeps its error.
    fn fail(&mut self, error: io::Error) -> Failed
        ensures rose { Rose self.old.faults self.new.faults }
        ensures later { self.old.faults ≤ self.new.faults }
        ensures refused { self.new.is_refused ≡ self.old.is_refused }
    {
        self.faults = self.faults.saturating_add(1);
        self.last_error = Some(error);
        Failed
    }

    /// The system's error of the last fault, where there was one. A disk that is refused keeps the one for which it is.
    pub fn last_error(&self) -> Option<io::Error> {
        self.last_error
    }
}

impl<R: Files<File = File>> Disk for FileDisk<R> {
    ghost reach = { λ _. 2 ^ 64 };

    ghost calls_left = { λ _. 2 ^ 64 };

    ghost faults = { λ d. d.faults };

    ghost refused = { λ d. Some d.is_refused };

    fn len(&mut self) -> Result<u64, Failed> {
        match self.try_len() {
            Ok(len) => Ok(len),
            Err(error) => Err(self.fail(error)),
        }
    }

    fn prepare(&mut self, _to: u64, _calls: u64) -> Result<(), NoMemory> {
        Ok(())
    }

    fn read(&mut self, at: u64, buf: &mut [u8]) -> Result<usize, Failed> {
        match self.try_read(at, buf) {
            Ok(count) => Ok(count),
            Err(error) => Err(self.fail(error)),
        }
    }

    fn write_at(&mut self, at: u64, piece: &[u8]) -> Result<(), Failed> {
        match self.try_write(at, piece) {
            Ok(()) => Ok(()),
            Err(error) => Err(self.fail(error)),
        }
    }

    fn cut(&mut self, len: u64) -> Result<(), Failed> {
        match self.try_cut(len) {
            Ok(()) => Ok(()),
            Err(error) => Err(self.fail(error)),
        }
    }

    fn sync(&mut self) -> Result<(), Failed> {
        match self.try_sync() {
            Ok(()) => Ok(()),
            Err(error) => Err(self.fail(error)),
        }
    }
}
