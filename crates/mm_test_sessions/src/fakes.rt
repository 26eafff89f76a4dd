//! Writers, readers and folders that fail.

use mm_definitions::streams::Io;
use mm_kit::{Folder, FolderFault, Found, MemoryFolder};
use std::alloc::Global;
use std::io;
use std::io::{ErrorKind, Read, Write};

/// A writer that takes so many bytes and then fails, or fails at its first flush.
#[derive(Drop)]
pub(crate) struct Short {
    left: usize,
    flushes: bool,
    pub(crate) taken: Vec<u8>,
}

/// A writer that takes so many bytes.
pub(crate) fn short_writer(alloc: Global, left: usize) -> Io<Short> {
    Io::new(Short {
        left,
        flushes: true,
        taken: Vec::new(alloc),
    })
}

/// A writer that takes all bytes and can't be flushed.
pub(crate) fn unflushed_writer(alloc: Global) -> Io<Short> {
    Io::new(Short {
        left: usize::MAX,
        flushes: false,
        taken: Vec::new(alloc),
    })
}

impl Write for Short {
    fn write(&mut self, buf: &[u8]) -> io::Result<usize> {
        if self.left == 0 {
            return Err(io::Error::from(ErrorKind::Other));
        }
        let n = self.left.min(buf.len());
        self.taken.extend_from_slice(&buf[..n])?;
        self.left -= n;
        Ok(n)
    }

    fn flush(&mut self) -> io::Result<()> {
        if !self.flushes {
            return Err(io::Error::from(ErrorKind::Other));
        }
        Ok(())
    }
}

/// A reader that gives its bytes, so many at a time at most, and one of whose reads fails, counted from 1.
#[derive(Drop)]
pub(crate) struct Slow<'a> {
    bytes: &'a [u8],
    most: usize,
    reads: u32,
    failing: u32,
}

/// A reader that gives so many bytes at a time, whose read of this number fails.
pub(crate) fn torn_reader(bytes: &[u8], most: usize, failing: u32) -> Io<Slow<'_>> {
    Io::new(Slow {
        bytes,
        most,
        reads: 0,
        failing,
    })
}

/// A reader that gives one byte at a time, and then ends.
pub(crate) fn slow_reader(bytes: &[u8]) -> Io<Slow<'_>> {
    torn_reader(bytes, 1, 0)
}

impl Read for Slow<'_> {
    fn read(&mut self, buf: &mut [u8]) -> io::Result<usize> {
        self.reads = self.reads.wrapping_add(1);
        if self.reads == self.failing {
            return Err(io::Error::from(ErrorKind::Other));
        }
        let n = self.bytes.len().min(buf.len()).min(self.most);
        for i in 0..n {
            buf[i] = self.bytes[i];
        }
        self.bytes = &self.bytes[n..];
        Ok(n)
    }
}

/// A folder in memory, one of whose reads fails, counted from 1.
#[derive(Drop)]
pub(crate) struct Torn {
    files: MemoryFolder,
    reads: u32,
    failing: u32,
    failed: bool,
}

/// A folder whose read of this number fails, and none where it is 0.
pub(crate) fn torn_folder(files: MemoryFolder, failing: u32) -> Torn {
    Torn {
        files,
        reads: 0,
        failing,
        failed: false,
    }
}

impl Folder for Torn {
    ghost use Rattle.std.specs.Prelude.{None};

    ghost files = { λ s. None };

    ghost has_failed = { λ s. s.failed };

    fn read(&mut self, alloc: Global, name: &str, most: u64) -> Result<Found, FolderFault> {
        self.reads = self.reads.wrapping_add(1);
        if self.reads == self.failing {
            self.failed = true;
            return Err(FolderFault::Failed);
        }
        match self.files.read(alloc, name, most) {
            Ok(found) => Ok(found),
            Err(_) => Err(FolderFault::Memory),
        }
    }

    fn failed(&self) -> bool {
        self.failed
    }
}
