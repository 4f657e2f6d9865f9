//! For tests: a reader and a writer over memory. They move at most a given number of bytes at each call. They fail, or
//! are interrupted, at the calls that the test names.
#![tactic(auto)]

ghost use Rattle.std.specs.Prelude.{◌≡◌, [], Some, length};
ghost use Rattle.failing_devices.specs.Devices.{fed_bytes, tray_bytes};

use std::alloc::Allocator;
use std::io;
use std::io::{Error, ErrorKind, Read, Write};

#[cfg(test)]
mod tests;

/// Which calls of a device return an error, and of which kind. The first call is number 1. A call that returns an error
/// moves no byte.
#[derive(Clone, Copy)]
pub enum Trouble {
    /// No call returns an error.
    Never,
    /// Only this call returns an error.
    At(u64, ErrorKind),
    /// This call and each later one return an error.
    From(u64, ErrorKind),
}

// Counts the calls of a device, and returns the error of each call that must fail.
#[derive(Clone, Copy)]
struct Calls {
    made: u64,
    trouble: Trouble,
}

impl Calls {
    fn next(&mut self) -> io::Result<()> {
        self.made = self.made.saturating_add(1);
        match self.trouble {
            Trouble::At(call, kind) if self.made == call => Err(Error::from(kind)),
            Trouble::From(call, kind) if self.made >= call => Err(Error::from(kind)),
            _ => Ok(()),
        }
    }
}

/// A reader over memory.
#[derive(Drop)]
pub struct Feed<'a> {
    rest: &'a [u8],
    piece: usize,
    calls: Calls,
}

impl<'a> Feed<'a> {
    /// Returns a reader of these bytes. A call reads at most `piece` of them, or one if `piece` is 0.
    pub fn new(bytes: &'a [u8], piece: usize, trouble: Trouble) -> Feed<'a>
        ensures { fed_bytes result ≡ bytes.now }
    {
        let calls = Calls { made: 0, trouble };
        Feed {
            rest: bytes,
            piece,
            calls,
        }
    }

    /// The number of bytes that are not read yet.
    pub fn left(&self) -> usize
        ensures { result ≡ length (fed_bytes self.now) }
    {
        self.rest.len()
    }
}

impl Read for Feed<'_> {
    ghost remaining = { λ feed. Some feed.rest.now };

    fn read(&mut self, buf: &mut [u8]) -> io::Result<usize> {
        self.calls.next()?;
        let count = self.piece.max(1).min(buf.len()).min(self.rest.len());
        let (front, rest) = self.rest.split_at(count);
        buf[..count].copy_from_slice(front);
        self.rest = rest;
        Ok(count)
    }
}

/// A writer over memory.
#[derive(Drop)]
pub struct Tray<A: Allocator> {
    bytes: Vec<u8, A>,
    piece: usize,
    calls: Calls,
}

impl<A: Allocator> Tray<A> {
    /// Returns a writer that accepts at most `piece` bytes at each call. If `piece` is 0, it accepts none. A call also
    /// fails if an allocation fails.
    pub fn new(alloc: A, piece: usize, trouble: Trouble) -> Tray<A>
        ensures { tray_bytes result ≡ [] }
    {
        let calls = Calls { made: 0, trouble };
        Tray {
            bytes: Vec::new(alloc),
            piece,
            calls,
        }
    }

    /// The bytes that were written.
    pub fn into_bytes(self) -> Vec<u8, A>
        ensures { result.items ≡ tray_bytes self }
    {
        let Tray {
            bytes,
            piece: _,
            calls: _,
        } = self;
        bytes
    }
}

impl<A: Allocator> Write for Tray<A> {
    ghost contents = { λ tray. Some tray.bytes.items };

    fn write(&mut self, buf: &[u8]) -> io::Result<usize> {
        self.calls.next()?;
        let count = self.piece.min(buf.len());
        self.bytes.extend_from_slice(&buf[..count])?;
        Ok(count)
    }

    fn flush(&mut self) -> io::Result<()> {
        Ok(())
    }
}
