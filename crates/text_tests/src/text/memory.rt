//! Devices over memory, with a count of their failed calls.

use crib_text::Counted;
use failing_devices::{Feed, Tray, Trouble};
use std::alloc::Global;
use std::io;
use std::io::Read;

/// Returns a reader of these bytes, which reads at most `piece` of them in a call.
pub(crate) fn feeding(bytes: &[u8], piece: usize, trouble: Trouble) -> Counted<Feed<'_>> {
    Counted::new(Feed::new(bytes, piece, trouble))
}

/// Returns a writer that writes at most `piece` bytes in a call.
pub(crate) fn tray_of(alloc: Global, piece: usize, trouble: Trouble) -> Counted<Tray<Global>> {
    Counted::new(Tray::new(alloc, piece, trouble))
}

/// A reader of `left` bytes `x`, at most `piece` of them in a call. It stores none of them.
#[derive(Drop)]
pub struct Long {
    left: usize,
    piece: usize,
}

impl Read for Long {
    fn read(&mut self, buf: &mut [u8]) -> io::Result<usize> {
        let count = self.piece.min(buf.len()).min(self.left);
        buf[..count].fill(b'x');
        self.left -= count;
        Ok(count)
    }
}

pub(crate) fn making(left: usize, piece: usize) -> Counted<Long> {
    Counted::new(Long { left, piece })
}
