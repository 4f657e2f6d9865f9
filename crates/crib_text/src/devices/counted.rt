//! Readers and writers of std as devices.
ghost use Rattle.std.specs.Prelude.{◌≡◌};
ghost use Rattle.std.specs.IoError.{error_kind};
ghost use Rattle.crib_text.specs.Device.{CountsFailure, glitch_for};
ghost use Rattle.crib_text.specs.Private.Device.{noted_as};

use super::device::{Glitch, Sink, Source};
use std::io;
use std::io::{Error, ErrorKind, Read, Write};

/// A reader or a writer of std, with a count of its failed calls. Each call is one call of the reader or writer inside
/// and moves the same bytes. A write also fails if it writes no byte of a slice that isn't empty.
#[derive(Drop)]
pub struct Counted<T> {
    inner: T,
    faults: u64,
}

impl<T> Counted<T> {
    ghost use Rattle.crib_text.specs.Counted.{counted_faults, counted_inner};

    /// Wraps a reader or a writer. The count of failed calls begins at 0.
    pub fn new(inner: T) -> Counted<T>
        ensures inner { counted_inner result ≡ inner }
        ensures faults { counted_faults result ≡ 0 }
    {
        Counted { inner, faults: 0 }
    }

    /// Returns the reader or writer inside.
    pub fn into_inner(self) -> T
        ensures { result ≡ counted_inner self }
    {
        let Counted { inner, faults: _ } = self;
        inner
    }

    fn failed_calls(&self) -> u64
        ensures { result ≡ counted_faults self.now }
    {
        self.faults
    }
}

impl From<Error> for Glitch {
    ghost from_gives = { λ error glitch. glitch ≡ glitch_for (error_kind error) };

    /// Returns `Again` for an interruption, and `Failed` for an error of any other kind.
    fn from(error: Error) -> Glitch {
        match error.kind() {
            ErrorKind::Interrupted => Glitch::Again,
            _ => Glitch::Failed,
        }
    }
}

// Returns the result of a call, given that of the call inside, and counts an error, up to `u64::MAX`.
fn noted(outcome: io::Result<usize>, faults: &mut u64) -> Result<usize, Glitch>
    ensures answer { result ≡ noted_as outcome }
    ensures counted { CountsFailure faults.old faults.new outcome }
{
    match outcome {
        Ok(n) => Ok(n),
        Err(error) => {
            *faults = faults.saturating_add(1);
            Err(Glitch::from(error))
        }
    }
}

impl<T: Read> Source for Counted<T> {
    ghost remaining = { λ c. T.remaining c.inner };

    ghost faults = { λ c. c.faults };

    fn read(&mut self, buf: &mut [u8]) -> Result<usize, Glitch> {
        let outcome = self.inner.read(buf);
        noted(outcome, &mut self.faults)
    }

    fn faults(&self) -> u64 {
        self.failed_calls()
    }
}

impl<T: Write> Sink for Counted<T> {
    ghost contents = { λ c. T.contents c.inner };

    ghost faults = { λ c. c.faults };

    fn write(&mut self, buf: &[u8]) -> Result<usize, Glitch> {
        let outcome = match self.inner.write(buf) {
            Ok(0) if !buf.is_empty() => Err(Error::from(ErrorKind::WriteZero)),
            outcome => outcome,
        };
        noted(outcome, &mut self.faults)
    }

    fn faults(&self) -> u64 {
        self.failed_calls()
    }
}
