//! Reading an input to its end, and writing an answer whole.
ghost use Rattle.std.specs.Prelude.{◌≡◌, ◌≤◌, ◌<◌, length, take, vec_len};
ghost use Rattle.std.specs.Prelude.{IfOk, OnOk, IfErr, OnErr, IfSome, MatchResult};
ghost use Rattle.std.specs.Io.KnownBytes.{Appends, IsAtEnd};
ghost use Rattle.crib_text.specs.Device.{HasFailed, HasNotFallen};
ghost use Rattle.crib_text.specs.Private.Transfer.{HasRead, IsUnread};
ghost use Rattle.crib_text.specs.Transfer.{IsReadingFault};

use super::device::{Glitch, Sink, Source};
use crate::fault::{TextCause, TextFault};
use std::alloc::Allocator;
use thiserror::Error;

/// The most bytes of an input, and of one call of [`put`].
pub const MAX_INPUT: usize = 8_388_608;

/// The most calls of a device that [`read_all`] or [`put`] makes.
pub const MAX_TURNS: u32 = 8_400_000;

// The size of the buffer for one read.
const PIECE: usize = 8192;

/// Not all bytes were written: the writer failed, or the 8,400,000 calls ran out.
#[derive(Clone, Copy, Debug, PartialEq, Eq, Error)]
#[error("the writer failed after {sent} bytes")]
pub struct Stopped {
    /// How many bytes were written, from the first one on.
    pub sent: usize,
}

/// Reads all bytes up to the end of the input, at most 8,388,608. It makes at most 8,400,000 calls, and retries an
/// interrupted one. Errors are refusals at line 0: 2 as soon as there are more bytes, 9 if a call fails or the calls
/// run out, and 11 if memory runs out.
pub fn read_all<A: Allocator + Copy, S: Source>(
    alloc: A,
    source: &mut S,
) -> Result<Vec<u8, A>, TextFault>
    ensures bytes { IfOk result (λ text. IfSome (S.remaining source.old) (λ input. text.items ≡ input)) }
    ensures end { OnOk result (IsAtEnd (S.remaining source.new)) }
    ensures short { IfOk result (λ text. vec_len text ≤ MAX_INPUT) }

    // The causes are 2, 9 and 11.
    ensures fault { IfErr result IsReadingFault }
    ensures too_long { IfErr result (λ e. e.cause ≡ TextCause.TooLong →
        IfSome (S.remaining source.old) (λ input. MAX_INPUT < length input)) }
    ensures failed { IfErr result (λ e. e.cause ≡ TextCause.ReadFault →
        HasFailed (S.faults source.old) (S.faults source.new)) }
{
    read_bytes(alloc, source).map_err(TextFault::of_input)
}

// Reads all bytes, as `read_all`. Errors are the causes of its refusals.
fn read_bytes<A: Allocator, S: Source>(alloc: A, source: &mut S) -> Result<Vec<u8, A>, TextCause>
    ensures { MatchResult result (HasRead (S.remaining source.old) (S.remaining source.new))
        (IsUnread (S.remaining source.old) (S.faults source.old) (S.faults source.new)) }
{
    let mut text = Vec::new(alloc);
    let mut piece = [0u8; PIECE];
    for _turn in 0..MAX_TURNS {
        match source.read(&mut piece) {
            Ok(0) => return Ok(text),
            Ok(n) => {
                if n > MAX_INPUT - text.len() {
                    return Err(TextCause::TooLong);
                }
                if text.extend_from_slice(&piece[..n]).is_err() {
                    return Err(TextCause::NoMemory);
                }
            }
            Err(Glitch::Again) => {}
            Err(Glitch::Failed) => break,
        }
    }
    Err(TextCause::ReadFault)
}

/// Writes all bytes, at most 8,388,608. It makes at most 8,400,000 calls, and retries an interrupted one with the bytes
/// that are left. It stops if a call fails or the calls run out. Then exactly the first `sent` bytes were written.
#[tactic(auto, using(crate::proofs::LoopFacts::known_bytes))]
pub fn put<W: Sink>(sink: &mut W, bytes: &[u8]) -> Result<(), Stopped>
    requires { length bytes.now ≤ MAX_INPUT }
    ensures all { OnOk result (Appends (W.contents sink.old) (W.contents sink.new) bytes.now) }
    ensures part { IfErr result (λ stopped. Appends (W.contents sink.old) (W.contents sink.new)
        (take stopped.sent bytes.now)) }
    ensures cut { IfErr result (λ stopped. stopped.sent < length bytes.now) }
    ensures failed { OnErr result (HasFailed (W.faults sink.old) (W.faults sink.new)) }
    ensures counted { HasNotFallen (W.faults sink.old) (W.faults sink.new) }
{
    let mut sent = 0;
    for _turn in 0..MAX_TURNS {
        if sent == bytes.len() {
            return Ok(());
        }
        match sink.write(&bytes[sent..]) {
            Ok(n) => sent += n,
            Err(Glitch::Again) => {} // the same bytes again
            Err(Glitch::Failed) => return Err(Stopped { sent }),
        }
    }
    if sent == bytes.len() {
        return Ok(());
    }
    Err(Stopped { sent })
}
