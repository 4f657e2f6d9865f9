//! Sends an answer to a device.
ghost use Rattle.crib_text.specs.Device.{HasFailed};
ghost use Rattle.crib_run.specs.Reply.{Reply, reply_of};
ghost use Rattle.crib_run.specs.Run.{Sends};

use crate::answer::Answer;
use crate::status::Status;
use crib_text::{Sink, put};
use std::alloc::Allocator;

/// What can be sent as an answer.
pub trait Sendable {
    // The bytes that are sent, and the status.
    ghost reply: { Self → Reply };

    /// Writes the answer. Returns its status, or `Fault` if the writer failed.
    fn send<W: Sink>(&self, sink: &mut W) -> Status
        ensures { Sends (reply self.now) (W.contents sink.old) (W.contents sink.new)
            (HasFailed (W.faults sink.old) (W.faults sink.new)) result };
}

impl<A: Allocator> Sendable for Answer<A> {
    ghost reply = { λ answer. reply_of answer };

    fn send<W: Sink>(&self, sink: &mut W) -> Status {
        match put(sink, self.as_slice()) {
            Ok(()) => self.status(),
            Err(_) => Status::Fault,
        }
    }
}
