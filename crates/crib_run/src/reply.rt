//! The reply of an answer: the bytes of its text, and its status.
ghost use Rattle.std.specs.Prelude.{◌≡◌, ◌≤◌, length};
ghost use Rattle.crib_run.specs.Reply.{reply_of};

use crate::answer::Answer;
use crate::status::Status;
use crib_text::MAX_INPUT;
use std::alloc::Allocator;

impl<A: Allocator> Answer<A> {
    /// Returns the text of the answer, at most 8,388,608 bytes. It is what the program writes.
    #[tactic(auto, unfolding(crate::specs::Reply::reply_of))]
    pub fn as_slice(&self) -> &[u8]
        ensures output { result.now ≡ (reply_of self.now).output }
        ensures short { length result.now ≤ MAX_INPUT }
    {
        self.text.as_slice()
    }

    /// Returns the status of the answer. The program exits with it once the text is written.
    #[tactic(auto, unfolding(crate::specs::Reply::reply_of))]
    pub fn status(&self) -> Status
        ensures { result ≡ (reply_of self.now).status }
    {
        self.status
    }
}
