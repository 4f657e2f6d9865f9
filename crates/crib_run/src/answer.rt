//! The answer to an input: its text and its status.
ghost use Rattle.std.specs.Prelude.{◌≤◌, length};
ghost use Rattle.crib_input.specs.Input.{most_bytes};
ghost use Rattle.crib_run.specs.Text.{text_bytes};

use crate::status::Status;
use crate::text::Text;
use std::alloc::Allocator;

/// The whole answer to an input: a text of at most 8,388,608 bytes, and a status. It is made before its first byte is
/// written.
#[derive(Drop)]
pub struct Answer<A: Allocator> {
    pub text: Text<A>,
    pub status: Status,
    ghost can_be_sent: { length (text_bytes text) ≤ most_bytes },
}
