//! The words beside an answer: why there is none.
ghost use Rattle.std.specs.Prelude.{codes};
ghost use Rattle.crib_message.specs.Message.{IsMessage};

use crib_input::{Reason, Sections};
use crib_message::message_of;
use crib_run::Explain;
use crib_text::{Sink, put};

/// The messages of the program.
pub enum Messages {}

impl Explain for Messages {
    ghost says = { IsMessage (codes "cribplan") };

    fn explain<E: Sink>(sections: Sections, input: &[u8], reason: &Reason, words: &mut E) {
        let message = message_of(b"cribplan", sections, input, reason);
        let _sent = put(words, message.as_slice());
    }
}
