//! The words beside a sheet: why there is none, and how far a refused game was accepted.
ghost use Rattle.cribsheet.specs.Beside.{IsSaid};

use crib_game_sheet::put_acts_beside;
use crib_input::{Reason, Sections};
use crib_message::message_of;
use crib_run::{Explain, Page, Printer};
use crib_text::Sink;

/// The messages of the program, each with the acts before a refused one.
pub enum Messages {}

impl Explain for Messages {
    ghost says = { IsSaid };

    fn explain<E: Sink>(sections: Sections, input: &[u8], reason: &Reason, words: &mut E) {
        let message = message_of(b"cribsheet", sections, input, reason);
        let mut page = Printer {
            sink: words,
            is_cut: false,
        };
        page.put(message.as_slice());
        put_acts_beside(&mut page, sections, input, reason);
        let Printer { sink, is_cut: _ } = page;
        // The proof reads what the device holds from this use of it.
        let _ = &*sink;
    }
}
