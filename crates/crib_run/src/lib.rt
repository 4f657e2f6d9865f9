//! Answers to inputs, and how one is delivered: a text and a status in memory, the line with a reason why there is no
//! answer, the writing of an answer to a device, and the words beside it; and the page, on which a text is put piece by
//! piece.
#![tactic(auto)]

mod answer;
mod making;
mod page;
mod reply;
mod running;
mod sending;
mod status;
mod text;

pub use answer::Answer;
pub use making::{line_answer, reason_answer, section_answer};
pub use page::{
    Page, Printer, put_card, put_cards, put_move, put_number, put_other_score, put_role, put_small,
};
pub use running::{Asks, Explain, deliver_reason, run_with_words};
pub use sending::Sendable;
pub use status::Status;
pub use text::{ShortText, Text, add, add_number};
