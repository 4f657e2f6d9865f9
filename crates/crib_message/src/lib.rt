//! What a refusal says in words: a sentence, and the line of the input with a mark below it.
//!
//! The answer knows nothing of it. A message is made of an input and of the reason why there is no answer, and takes no
//! memory.
#![tactic(auto)]

mod branches;
mod bytes;
mod cards;
mod excerpt;
mod explained;
mod grammar;
mod hints;
mod message;
mod misfit;
mod order;
mod scene;
mod sentence;
mod spelling;
mod state;
mod strays;
mod turns;

pub use message::{Message, message_of};
