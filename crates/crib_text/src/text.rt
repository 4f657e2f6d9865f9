//! The lines, words and numbers of a text, read and written.

mod bytes;
mod line;
mod lines;
mod number;
mod room;
mod section;

pub use line::{Line, Token};
pub use lines::Lines;
pub use number::read_number;
pub use room::{append, append_number, append_small};
pub use section::{check_keyword, fault_in, in_line, number_of, read_header, word_at};
