//! Bytes in and out: the devices, and the transfer of a whole text.

mod counted;
mod device;
mod transfer;

pub use counted::Counted;
pub use device::{Glitch, Sink, Source};
pub use transfer::{MAX_INPUT, MAX_TURNS, Stopped, put, read_all};
