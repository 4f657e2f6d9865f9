//! Which bytes make a text.
#![tactic(auto, using(crate::proofs::ByteLemmas::checking))]

ghost use Rattle.std.specs.Prelude.{◌≡◌, ◌≤◌, length};
ghost use Rattle.crib_text.specs.Refusals.{text_refusal};
ghost use Rattle.crib_text.specs.Reading.{Gives, text_check};
ghost use Rattle.crib_text.specs.Words as words;

use crate::devices::MAX_INPUT;
use crate::fault::{Fault, TextCause, TextFault};

// Checks that the bytes are lines of a text. They are refused with 1 if a byte is neither LF nor 32 to 126, at the line
// of the first such byte. Otherwise they are refused with 3 if the last byte isn't LF, at the last line.
pub(crate) fn check_bytes(bytes: &[u8]) -> Result<(), TextFault>
    requires { length bytes.now ≤ MAX_INPUT }
    ensures { Gives (λ _. tt) text_refusal result (text_check bytes.now) }
{
    let mut line = 1;
    for byte in bytes {
        if !is_text_byte(*byte) {
            return Err(Fault::at(line, TextCause::BadByte));
        }
        if *byte == b'\n' {
            line += 1;
        }
    }
    if !is_ended(bytes) {
        return Err(Fault::at(line, TextCause::CutShort));
    }
    Ok(())
}

fn is_text_byte(byte: u8) -> bool
    ensures { result ≡ words.is_text_byte byte }
{
    byte == b'\n' || (b' ' <= byte && byte <= b'~')
}

// Whether the last byte is LF. True if there are no bytes.
fn is_ended(bytes: &[u8]) -> bool
    ensures { result ≡ words.is_ended bytes.now }
{
    match bytes {
        [] => true,
        [.., last] => *last == b'\n',
    }
}
