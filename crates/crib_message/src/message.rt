//! The message of a refusal or a fault, as it is written to standard error.
ghost use Rattle.std.specs.Prelude.{◌≡◌, ◌≤◌, ◌+◌, ◌++◌, length, codes, decimal, true};
ghost use Rattle.std.specs.Char.{is_ascii_alphabetic};
ghost use Rattle.std.specs.List.{filter, list_any};
ghost use Rattle.arrayvec.specs.ArrayVec.{array_vec_len};
ghost use Rattle.crib_input.specs.Refusals.{refusal_of};
ghost use Rattle.crib_message.specs.Message.{IsMessage, IsRefusalMessage, fault_text};
ghost use Rattle.crib_message.specs.Message.{heading, is_plain, message_text, spot_words};

use crate::excerpt::{excerpt_of, is_plain};
use crate::explained::{Explained, explain};
use crate::scene::{Scene, Section, Spot};
use arrayvec::ArrayVec;
use crib_input::{FaultCause, Reason, Refusal, Sections};
use itoa::Buffer;

/// A message of at most 1,500 bytes: lines of text.
#[derive(Drop)]
pub struct Message {
    text: ArrayVec<u8, 1500>,
}

impl Message {
    /// Returns the bytes of the message.
    #[tactic(auto, unfolding(crate::specs::Message::message_text))]
    pub fn as_slice(&self) -> &[u8]
        ensures text { result.now ≡ message_text self.now }
        ensures short { length result.now ≤ 1500 }
    {
        self.text.as_slice()
    }

    fn of_program(program: &[u8]) -> Message
        requires { length program.now ≤ 20 }
        ensures { result.text.items ≡ program.now ++ codes ": " }
    {
        let text = ArrayVec::new();
        let mut message = Message { text };
        message.add(program);
        message.add(b": ");
        message
    }

    fn add(&mut self, bytes: &[u8])
        requires { array_vec_len self.old.text + length bytes.now ≤ 1500 }
        ensures items { self.new.text.items ≡ self.old.text.items ++ bytes.now }
        ensures len { array_vec_len self.new.text ≡ array_vec_len self.old.text + length bytes.now }
    {
        self.text.try_extend_from_slice(bytes).unwrap();
    }

    // Appends the bytes 32 to 126 of a sentence.
    fn add_sentence(&mut self, sentence: &[u8])
        requires { array_vec_len self.old.text + length sentence.now ≤ 1500 }
        ensures items { self.new.text.items ≡ self.old.text.items ++ filter is_plain sentence.now }
        ensures len { array_vec_len self.new.text ≤ array_vec_len self.old.text + length sentence.now }
    {
        for byte in sentence {
            if is_plain(byte) {
                self.add(&[*byte]);
            }
        }
    }

    // Appends at most ten digits.
    fn add_number(&mut self, number: u32)
        requires { array_vec_len self.old.text ≤ 1490 }
        ensures items { self.new.text.items ≡ self.old.text.items ++ decimal number }
        ensures len { array_vec_len self.new.text ≤ array_vec_len self.old.text + 10 }
    {
        self.add(Buffer::new().format(number).as_bytes());
    }

    fn add_spot(&mut self, line: u32, spot: Spot)
        requires { array_vec_len self.old.text ≤ 1400 }
        ensures items { self.new.text.items ≡ self.old.text.items
            ++ (codes "line " ++ (decimal line ++ (spot_words spot ++ codes ": "))) }
        ensures len { array_vec_len self.new.text ≤ array_vec_len self.old.text + 47 }
    {
        self.add(b"line ");
        self.add_number(line);
        match spot.section {
            Section::Plan => self.add_line_of(spot.number, b" of the plan"),
            Section::Game => self.add_line_of(spot.number, b" of the game"),
            Section::Turns => self.add_line_of(spot.number, b" of the turns"),
            Section::Problem | Section::After => {}
        }
        self.add(b": ");
    }

    fn add_line_of(&mut self, number: u32, section: &[u8])
        requires room { array_vec_len self.old.text ≤ 1450 }
        requires short { length section.now ≤ 13 }
        ensures items { self.new.text.items ≡ self.old.text.items
            ++ (codes ", line " ++ (decimal number ++ section.now)) }
        ensures len { array_vec_len self.new.text ≤ array_vec_len self.old.text + 30 }
    {
        self.add(b", line ");
        self.add_number(number);
        self.add(section);
    }
}

/// Returns the message of a refusal or a fault. It begins with the name of the program, of at most 20 bytes.
/// The input is the one that is refused, and may be empty for a fault or for a refusal of line 0.
#[tactic(auto, unfolding(crate::specs::Message::message_text))]
pub fn message_of(program: &[u8], sections: Sections, input: &[u8], reason: &Reason) -> Message
    requires { length program.now ≤ 20 }
    ensures { IsMessage program.now sections input.now reason.now (message_text result) }
{
    match reason {
        Reason::Refused(refusal) => refusal_message(program, sections, input, refusal),
        Reason::Fault(cause) => fault_message(program, *cause),
    }
}

fn refusal_message(program: &[u8], sections: Sections, input: &[u8], refusal: &Refusal) -> Message
    requires { length program.now ≤ 20 }
    ensures { IsRefusalMessage program.now sections input.now (refusal_of refusal.now) result.text.items }
{
    let scene = Scene::new(sections, input, refusal.line);
    let Explained { sentence, mark } = explain(&scene, refusal.cause);
    let mut message = headed(program, refusal.line, scene.spot);
    message.add_sentence(worded(sentence.0.as_str().as_bytes()));
    message.add(b"\n");
    if let Some(line) = scene.line {
        message.add(excerpt_of(refusal, line, mark).as_slice());
    }
    message
}

// Returns the heading of a refusal.
fn headed(program: &[u8], line: u32, spot: Spot) -> Message
    requires { length program.now ≤ 20 }
    ensures items { result.text.items ≡ heading program.now line spot }
    ensures len { array_vec_len result.text ≤ 69 }
{
    let mut message = Message::of_program(program);
    if line > 0 {
        message.add_spot(line, spot);
    }
    message
}

fn fault_message(program: &[u8], cause: FaultCause) -> Message
    requires { length program.now ≤ 20 }
    ensures { result.text.items ≡ fault_text program.now cause }
{
    let mut message = Message::of_program(program);
    message.add(cause.words().as_bytes());
    message.add(b"\n");
    message
}

// Returns a sentence, or another one if it has no letter.
fn worded(sentence: &[u8]) -> &[u8]
    ensures word { list_any is_ascii_alphabetic result.now ≡ true }
    ensures short { length result.now ≤ length sentence.now + 20 }
{
    if sentence.iter().any(u8::is_ascii_alphabetic) {
        sentence
    } else {
        b"this line is refused"
    }
}
