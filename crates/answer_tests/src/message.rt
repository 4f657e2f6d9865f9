//! Messages of refusals and faults, each whole.
mod first_lines;
mod game_lines;
mod games;
mod grammar;
mod hand_lines;
mod messages;
mod openings;
mod plan_lines;
mod plans;
mod tables;
mod turns;

use self::messages::{are_said, is_said};
use crib_input::{Cause, FaultCause, Reason, Refusal, Sections};
use crib_text::TextCause;

// The refusal of a line for a cause that any text can have.
fn refused(line: u32, cause: TextCause) -> Reason {
    let cause = Cause::Text(cause);
    Reason::Refused(Refusal { line, cause })
}

#[test]
fn names_the_line(rt: HostRuntime) {
    let table = r#"
> problem 3|
cribplan: line 1: "3" is not a version of this section; expected: problem 1 or problem 2
  1 | problem 3
    |         ^
"#;
    are_said(&rt, Sections::Problem, table);
}

#[test]
fn names_a_fault(rt: HostRuntime) {
    let reason = Reason::Fault(FaultCause::NoMemory);
    is_said(
        &rt,
        Sections::Problem,
        b"",
        reason,
        "cribplan: out of memory\n",
    );
}

#[test]
fn names_an_input_that_is_too_long(rt: HostRuntime) {
    let wanted = "cribplan: the input is longer than 8,388,608 bytes\n";
    let reason = refused(0, TextCause::TooLong);
    is_said(&rt, Sections::Problem, b"", reason, wanted);
}

#[test]
fn cuts_a_long_line_around_the_mark_and_escapes_bytes(rt: HostRuntime) {
    let mut input = [b'a'; 200];
    input[100] = b'\t';
    let wanted = concat!(
        "cribplan: line 1: a tab is neither LF nor 32 to 126. Write a blank in place of the tab.\n",
        "  1 | ...aaaaaaaaaaaaaaaaaaaaaaaaaaaaaaaaaaaaaaaa\\x09aaaaaaaaa",
        "aaaaaaaaaaaaaaaaaaaaaaaaaaaaaaaaaaaaaaaaaaaaaaaaaa...\n",
        "    |                                            ^^^^\n",
    );
    let reason = refused(1, TextCause::BadByte);
    is_said(&rt, Sections::Problem, &input, reason, wanted);
}
