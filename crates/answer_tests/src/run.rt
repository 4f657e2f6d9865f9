//! The answers that every program shares, and the exit statuses.
use crate::{is_answer, same};
use crib_input::{FaultCause, Reason, Refusal};
use crib_run::*;
use crib_text::{TextCause, TextFault};

#[test]
fn a_reason_has_its_line(rt: HostRuntime) {
    let too_long = Refusal::from(TextFault::of_input(TextCause::TooLong));
    let answer = reason_answer(Reason::from(too_long));
    is_answer(&rt, &answer, "refused line 0: 2\n", Status::Refused);
    let answer = reason_answer(Reason::Fault(FaultCause::ReadFailed));
    is_answer(&rt, &answer, "fault 9\n", Status::Fault);
    let answer = reason_answer(Reason::Fault(FaultCause::NoMemory));
    is_answer(&rt, &answer, "fault 11\n", Status::Fault);
}

#[test]
fn ends_with_0_to_3(rt: HostRuntime) {
    same(&rt, Status::Yes.code(), 0);
    same(&rt, Status::No.code(), 1);
    same(&rt, Status::Refused.code(), 2);
    same(&rt, Status::Fault.code(), 3);
}
