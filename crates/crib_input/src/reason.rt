//! Why there is no answer to a question.
ghost use Rattle.std.specs.Prelude.{◌≡◌, ◌≤◌, length};
ghost use Rattle.crib_input.specs.declared.refusal.Cause.TheVariants as causes;
ghost use Rattle.crib_input.specs.declared.reason.Reason.TheVariants as reasons;
ghost use Rattle.crib_input.specs.Refusals.{IsForPlan, fault_number, fault_words};

use crate::refusal::{Cause, Refusal};
use crib_plan::PlanFault;
use crib_problem::ProblemFault;
use crib_text::{TextCause, TextFault};
use std::fmt::{self, Display, Formatter, Write};
use thiserror::Error;

/// The cause of a fault.
#[derive(Clone, Copy, Debug, PartialEq, Eq, Error)]
pub enum FaultCause {
    /// 9: the reader failed, or the limit of 8,400,000 calls of the reader was reached.
    ReadFailed,
    /// 10: the writer failed, or the 8,400,000 calls of writing ran out. The number is not printed.
    WriteFailed,
    /// 11: an allocation failed.
    NoMemory,
    /// 50: the plan that was found has more than 65,535 nodes.
    TooLarge,
}

impl FaultCause {
    /// Returns the number of the fault (docs/FORMATS.md, "Faults").
    pub fn number(self) -> u8
        ensures { result ≡ fault_number self }
    {
        match self {
            FaultCause::ReadFailed => 9,
            FaultCause::WriteFailed => 10,
            FaultCause::NoMemory => 11,
            FaultCause::TooLarge => 50,
        }
    }

    /// Returns the fault in words, at most 42 bytes (docs/FORMATS.md, "Words on standard error").
    pub fn words(self) -> &'static str
        ensures text { result.now ≡ fault_words self }
        ensures short { length result.now ≤ 42 }
    {
        match self {
            FaultCause::ReadFailed => "the input can't be read",
            FaultCause::WriteFailed => "the answer can't be written",
            FaultCause::NoMemory => "out of memory",
            FaultCause::TooLarge => "the plan that was found has too many nodes",
        }
    }
}

impl Display for FaultCause {
    fn fmt<W: Write>(&self, f: &mut Formatter<W>) -> fmt::Result {
        f.write_str(self.words())
    }
}

/// Why a question has no answer: the input is refused, or there is a fault.
#[derive(Clone, Copy, Debug, PartialEq, Eq, Error)]
pub enum Reason {
    /// The input is refused.
    #[error(transparent)]
    Refused(Refusal),
    /// The input was not read, or its answer was not found or not written.
    #[error(transparent)]
    Fault(FaultCause),
}

impl From<Refusal> for Reason {
    ghost from_gives = { λ refusal reason. reason ≡ reasons.Refused refusal };

    fn from(refusal: Refusal) -> Reason {
        Reason::Refused(refusal)
    }
}

impl From<TextFault> for Reason {
    ghost from_gives = { λ fault reason.
        reason ≡ reasons.Refused (record { line = fault.line; cause = causes.Text fault.cause }) };

    fn from(fault: TextFault) -> Reason {
        Reason::Refused(Refusal::from(fault))
    }
}

impl From<ProblemFault> for Reason {
    ghost from_gives = { λ fault reason.
        reason ≡ reasons.Refused (record { line = fault.line; cause = causes.Problem fault.cause }) };

    fn from(fault: ProblemFault) -> Reason {
        Reason::Refused(Refusal::from(fault))
    }
}

impl From<PlanFault> for Reason {
    ghost from_gives = { λ fault reason. IsForPlan fault reason };

    fn from(fault: PlanFault) -> Reason {
        if fault.cause.number() == TextCause::NoMemory.number() {
            return Reason::Fault(FaultCause::NoMemory);
        }
        let cause = Cause::Plan(fault.cause);
        Reason::Refused(Refusal {
            line: fault.line,
            cause,
        })
    }
}
