//! The exit statuses.
ghost use Rattle.std.specs.Prelude.{◌≡◌};
ghost use Rattle.crib_run.specs.Status.{code_of};

/// The exit status of the program (docs/FORMATS.md, "Exit statuses").
#[derive(Clone, Copy, Debug, PartialEq, Eq)]
pub enum Status {
    /// The answer is printed, or it is yes.
    Yes,
    /// The answer is no.
    No,
    /// The input or the command line is refused.
    Refused,
    /// A device or an allocation failed, or the plan that was found is too large.
    Fault,
}

impl Status {
    /// Returns the number of the exit status: 0, 1, 2 or 3, in the order of the variants.
    pub fn code(self) -> u8
        ensures { result ≡ code_of self }
    {
        match self {
            Status::Yes => 0,
            Status::No => 1,
            Status::Refused => 2,
            Status::Fault => 3,
        }
    }
}
