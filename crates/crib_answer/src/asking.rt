//! What the program is asked: a job.
ghost use Rattle.crib_answer.specs.Answer.{Makes};
ghost use Rattle.crib_answer.specs.Job.{sections_of};
ghost use Rattle.crib_answer.specs.Meaning.{StatusMeans};
ghost use Rattle.crib_answer.specs.Told.{Tells};

use crate::answering::answer_of;
use crate::job::Job;
use crib_input::{Reason, Sections};
use crib_run::{Answer, Asks};
use std::alloc::Allocator;

impl<A: Allocator + Copy> Asks<A> for Job {
    ghost makes = { Makes };

    ghost means = { StatusMeans };

    ghost tells = { Tells };

    ghost reads = { sections_of };

    type Made = Answer<A>;

    fn sections(self) -> Sections {
        match self {
            Job::Solve => Sections::Problem,
            Job::Check => Sections::Question,
            Job::Replay | Job::Board => Sections::Played,
            Job::Follow => Sections::PlayedUnder,
        }
    }

    fn answer(self, alloc: A, input: &[u8]) -> Result<Answer<A>, Reason> {
        answer_of(alloc, self, input)
    }
}
