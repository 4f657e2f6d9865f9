//! The line `goal` of a problem, read and written.
ghost use Rattle.std.specs.Prelude.{◌+◌, ◌≤◌, ◌∷◌, codes, vec_len, vec_capacity};
ghost use Rattle.crib_text.specs.Lines.{line_of};
ghost use Rattle.crib_text.specs.Reading.{Gives};
ghost use Rattle.crib_text.specs.Spelling.{line_text};
ghost use Rattle.crib_text.specs.Private.Writing.{Appended};
ghost use Rattle.crib_problem.specs.Refusals.{problem_cause_number};
ghost use Rattle.crib_problem.specs.Reading.{holes_in, plain_goal, goal_in};
ghost use Rattle.crib_problem.specs.Spelling.{goal_words};

use crate::fault::ProblemCause;
use crate::problem::{Goal, Version};
use crib_text::{Line, TextCause, append, append_small, check_keyword, number_of, word_at};
use std::alloc::Allocator;

const BAD_LINE: ProblemCause = ProblemCause::Text(TextCause::BadLine);

#[tactic(auto, unfolding(crate::specs::Reading::holes_in))]
fn holes_of(score: u8, word: &[u8]) -> Result<Goal, ProblemCause>
    requires { score ≤ 120 }
    ensures { Gives (λ goal. goal) problem_cause_number result (holes_in score word.now) }
{
    let holes = number_of(word)?;
    if holes < 1 || holes > u32::from(121 - score) {
        return Err(ProblemCause::BadGoal);
    }
    Ok(Goal::Holes(holes as u8))
}

#[tactic(auto, unfolding(crate::specs::Reading::plain_goal, crate::specs::Reading::stop_goal))]
fn plain_goal_of(version: Version, kind: &[u8]) -> Result<Goal, ProblemCause>
    ensures { Gives (λ goal. goal) problem_cause_number result (plain_goal version kind.now) }
{
    match kind {
        b"win" => Ok(Goal::Win),
        b"stop" if version == Version::Two => Ok(Goal::Stop),
        _ => Err(BAD_LINE),
    }
}

#[tactic(auto, using(crate::proofs::LineLemmas::words_after), unfolding(crate::specs::Reading::goal_in, crate::specs::Reading::win_in, crate::specs::Reading::target_in))]
pub(crate) fn goal_of(line: &Line<'_>, version: Version, score: u8) -> Result<Goal, ProblemCause>
    requires { score ≤ 120 }
    ensures { Gives (λ goal. goal) problem_cause_number result (goal_in version score (line_of line.now).words) }
{
    if line.word_count() == 2 {
        check_keyword(line, b"goal", 1)?;
        return plain_goal_of(version, word_at(line, 1));
    }
    check_keyword(line, b"goal", 2)?;
    if word_at(line, 1) != b"holes".as_slice() {
        return Err(BAD_LINE);
    }
    holes_of(score, word_at(line, 2))
}

pub(crate) fn append_goal<A: Allocator>(text: &mut Vec<u8, A>, goal: Goal)
    requires { vec_len text.old + 15 ≤ vec_capacity text.old }
    ensures { Appended text.old text.new (line_text (codes "goal" ∷ goal_words goal)) 15 }
{
    match goal {
        Goal::Win => append(text, b"goal win\n"),
        Goal::Stop => append(text, b"goal stop\n"),
        Goal::Holes(holes) => {
            append(text, b"goal holes ");
            append_small(text, holes);
            append(text, b"\n");
        }
    }
}
