//! Problems made from values, and from other problems.
ghost use Rattle.std.specs.Prelude.{◌≡◌, ◌<◌, ◌≤◌, ◌↔◌, ◌++◌, ◌∷◌, [], length, IsTrue, IfSome, IfOk, Some, None};
ghost use Rattle.std.specs.Prelude.{MatchResult};
ghost use Rattle.std.specs.List.{AllByRecursion};
ghost use Rattle.crib_cards.specs.Cards.{IsCard};
ghost use Rattle.crib_cards.specs.Sets.{are_distinct};
ghost use Rattle.crib_problem.specs.declared.problem.Version.TheVariants.{Two};
ghost use Rattle.crib_problem.specs.Played.{act_refusal};
ghost use Rattle.crib_problem.specs.Refusals.{problem_cause_number};
ghost use Rattle.crib_problem.specs.Setup.{IsGoal, IsSetup, opening_basis_of, played_back, setup_by};

use crate::fault::ProblemCause;
use crate::problem::{Goal, Problem, Version};
use crate::turns::OpeningTable;
use arrayvec::ArrayVec;
use crib_cards::{Act, Card, CardSet, Scores, Side};

impl Problem {
    /// Returns the problem that these values make at its first lead, or `None` if they make no problem. It has
    /// version 2, which has each goal.
    ///
    /// The seven cards must be different, and each score must be at most 120 holes. The holes of a goal must be at
    /// least 1 and at most those left to hole 121.
    pub fn of(
        dealer: Side,
        scores: Scores,
        starter: Card,
        hold: [Card; 4],
        thrown: [Card; 2],
        goal: Goal,
    ) -> Option<Problem>
        ensures valid { IsSetup (setup_by Two dealer scores starter hold thrown goal [])
            → result ≡ Some (setup_by Two dealer scores starter hold thrown goal []) }
        ensures only { IfSome result (λ problem.
            (problem ≡ setup_by Two dealer scores starter hold thrown goal []) × IsSetup problem) }
    {
        let [first, second, third, fourth] = hold;
        let [one, other] = thrown;
        if !are_distinct(&[starter, first, second, third, fourth, one, other]) {
            return None;
        }
        if scores.owner > 120 || scores.opponent > 120 || !is_possible(goal, scores.owner) {
            return None;
        }
        Some(Problem {
            version: Version::Two,
            dealer,
            scores,
            starter,
            hold,
            thrown,
            goal,
            played: ArrayVec::new(),
        })
    }

    /// Returns the problem with one more turn at the end of its opening. It has version 2, and otherwise nothing
    /// changes.
    ///
    /// A turn that may not come next is refused, as is one after which the deal is done. The cause is the one by which
    /// `read_problem` refuses such a turn. There is always room for the turn, since an opening has at most 24 turns.
    pub fn after(&self, act: Act) -> Result<Problem, ProblemCause>
        ensures exact { MatchResult result
            (λ next. (act_refusal (opening_basis_of self.now) (played_back self.now) act ≡ None)
            × (next ≡ record self.now { version = Two; played = self.now.played ++ act ∷ [] }))
            (λ cause. act_refusal (opening_basis_of self.now) (played_back self.now) act
            ≡ Some (problem_cause_number cause)) }
        ensures setup { IfOk result (λ next. IsSetup next) }
    {
        let mut table = OpeningTable::after(self);
        table.add(&act)?;
        Ok(self.with_played(with_one_more(self.played(), act)))
    }

    /// Returns the same problem with another goal, or `None` if that is no problem. It has version 2.
    ///
    /// The goal must be possible at the owner's score, and the opening must be allowed with it: the owner must not
    /// reach the new target in the opening.
    pub fn with_goal(&self, goal: Goal) -> Option<Problem>
        ensures valid { IsSetup (record self.now { version = Two; goal = goal })
            → result ≡ Some (record self.now { version = Two; goal = goal }) }
        ensures only { IfSome result (λ problem.
            (problem ≡ record self.now { version = Two; goal = goal }) × IsSetup problem) }
    {
        self.with(self.scores(), goal)
    }

    /// Returns the same problem with other scores at the first lead, or `None` if that is no problem. It has version 2.
    ///
    /// Each score must be at most 120 holes, and the goal must be possible at the owner's score. The opening must be
    /// allowed with these scores: the owner must not reach the target in it, nor the opponent hole 121.
    pub fn with_scores(&self, scores: Scores) -> Option<Problem>
        ensures valid { IsSetup (record self.now { version = Two; scores = scores })
            → result ≡ Some (record self.now { version = Two; scores = scores }) }
        ensures only { IfSome result (λ problem.
            (problem ≡ record self.now { version = Two; scores = scores }) × IsSetup problem) }
    {
        self.with(scores, self.goal())
    }

    // Returns the same problem with other scores and another goal, if it is a problem.
    fn with(&self, scores: Scores, goal: Goal) -> Option<Problem>
        ensures valid { IsSetup (record self.now { version = Two; scores = scores; goal = goal })
            → result ≡ Some (record self.now { version = Two; scores = scores; goal = goal }) }
        ensures only { IfSome result (λ problem.
            (problem ≡ record self.now { version = Two; scores = scores; goal = goal }) × IsSetup problem) }
    {
        let Some(mut problem) = Problem::of(
            self.dealer(),
            scores,
            self.starter(),
            self.hold(),
            self.thrown(),
            goal,
        ) else {
            return None;
        };
        let acts = self.played();
        for act in acts {
            let Ok(next) = problem.after(*act) else {
                return None;
            };
            problem = next;
        }
        Some(problem)
    }
}

// Returns some acts with one more at the end.
fn with_one_more(acts: &[Act], act: Act) -> ArrayVec<Act, 32>
    requires { length acts.now < 32 }
    ensures { result.items ≡ acts.now ++ act ∷ [] }
{
    let mut more = ArrayVec::new();
    more.try_extend_from_slice(acts).unwrap();
    more.push(act);
    more
}

// Whether all cards are different.
fn are_distinct(cards: &[Card]) -> bool
    ensures value { result ≡ are_distinct cards.now }
    ensures cards { AllByRecursion IsCard cards.now }
{
    match cards.split_first() {
        None => true,
        Some((card, rest)) => {
            let is_new = CardSet::new().with_all(rest).insert(*card);
            are_distinct(rest) && is_new
        }
    }
}

// Whether a goal is possible for an owner with this score.
fn is_possible(goal: Goal, score: u8) -> bool
    requires { score ≤ 120 }
    ensures { IsTrue result ↔ IsGoal score goal }
{
    match goal {
        Goal::Win | Goal::Stop => true,
        Goal::Holes(holes) => 1 <= holes && holes <= 121 - score,
    }
}
