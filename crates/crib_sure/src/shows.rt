//! The shows of a problem, and whether the owner reaches the goal in each that is possible.
ghost use Rattle.std.specs.Prelude.{◌≡◌, ◌↔◌, ◌⊎◌, List, IsTrue};
ghost use Rattle.crib_cards.specs.Sides.{are_decided};
ghost use Rattle.crib_play.specs.History.{Event};
ghost use Rattle.crib_play.specs.declared.turns.Turn.TheVariants as turns;
ghost use Rattle.crib_know.specs.Hidden.{KnowsAfter};
ghost use Rattle.crib_problem.specs.Setup.{Setup, target_of};
ghost use Rattle.crib_show.specs.Demands.{IsMetByAll, IsMetByNone};
ghost use Rattle.crib_show.specs.Show.{hand_points};
ghost use Rattle.crib_sure.specs.Shows.{AreShowsOf, IsDemandAtEnd, IsReachedBehind, worst_of};

use crib_know::Know;
use crib_problem::Problem;
use crib_show::{Demand, ExtremesByRanks, WorstShow, demand_of_show};

/// The shows of a problem: the show of one knowledge, and the extremes that were counted so far.
///
/// Use the same value for every show of a problem: then the points for the same ranks of the opponent are counted once,
/// and what all shows of the problem have in common is worked out once.
#[derive(Drop)]
pub struct Shows {
    /// The extremes that were counted so far.
    pub extremes: ExtremesByRanks,
    /// The show of the knowledge that [`Shows::go_to`] was given last.
    pub worst: WorstShow,
}

impl Shows {
    /// Returns the shows of a problem, none of which has been counted.
    pub fn new(problem: &Problem) -> Self
        ensures { AreShowsOf problem.now result }
    {
        let know = Know::start(problem);
        Shows {
            extremes: ExtremesByRanks::new(&problem.hold(), &problem.thrown(), problem.starter()),
            worst: WorstShow {
                dealer: problem.dealer(),
                scores: know.round().scores(),
                target: problem.target(),
                starter: problem.starter(),
                own_hold: problem.hold(),
                own_throw: problem.thrown(),
                ranks: know.ranks_seen(),
                unseen: problem.unseen(),
                fixed: know.fixed(),
                stop: problem.is_to_stop(),
            },
        }
    }

    /// Goes to the show of a knowledge once all eight cards are played. The counted extremes stay.
    pub fn go_to(&mut self, know: &Know)
        ensures worst { (problem : Setup) → AreShowsOf problem self.old → self.new.worst ≡ worst_of problem know.now }
        ensures extremes { self.new.extremes ≡ self.old.extremes }
    {
        self.worst.scores = know.round().scores();
        self.worst.ranks = know.ranks_seen();
        self.worst.fixed = know.fixed();
    }
}

/// Returns whether each deal that agrees with the history reaches the goal. The deal must be done. The shows that are
/// counted on the way are kept in `shows`.
#[inline]
pub fn is_reached(problem: &Problem, shows: &mut Shows, know: &Know) -> bool
    requires shows { AreShowsOf problem.now shows.old }
    requires over { know.now.round.asked ≡ turns.Over }
    requires known { (history : List Event) × KnowsAfter know.now problem.now history }
    ensures reached { (history : List Event) → KnowsAfter know.now problem.now history
        → (IsTrue result ↔ IsReachedBehind problem.now history) }
    ensures shows { AreShowsOf problem.now shows.new }
{
    let demand = demand_at_end(problem, shows.extremes.own.hand, know);
    if demand.is_impossible() {
        return false;
    }
    if demand.is_met_by_all() {
        return true;
    }
    shows.go_to(know);
    // Another value is lent, so that an end whose scores decide needs none in memory.
    let Demand { hand, total, crib } = demand;
    let left = Demand { hand, total, crib };
    shows.extremes.meets_all(&shows.worst, left)
}

/// Returns what the show demands of the opponent's hand and the crib when the deal is done, where the owner's hand has
/// `own_hand` points. If the scores decide, all deals meet the demand or none does.
#[inline]
pub fn demand_at_end(problem: &Problem, own_hand: u8, know: &Know) -> Demand
    ensures show { own_hand ≡ hand_points problem.now.hold problem.now.starter
        → IsDemandAtEnd problem.now know.now result }
    ensures decided { IsTrue (are_decided (target_of problem.now) know.now.round.scores)
        → IsMetByAll result ⊎ IsMetByNone result }
{
    demand_of_show(
        problem.dealer(),
        know.round().scores(),
        problem.target(),
        problem.is_to_stop(),
        own_hand,
    )
}
