//! The laws of deals that beat a plan, and of tallies. Each function does nothing, and its contract is the laws.
ghost use Rattle.crib_beaten.specs.Laws.{NoneLaw, OneLaw, OpenLaw, SumLaw, UnbeatenLaw};

/// A plan that is not sure is beaten by some deal, and only by open ones.
///
/// - `sure`: a plan is sure exactly if no deal in pack order beats it.
/// - `agrees`: each deal that beats a plan is open: it agrees with the opening.
pub fn beaten_law()
    ensures sure { UnbeatenLaw }
    ensures agrees { OpenLaw }
{}

/// What the figures of a tally mean together.
///
/// - `none`: no deal beats a plan exactly if the plan is sure.
/// - `one`: two tallies of one problem and one plan have the same figures and the same rows.
/// - `sums`: the rows add up. For each test on four ranks, as many deals beat the plan and have ranks that pass it as
///   the rows whose ranks pass it count together.
pub fn tally_law()
    ensures none { NoneLaw }
    ensures one { OneLaw }
    ensures sums { SumLaw }
{}
