//! The laws of what comes next. The function does nothing; its contract states the laws.
ghost use Rattle.crib_next.specs.Laws.{CardLaw, SureLaw};

/// Whoever plays a sure plan is never stuck. If a card comes next, the owner is to move, the plan states this card, and
/// the owner holds it and it fits.
pub fn next_law()
    ensures sure { SureLaw }
    ensures card { CardLaw }
{}
