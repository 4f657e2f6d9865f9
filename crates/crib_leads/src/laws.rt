//! The laws of what may be played next. The function does nothing; its contract states the laws.
ghost use Rattle.crib_leads.specs.Laws.{SureLeadLaw, VerdictLaw};

/// A card of the owner is sure exactly if some plan that begins with it is sure.
pub fn lead_law()
    ensures sure { SureLeadLaw }
    ensures verdict { VerdictLaw }
{}
