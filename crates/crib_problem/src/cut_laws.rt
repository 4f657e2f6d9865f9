//! The laws of problems that are cut short. The function does nothing; its contract states the laws.
ghost use Rattle.crib_problem.specs.CutLaws.{LinesCutLaw, TextCutLaw};

/// Each proper beginning of a problem's text, by lines or by bytes, is refused as cut short (3), at the line of the
/// first missing line or byte. This holds for both versions.
pub fn cut_short_law()
    ensures lines { LinesCutLaw }
    ensures text { TextCutLaw }
{}
