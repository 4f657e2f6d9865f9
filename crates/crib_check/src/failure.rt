//! Where and how a plan fails.

use crib_cards::Dealt;
use crib_game::Ending;

/// How a plan fails at a position, and the first deal in which it does. The trail of the walk has the turns that lead
/// there.
#[derive(Clone, Copy)]
pub struct Failure {
    pub ending: Ending,
    pub dealt: Dealt,
}
