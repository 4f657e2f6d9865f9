//! Tests of the rules: cards, the play, the show, and what may be hidden.
#![tactic(auto)]

#[cfg(test)]
mod asserts;
#[cfg(test)]
mod cards;
#[cfg(test)]
mod know;
#[cfg(test)]
mod play;
#[cfg(test)]
mod reading;
#[cfg(test)]
mod show;
