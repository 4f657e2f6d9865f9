//! Tests of the sections of an input, whole inputs, games that are replayed and followed, and boards.
#![tactic(auto)]

#[cfg(test)]
mod board;
#[cfg(test)]
mod game;
#[cfg(test)]
mod input;
#[cfg(test)]
mod inputs;
#[cfg(test)]
mod making;
#[cfg(test)]
mod plan;
#[cfg(test)]
mod problem;
