//! Rows of the region engine. It has tests alone, so that the crates below are proved once.
#![tactic(auto)]

#[cfg(test)]
mod asynchronous;
#[cfg(test)]
mod entries;
#[cfg(test)]
mod texts;
