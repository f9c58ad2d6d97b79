//! Rows of histories and of claim boards, call by call and across threads. It has tests alone, so
//! that the crates below are proved once.
#![tactic(auto)]

#[cfg(test)]
mod board_rows;
#[cfg(test)]
mod history_rows;
