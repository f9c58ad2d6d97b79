//! The worked rows: tables of calls of the lower crates whose answers were worked out by hand. It has tests alone,
//! so that the crates below are proved once.
#![tactic(auto)]

#[cfg(test)]
mod hydraulics_rows;
#[cfg(test)]
mod io_rows;
#[cfg(test)]
mod mesh_rows;
#[cfg(test)]
mod number_rows;
#[cfg(test)]
mod report_rows;
#[cfg(test)]
mod words_rows;
