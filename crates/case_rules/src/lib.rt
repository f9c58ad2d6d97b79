//! The rules that the lines of a case text break, by themselves and among one another, and those on
//! the counts of its parts.
#![tactic(auto)]

mod counting;
mod judging;
mod parts;
mod reading;
mod singles;
mod sorts;
mod tally;

pub use counting::judge_counts;
pub use parts::{Part, directive_said};
pub use reading::judge_lines;
pub use tally::{SortTally, Tally, tally_lines};
