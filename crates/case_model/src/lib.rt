//! The plain types of a case and of its mesh, the range rule of points, the
//! hydraulic law as a trait, and the mesh row by row over any law.
#![tactic(auto)]

mod accepted;
mod cases;
mod fault;
mod faults;
mod joints;
mod laws;
mod lists;
mod meshes;
mod names;
mod places;
mod points;
mod ranges;
mod refusals;
mod rows;
mod spots;
mod states;
mod words;

pub use accepted::accepted_cases_are_kept;
pub use cases::{
    Case, Friction, MOST_PROBES, Node, NodeKind, Pipe, Probe, ProbeAt, Table, TableKind, Value,
};
pub use fault::CaseFault;
pub use faults::first_fault_is_least;
pub use joints::{Joint, PipeJoints, find_end, find_joints};
pub use laws::Law;
pub use lists::List;
pub use meshes::{Arrival, CavityRule, End, MOST_ENDS, Mesh, PipeMesh, Through};
pub use names::Name;
pub use places::{place_number, places_are_numbered};
pub use points::Point;
pub use ranges::{good_is_in_range, point_of, state_of};
pub use refusals::refusals_are_least;
pub use rows::rows_follow_the_law;
pub use spots::Spot;
pub use states::NodeState;
pub use words::{from_words, to_words, words_tell_the_point};
