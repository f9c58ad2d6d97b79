//! Rounding of quotients, and numbers as decimal text in a fixed unit.

#![tactic(auto)]

mod decimal;
mod guesses;
mod reciprocals;
mod roots;
mod rounding;
mod tables;
mod written;

pub use decimal::{NumberFault, numbers_are_spelled, read_decimal};
pub use guesses::Guess;
pub use reciprocals::{Reciprocal, billionth, half, mulhi};
pub use roots::{root, root_is_greatest};
pub use rounding::rnd;
pub use tables::interp;
pub use written::write_decimal;
