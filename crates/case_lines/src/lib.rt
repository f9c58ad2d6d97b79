//! Lines of the case text: their fields, what each field must be, and the rules that a line breaks
//! by itself.
#![tactic(auto)]

mod amounts;
mod counts;
mod cutting;
mod fields;
mod judging;
mod lines;
mod order;
mod quantities;
mod spelling;
mod words;

pub use amounts::{amount, quantity_in};
pub use counts::{has_count, has_too_many};
pub use fields::{FieldKind, field_kind, first_quantity, second_quantity};
pub use judging::{judge_line, lesser};
pub use lines::{Line, line_of, next_line};
pub use order::{is_ordered, pair_at};
pub use quantities::{NumberLimits, Quantity, limits};
pub use spelling::{field, heading_version, is_marked, referred};
pub use words::{Directive, NodeWord, Single, directive_in, directive_of, friction_of};
