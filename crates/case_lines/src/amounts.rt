//! Numbers that fields give.
ghost use Rattle.std.specs.Prelude.{◌≡◌, ◌≤◌, unsigned_abs, IfOk, not, ◌&&◌, int_le};
ghost use Rattle.case_lines.specs.Quantities.{quantity_in as quantity_says, is_spelt as is_spelled};
ghost use Rattle.case_lines.specs.Quantities.{is_outside as lies_outside};
ghost use Rattle.case_lines.specs.Quantities.{number_or_zero as number_of_result};
ghost use Rattle.case_lines.specs.Quantities.{amount as amount_of};

use crate::quantities::{NumberLimits, Quantity, limits};
use fixed_num::{NumberFault, read_decimal};

/// The number that a field gives for a quantity, in its unit.
/// The faults are those of `read_decimal` at the places of the unit.
#[tactic(auto, unfolding(crate::specs::Quantities::quantity_in))]
pub fn quantity_in(quantity: Quantity, text: &[u8]) -> Result<i64, NumberFault>
    ensures value { result ≡ quantity_says quantity text.now }
    ensures size { IfOk result (λ x. unsigned_abs x ≤ 1_000_000_000_000_000_000) }
{
    read_decimal(text, limits(quantity).places)
}

/// The number that a field gives for a quantity, in its unit; 0 where it gives none.
#[tactic(auto, unfolding(crate::specs::Quantities::amount))]
pub fn amount(quantity: Quantity, text: &[u8]) -> i64
    ensures value { result ≡ amount_of quantity text.now }
    ensures size { unsigned_abs result ≤ 1_000_000_000_000_000_000 }
{
    number_or_zero(quantity_in(quantity, text))
}

fn number_or_zero(number: Result<i64, NumberFault>) -> i64
    requires { IfOk number (λ x. unsigned_abs x ≤ 1_000_000_000_000_000_000) }
    ensures value { result ≡ number_of_result number }
    ensures size { unsigned_abs result ≤ 1_000_000_000_000_000_000 }
{
    match number {
        Ok(x) => x,
        Err(_) => 0,
    }
}

/// Whether a field is spelt as a number, of whatever size.
pub(crate) fn is_spelt(number: Result<i64, NumberFault>) -> bool
    ensures { result ≡ is_spelled number }
{
    match number {
        Ok(_) => true,
        Err(NumberFault::Large) => true,
        Err(NumberFault::Spelling) => false,
        Err(NumberFault::Places) => false,
    }
}

/// Whether a field is spelt as a number that lies outside its limits.
pub(crate) fn is_outside(limits: NumberLimits, number: Result<i64, NumberFault>) -> bool
    ensures { result ≡ lies_outside limits number }
{
    match number {
        Ok(x) => !(limits.least <= x && x <= limits.most),
        Err(NumberFault::Large) => true,
        Err(NumberFault::Spelling) => false,
        Err(NumberFault::Places) => false,
    }
}
