//! Numbers as decimal text: reading.
ghost use Rattle.std.specs.Prelude.{◌≡◌, ◌+◌, ◌-◌, ◌*◌, ◌^◌, ◌<◌, ◌≤◌, ◌&&◌, ◌⊎◌, min};
ghost use Rattle.std.specs.Prelude.{ℕ, ℤ, pos, neg_ℤ, unsigned_abs, List, length, IfOk, Err};
ghost use Rattle.std.specs.Char.{is_ascii_digit};
ghost use Rattle.std.specs.List.{fold, list_all, position_or_len};
ghost use Rattle.fixed_num.specs.Decimal.{push_digit, is_point, are_digits, scaled, sized};
ghost use Rattle.fixed_num.specs.Decimal.{parted, capped, size_of, signed_by, number_of};
ghost use Rattle.fixed_num.specs.Spelled.{IsSpelled, HasSpelling, spelled_number};
ghost use Rattle.fixed_num.specs.declared.decimal.NumberFault.TheVariants.{Spelling};

use thiserror::Error;

/// Why a text is no number.
#[derive(Clone, Copy, Debug, PartialEq, Eq, Error)]
pub enum NumberFault {
    /// Not a sign or none, one or more digits, and perhaps a point with one or more digits.
    #[error("not spelled as a number")]
    Spelling,
    /// More digits after the point than the unit has.
    #[error("too many places")]
    Places,
    /// A size over 10^18 in the unit.
    #[error("too large")]
    Large,
}

// The greatest size of a number, in its unit.
const MOST: u64 = 1_000_000_000_000_000_000;

/// The number that a field spells, in the unit 10^-places.
/// `Spelling` is for a field that is no number, `Places` for more digits after the point than the
/// unit has, `Large` for a size over 10^18.
pub fn read_decimal(field: &[u8], places: u32) -> Result<i64, NumberFault>
    requires places { places ≤ 12 }
    ensures value { result ≡ number_of places field.now }
    ensures size { IfOk result (λ x. unsigned_abs x ≤ 1_000_000_000_000_000_000) }
{
    read_signed(field, places)
}

/// The law of numbers: a field is a number exactly where it is a sign or none, one or more digits, and
/// perhaps a point with one or more digits; it then has the number of these parts, or the fault that
/// they have, and else the fault of spelling.
pub fn numbers_are_spelled()
    ensures number { (places : ℕ) (text sign whole fraction : List ℕ) →
        IsSpelled text sign whole fraction →
        number_of places text ≡ spelled_number places sign whole fraction }
    ensures spelled { (places : ℕ) (text : List ℕ) → HasSpelling text →
        number_of places text ≡ Err Spelling → ⊥ }
    ensures either { (places : ℕ) (text : List ℕ) →
        (number_of places text ≡ Err Spelling) ⊎ HasSpelling text }
{}

#[tactic(auto, unfolding(crate::specs::Decimal::number_of))]
fn read_signed(field: &[u8], places: u32) -> Result<i64, NumberFault>
    requires { places ≤ 12 }
    ensures value { result ≡ number_of places field.now }
    ensures size { IfOk result (λ x. unsigned_abs x ≤ 1_000_000_000_000_000_000) }
{
    match field {
        [] => Err(NumberFault::Spelling),
        [first, rest @ ..] => {
            if *first == b'-' {
                negative(read_size(rest, places))
            } else if *first == b'+' {
                positive(read_size(rest, places))
            } else {
                positive(read_size(field, places))
            }
        }
    }
}

fn positive(size: Result<u64, NumberFault>) -> Result<i64, NumberFault>
    requires { IfOk size (λ n. n ≤ 1_000_000_000_000_000_000) }
    ensures value { result ≡ signed_by pos size }
    ensures size { IfOk result (λ x. unsigned_abs x ≤ 1_000_000_000_000_000_000) }
{
    let size = size?;
    Ok(size as i64)
}

fn negative(size: Result<u64, NumberFault>) -> Result<i64, NumberFault>
    requires { IfOk size (λ n. n ≤ 1_000_000_000_000_000_000) }
    ensures value { result ≡ signed_by (λ n. neg_ℤ (pos n)) size }
    ensures size { IfOk result (λ x. unsigned_abs x ≤ 1_000_000_000_000_000_000) }
{
    let size = size?;
    Ok(-(size as i64))
}

#[tactic(auto, unfolding(crate::specs::Decimal::size_of))]
fn read_size(bytes: &[u8], places: u32) -> Result<u64, NumberFault>
    requires { places ≤ 12 }
    ensures value { result ≡ size_of places bytes.now }
    ensures size { IfOk result (λ n. n ≤ 1_000_000_000_000_000_000) }
{
    if has_digits(bytes) {
        return size(bytes, &[], places);
    }
    let at = point_place(bytes);
    if at == bytes.len() {
        return Err(NumberFault::Spelling);
    }
    read_parts(&bytes[..at], &bytes[at + 1..], places)
}

fn has_digits(bytes: &[u8]) -> bool
    ensures { result ≡ are_digits bytes.now }
{
    !bytes.is_empty() && only_digits(bytes)
}

fn only_digits(bytes: &[u8]) -> bool
    ensures { result ≡ list_all is_ascii_digit bytes.now }
{
    bytes.iter().all(|b| b.is_ascii_digit())
}

// Where the first point stands, or the length.
fn point_place(bytes: &[u8]) -> usize
    ensures value { result ≡ position_or_len is_point bytes.now }
    ensures within { result ≤ length bytes.now }
{
    for (i, b) in bytes.iter().enumerate() {
        if *b == b'.' {
            return i;
        }
    }
    bytes.len()
}

// The size that the parts before and after a point spell.
fn read_parts(whole: &[u8], fraction: &[u8], places: u32) -> Result<u64, NumberFault>
    requires { places ≤ 12 }
    ensures value { result ≡ parted places whole.now fraction.now }
    ensures size { IfOk result (λ n. n ≤ 1_000_000_000_000_000_000) }
{
    if has_digits(whole) && has_digits(fraction) {
        return size(whole, fraction, places);
    }
    Err(NumberFault::Spelling)
}

// The size that the digits before and after the point give.
fn size(whole: &[u8], fraction: &[u8], places: u32) -> Result<u64, NumberFault>
    requires { places ≤ 12 }
    ensures value { result ≡ sized places whole.now fraction.now }
    ensures size { IfOk result (λ n. n ≤ 1_000_000_000_000_000_000) }
{
    if fraction.len() > places as usize {
        return Err(NumberFault::Places);
    }
    let number = push_digits(push_digits(0, whole), fraction);
    scale(number, places - fraction.len() as u32)
}

// The number with more digits behind it, or one over the greatest size where it is over that.
fn push_digits(start: u64, digits: &[u8]) -> u64
    requires { start ≤ 1_000_000_000_000_000_001 }
    ensures value { result ≡ capped (fold push_digit start digits.now) }
    ensures most { result ≤ 1_000_000_000_000_000_001 }
{
    let mut number = start;
    for digit in digits {
        number = (10 * number + digit.saturating_sub(b'0') as u64).min(MOST + 1);
    }
    number
}

fn scale(number: u64, zeros: u32) -> Result<u64, NumberFault>
    requires number { number ≤ 1_000_000_000_000_000_001 }
    requires zeros { zeros ≤ 12 }
    ensures value { result ≡ scaled zeros number }
    ensures size { IfOk result (λ n. n ≤ 1_000_000_000_000_000_000) }
{
    let size = number as u128 * 10u128.pow(zeros);
    if size > MOST as u128 {
        return Err(NumberFault::Large);
    }
    Ok(size as u64)
}
