//! Rounded quotients by a divisor that stays the same: a product and a shift in place of a division.
ghost use Rattle.std.specs.Prelude.{
  ◌≡◌,
  ◌+◌,
  ◌-◌,
  ◌*◌,
  ◌%◌,
  ◌^◌,
  ◌<◌,
  ◌≤◌,
  pos,
  ◌≤ℤ◌,
  unsigned_abs,
};
ghost use Rattle.fixed_num.specs.Reciprocals.{IsReciprocal, upper, shifted_half_up};
ghost use Rattle.fixed_num.specs.Rounding.{rnd as rounded};

/// An even divisor by which many numbers are divided.
#[derive(Clone, Copy, Debug)]
pub struct Reciprocal {
    /// The divisor.
    pub divisor: i64,
    factor: i64,
    // What a product is shifted by, and half a unit of what is left.
    places: u32,
    middle: i64,
    ghost some: { 1 ≤ places },
    ghost middling: { middle ≡ pos (2 ^ (places - 1)) },
    ghost exact: { IsReciprocal divisor factor (places - 1) },
}

impl Reciprocal {
    /// That of a divisor of 16 to 2^46.
    pub fn of(divisor: i64) -> Reciprocal
        requires low { pos 16 ≤ℤ divisor }
        requires high { divisor ≤ℤ pos 70_368_744_177_664 }
        requires even { unsigned_abs divisor % 2 ≡ 0 }
        ensures { result.divisor ≡ divisor }
    {
        let shift = scale(divisor as u64);
        Reciprocal {
            divisor,
            factor: factor(divisor as u64, shift) as i64,
            places: shift + 1,
            middle: middle(shift),
        }
    }

    /// The quotient of a number by the divisor, rounded to the nearest, a half away from zero.
    pub fn divided(&self, x: i64) -> i64
        requires { unsigned_abs x < 4_611_686_018_427_387_904 }
        ensures value { result ≡ rounded x self.now.divisor }
        ensures size { let d = unsigned_abs self.now.divisor in
            2 * unsigned_abs result * d ≤ 2 * unsigned_abs x + d }
    {
        rounded_shift(mulhi(x, self.factor), self.middle, self.places)
    }
}

/// A billionth of a number, rounded to the nearest, a half away from zero.
pub fn billionth(x: i64) -> i64
    requires { unsigned_abs x < 4_611_686_018_427_387_904 }
    ensures value { result ≡ rounded x (pos 1_000_000_000) }
    ensures size { unsigned_abs result ≤ 4_611_686_018 }
{
    rounded_shift(mulhi(x, 4_951_760_157_141_521_100), 134_217_728, 28)
}

/// A half of a number, rounded to the nearest, a half away from zero.
#[tactic(auto, unfolding(crate::specs::Rounding::rnd))]
pub fn half(n: i64) -> i64
    requires { unsigned_abs n ≤ 4_000_000_000_000_000_000 }
    ensures value { result ≡ rounded n (pos 2) }
    ensures low { unsigned_abs n ≤ 2 * unsigned_abs result }
    ensures high { 2 * unsigned_abs result ≤ unsigned_abs n + 1 }
{
    (n + 1 + (n >> 63)) >> 1
}

/// The upper 64 bits of a product.
#[tactic(auto, unfolding(crate::specs::Reciprocals::upper))]
pub fn mulhi(a: i64, b: i64) -> i64
    ensures value { result ≡ upper a b }
    ensures size { unsigned_abs result ≤ unsigned_abs a }
{
    ((a as i128 * b as i128) >> 64) as i64
}

#[tactic(auto, unfolding(crate::specs::Reciprocals::shifted_half_up))]
fn rounded_shift(x: i64, middle: i64, places: u32) -> i64
    requires number { unsigned_abs x < 4_611_686_018_427_387_904 }
    requires some { 1 ≤ places }
    requires few { places ≤ 61 }
    requires middle { middle ≡ pos (2 ^ (places - 1)) }
    ensures { result ≡ shifted_half_up x (places - 1) }
{
    (x + middle) >> places
}

// Half a unit of a shift by one place more.
fn middle(shift: u32) -> i64
    requires { shift ≤ 60 }
    ensures { result ≡ pos (2 ^ shift) }
{
    1 << shift
}

// The divisor is over 2^(shift + 2), and at most twice that.
fn scale(divisor: u64) -> u32
    requires low { 16 ≤ divisor }
    requires high { divisor ≤ 70_368_744_177_664 }
    ensures small { result ≤ 44 }
    ensures over { 2 ^ (result + 2) < divisor }
    ensures within { divisor ≤ 2 ^ (result + 3) }
{
    61 - (divisor - 1).leading_zeros()
}

fn factor(divisor: u64, shift: u32) -> u64
    requires low { 16 ≤ divisor }
    requires high { divisor ≤ 70_368_744_177_664 }
    requires small { shift ≤ 44 }
    requires over { 2 ^ (shift + 2) < divisor }
    ensures fits { result < 9_223_372_036_854_775_808 }
    ensures above { 2 ^ (shift + 65) < result * divisor }
    ensures near { result * divisor ≤ 2 ^ (shift + 65) + divisor }
{
    ((1u128 << (shift + 65)) / divisor as u128 + 1) as u64
}
