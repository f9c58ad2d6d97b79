//! Quotients of numbers of 128 bits by a divisor that stays the same: they are guessed by a product,
//! and looked at.
ghost use Rattle.std.specs.Prelude.{◌≡◌, ◌/◌, ◌*◌, ◌<◌, ◌≤◌, pos};

/// What quotients by a divisor are guessed with. Each guess is looked at, and where it is wrong there
/// is a division: so this decides how long a quotient takes, and no quotient.
#[derive(Clone, Copy, Debug)]
pub struct Guess {
    // 2^(135 - shift) by the divisor, and by how many places a number is shifted so that the upper 64
    // bits of the 128 hold what counts.
    factor: u64,
    shift: u32,
}

impl Guess {
    /// Of no divisor: each quotient takes a division.
    pub fn none() -> Guess {
        Guess {
            factor: 0,
            shift: 0,
        }
    }

    /// Of a divisor.
    pub fn of(divisor: u64) -> Guess {
        if divisor < 256 {
            return Guess::none();
        }
        let bits = 64 - divisor.leading_zeros();
        let whole = (1u128 << (bits + 63)) / divisor as u128;
        Guess {
            factor: whole.min(u64::MAX as u128) as u64,
            shift: 72u32.saturating_sub(bits),
        }
    }

    /// The whole quotient of a number by a divisor.
    #[inline(always)]
    pub fn quotient(&self, n: u128, divisor: u64) -> u64
        requires some { 1 ≤ divisor }
        requires size { n < 18_446_744_073_709_551_616 * divisor }
        ensures { result ≡ n / divisor }
    {
        checked(n, divisor, self.guessed(n))
    }

    // What the quotient most likely is, or one less.
    #[inline(always)]
    fn guessed(&self, n: u128) -> u64 {
        // Nothing is lost where the quotient has no more than 56 bits.
        let high = ((n << (self.shift % 64)) >> 64) as u64;
        ((high as u128 * self.factor as u128) >> 71) as u64
    }
}

// The quotient, if this guess is it or one less, without a division.
#[inline(always)]
fn checked(n: u128, divisor: u64, guess: u64) -> u64
    requires some { 1 ≤ divisor }
    requires size { n < 18_446_744_073_709_551_616 * divisor }
    ensures { result ≡ n / divisor }
{
    let product = guess as u128 * divisor as u128;
    if product <= n {
        let rest = n - product;
        if rest < divisor as u128 {
            return guess;
        }
    }
    divided(n, divisor)
}

#[cold]
#[inline(never)]
fn divided(n: u128, divisor: u64) -> u64
    requires some { 1 ≤ divisor }
    requires size { n < 18_446_744_073_709_551_616 * divisor }
    ensures { result ≡ n / divisor }
{
    (n / divisor as u128) as u64
}
