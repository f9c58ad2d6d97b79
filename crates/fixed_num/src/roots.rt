//! The integer root.
ghost use Rattle.std.specs.Prelude.{◌≡◌, ◌+◌, ◌*◌, ◌^◌, ◌<◌, ◌≤◌, ℤ, pos, ◌≤ℤ◌};
ghost use Rattle.fixed_num.specs.Roots.{root as root_of};
ghost use Rattle.fixed_num.specs.Tables.{IsRoot};

/// The law of the root: it is the greatest whole number whose square is at most the given one.
pub fn root_is_greatest()
    ensures { (n : ℤ) → pos 0 ≤ℤ n → IsRoot n (root_of n) }
{}

/// The greatest whole number whose square is at most `n`.
pub fn root(n: i128) -> i128
    requires { pos 0 ≤ℤ n }
    ensures value { result ≡ root_of n }
    ensures greatest { IsRoot n result }
{
    root_of_size(n.cast_unsigned()).cast_signed()
}

// Newton's steps lead down to the root from any number that is not below it.
fn root_of_size(n: u128) -> u128
    requires { n < 2 ^ 127 }
    ensures below { result * result ≤ n }
    ensures above { n < (result + 1) * (result + 1) }
    ensures small { result ≤ 2 ^ 64 }
{
    if n == 0 {
        return 0;
    }
    let mut guess = first_guess(n);
    while n / guess < guess {
        guess = (guess + n / guess) / 2;
    }
    guess
}

// The power of two next above the root, or the one after it.
fn first_guess(n: u128) -> u128
    requires some { 0 < n }
    requires size { n < 2 ^ 127 }
    ensures some { 1 ≤ result }
    ensures above { n < (result + 1) * (result + 1) }
    ensures small { result ≤ 2 ^ 64 }
{
    1 << ((129 - n.leading_zeros()) / 2)
}
