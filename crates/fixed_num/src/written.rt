//! Numbers as decimal text: writing.
ghost use Rattle.std.specs.Prelude.{◌≡◌, ◌+◌, ◌/◌, ◌≤◌, ◌<◌, ◌^◌, ◌++◌};
ghost use Rattle.std.specs.Prelude.{length, take, drop, unsigned_abs, Ok};
ghost use Rattle.std.specs.Fmt.{decimal};
ghost use Rattle.fixed_num.specs.Written.{last_digits, written, placed, sign, fraction_text};
ghost use Rattle.fixed_num.specs.Decimal.{number_of};

/// Writes a number in the unit 10^-places, with just so many digits after the point and no needless
/// zero before it, and answers the length. What stands behind the text stays.
pub fn write_decimal(value: i128, places: u32, into: &mut [u8; 48]) -> usize
    requires size { unsigned_abs value ≤ 1_000_000_000_000_000_000_000_000_000 }
    requires places { places ≤ 12 }
    ensures text { into.new ≡ written places value ++ drop result into.old }
    ensures length { result ≡ length (written places value) }
    ensures few { result ≤ 48 }
    ensures back { unsigned_abs value ≤ 1_000_000_000_000_000_000
        → number_of places (take result into.new) ≡ Ok value }
{
    put_number(value, places, into)
}

// Writes the last `count` digits of a number.
fn put_last(n: u128, count: usize, into: &mut [u8], at: usize)
    requires { at + count ≤ length into.old }
    ensures { into.new ≡ take at into.old ++ last_digits count n ++ drop (at + count) into.old }
{
    let mut rest = n;
    for i in 0..count {
        into[at + (count - 1 - i)] = b'0' + (rest % 10) as u8;
        rest /= 10;
    }
}

// How many digits a number has.
fn count_digits(n: u128) -> usize
    requires { n < 10 ^ 28 }
    ensures value { result ≡ length (decimal n) }
    ensures few { result ≤ 28 }
{
    let mut rest = n;
    let mut count = 1;
    while rest >= 10 {
        rest /= 10;
        count += 1;
    }
    count
}

// Writes the whole part, and answers where it ends.
fn put_whole(n: u128, into: &mut [u8], at: usize) -> usize
    requires size { n < 10 ^ 28 }
    requires room { at + 28 ≤ length into.old }
    ensures text { into.new ≡ placed at (decimal n) into.old }
    ensures end { result ≡ at + length (decimal n) }
    ensures few { result ≤ at + 28 }
{
    let count = count_digits(n);
    put_last(n, count, into, at);
    at + count
}

// Writes the point and the digits after it, and answers where they end.
fn put_fraction(n: u128, places: u32, into: &mut [u8], at: usize) -> usize
    requires places { places ≤ 12 }
    requires room { at + 13 ≤ length into.old }
    ensures text { into.new ≡ placed at (fraction_text places n) into.old }
    ensures end { result ≡ at + length (fraction_text places n) }
    ensures few { result ≤ at + 13 }
{
    if places == 0 {
        return at;
    }
    into[at] = b'.';
    put_last(n, places as usize, into, at + 1);
    at + 1 + places as usize
}

// Writes a size, and answers where it ends.
fn put_size(n: u128, places: u32, into: &mut [u8], at: usize) -> usize
    requires size { n < 10 ^ 28 }
    requires places { places ≤ 12 }
    requires room { at + 41 ≤ length into.old }
    ensures text { into.new
        ≡ placed at (decimal (n / 10 ^ places) ++ fraction_text places n) into.old }
    ensures end { result ≡ at + length (decimal (n / 10 ^ places) ++ fraction_text places n) }
    ensures few { result ≤ at + 41 }
{
    let end = put_whole(n / 10u128.pow(places), into, at);
    put_fraction(n, places, into, end)
}

// Writes the sign, and answers where it ends.
fn put_sign(value: i128, into: &mut [u8]) -> usize
    requires { 1 ≤ length into.old }
    ensures text { into.new ≡ placed 0 (sign value) into.old }
    ensures end { result ≡ length (sign value) }
    ensures few { result ≤ 1 }
{
    if value < 0 {
        into[0] = b'-';
        return 1;
    }
    0
}

#[tactic(auto, unfolding(crate::specs::Written::written))]
fn put_number(value: i128, places: u32, into: &mut [u8; 48]) -> usize
    requires size { unsigned_abs value ≤ 1_000_000_000_000_000_000_000_000_000 }
    requires places { places ≤ 12 }
    ensures text { into.new ≡ written places value ++ drop result into.old }
    ensures length { result ≡ length (written places value) }
    ensures few { result ≤ 48 }
{
    let start = put_sign(value, into);
    put_size(value.unsigned_abs(), places, into, start)
}
