//! Values between the points of a table, and integer roots.
ghost use Rattle.std.specs.Prelude.{
  ◌≡◌,
  ◌+◌,
  ◌-◌,
  ◌<◌,
  ◌≤◌,
  ℤ,
  pos,
  ◌+ℤ◌,
  ◌-ℤ◌,
  ◌*ℤ◌,
  ◌≤ℤ◌,
  ◌<ℤ◌,
  unsigned_abs,
  length,
};
ghost use Rattle.std.specs.List.{All};
ghost use Rattle.fixed_num.specs.Rounding.{rnd as rounded};
ghost use Rattle.fixed_num.specs.Tables.{
  IsBetween,
  IsInterpolated,
  Rises,
  entry_at,
  on_line as line_between,
  interp as interpolated,
};

use crate::rounding::rnd;

/// The value at `t` of a table of points: that of the first point before it, that of the last after
/// it, and between two points the rounded value on the line from one to the other.
pub fn interp(table: &[(i64, i64)], t: i64) -> i64
    requires some { 0 < length table.now }
    requires rises { Rises table.now }
    requires firsts { All (λ e. unsigned_abs e.0 ≤ 1_000_000_000_000_000) table.now }
    requires seconds { All (λ e. unsigned_abs e.1 ≤ 1_000_000_000_000_000) table.now }
    ensures value { result ≡ interpolated table.now t }
    ensures point { IsInterpolated table.now t result }
    ensures within { (low high : ℤ)
        → All (λ e. IsBetween low high e.1) table.now → IsBetween low high result }
{
    value_at(table, t)
}

fn value_at(table: &[(i64, i64)], t: i64) -> i64
    requires some { 0 < length table.now }
    requires rises { Rises table.now }
    requires firsts { All (λ e. unsigned_abs e.0 ≤ 1_000_000_000_000_000) table.now }
    requires seconds { All (λ e. unsigned_abs e.1 ≤ 1_000_000_000_000_000) table.now }
    ensures value { result ≡ interpolated table.now t }
{
    let last = table.len() - 1;
    if t <= table[0].0 {
        return table[0].1;
    }
    if table[last].0 <= t {
        return table[last].1;
    }
    let at = segment(table, t);
    on_line(table[at], table[at + 1], t)
}

// The place of the last point at or before `t`, found by halving.
fn segment(table: &[(i64, i64)], t: i64) -> usize
    requires some { 0 < length table.now }
    requires first { (entry_at table.now 0).0 ≤ℤ t }
    requires last { t <ℤ (entry_at table.now (length table.now - 1)).0 }
    ensures inside { result + 1 < length table.now }
    ensures from { (entry_at table.now result).0 ≤ℤ t }
    ensures to { t <ℤ (entry_at table.now (result + 1)).0 }
{
    let mut low = 0;
    let mut high = table.len() - 1;
    while high - low > 1 {
        let middle = low + (high - low) / 2;
        if table[middle].0 <= t {
            low = middle;
        } else {
            high = middle;
        }
    }
    low
}

#[tactic(auto, unfolding(crate::specs::Tables::on_line))]
fn on_line(from: (i64, i64), to: (i64, i64), t: i64) -> i64
    requires from_at { unsigned_abs from.0 ≤ 1_000_000_000_000_000 }
    requires from_size { unsigned_abs from.1 ≤ 1_000_000_000_000_000 }
    requires to_at { unsigned_abs to.0 ≤ 1_000_000_000_000_000 }
    requires to_size { unsigned_abs to.1 ≤ 1_000_000_000_000_000 }
    requires after { from.0 ≤ℤ t }
    requires before { t <ℤ to.0 }
    ensures value { result ≡ line_between from to t }
{
    let rise = less(to.1, from.1);
    let at = less(t, from.0);
    let width = less(to.0, from.0);
    raised(from.1, share(rise, at, width))
}

fn less(x: i64, y: i64) -> i64
    requires x { unsigned_abs x ≤ 1_000_000_000_000_000 }
    requires y { unsigned_abs y ≤ 1_000_000_000_000_000 }
    ensures value { result ≡ x -ℤ y }
    ensures size { unsigned_abs result ≤ 2_000_000_000_000_000 }
{
    x - y
}

fn raised(value: i64, part: i64) -> i64
    requires value { unsigned_abs value ≤ 1_000_000_000_000_000 }
    requires part { unsigned_abs part ≤ 2_000_000_000_000_000 }
    ensures { result ≡ value +ℤ part }
{
    value + part
}

// The part of a difference that stands at `at` of `width`.
fn share(difference: i64, at: i64, width: i64) -> i64
    requires difference { unsigned_abs difference ≤ 2_000_000_000_000_000 }
    requires low { pos 0 ≤ℤ at }
    requires high { at <ℤ width }
    requires width { unsigned_abs width ≤ 2_000_000_000_000_000 }
    ensures value { result ≡ rounded (difference *ℤ at) width }
    ensures size { unsigned_abs result ≤ unsigned_abs difference }
{
    rnd(difference as i128 * at as i128, width as i128) as i64
}
