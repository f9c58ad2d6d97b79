//! Points as words.
ghost use Rattle.std.specs.Prelude.{◌≡◌, ◌≢◌, ◌↔◌, [], ◌∷◌, Some, None, IfSome};
ghost use Rattle.case_model.specs.declared.points.Point.{Point};
ghost use Rattle.case_model.specs.Range.{IsPoint};
ghost use Rattle.case_model.specs.Words.{words_of, point_with, TellsPoint};

use crate::Point;
use crate::ranges::point_of;

/// What is added to heads and flows, so that their words are no negative numbers.
const SHIFT: i64 = 10_000_000_000_000;

/// The four words of a point: head, upstream and downstream flow, each plus 10^13, and volume;
/// four zeros for Bad.
pub fn to_words(p: &Point) -> [u64; 4]
    requires { IsPoint p.now }
    ensures { result ≡ words_of p.now }
{
    match p {
        Point::Good { h, qu, qd, v } => [
            (*h + SHIFT) as u64,
            (*qu + SHIFT) as u64,
            (*qd + SHIFT) as u64,
            *v as u64,
        ],
        Point::Bad => [0; 4],
    }
}

/// The point in range with these words; None where no such point has them.
pub fn from_words(w: &[u64; 4]) -> Option<Point>
    ensures range { IfSome result IsPoint }
    ensures some { (p : Point) → IsPoint p → (result ≡ Some p) ↔ (words_of p ≡ w.now) }
    ensures none { (result ≡ None) ↔ ((p : Point) → IsPoint p → words_of p ≢ w.now) }
{
    told_point(w[0], w[1], w[2], w[3])
}

/// The point in range with these words; None where no such point has them.
fn told_point(head: u64, up: u64, down: u64, volume: u64) -> Option<Point>
    ensures { TellsPoint (head ∷ up ∷ down ∷ volume ∷ []) result }
{
    if head == 0 && up == 0 && down == 0 && volume == 0 {
        return Some(Point::Bad);
    }
    match good_point(head, up, down, volume) {
        Point::Bad => None,
        good => Some(good),
    }
}

/// The Good point with these words, or Bad where no Good point has them.
fn good_point(head: u64, up: u64, down: u64, volume: u64) -> Point
    ensures { result ≡ point_with head up down volume }
{
    let shift = SHIFT as i128;
    point_of(
        head as i128 - shift,
        up as i128 - shift,
        down as i128 - shift,
        volume as i128,
    )
}

/// The law of the words: points in range with the same words are the same.
pub fn words_tell_the_point()
    ensures { (p q : Point) → IsPoint p → IsPoint q → words_of p ≡ words_of q → p ≡ q }
{}
