//! Blocks as words.
ghost use Rattle.std.specs.Prelude.{◌≡◌, ℕ, ◌+◌, ◌*◌, ◌/◌, ◌<◌, ◌≤◌, length};
ghost use Rattle.case_model.specs.Range.{IsPoint};
ghost use Rattle.case_model.specs.Words.{words_of};
ghost use Rattle.case_model.specs.declared.points.Point.{Point as PointSeen};
ghost use Rattle.regionrun.specs.Handed.{AreWordsOf, IsWritten, quad, words_tell};
ghost use Rattle.regionrun.specs.Lent.{lent_size, lent_tells};

use crate::lent::Lent;
use case_model::{Point, from_words, to_words};
use strands::Block;

/// A block that is read from its words, four for each point.
#[derive(Clone, Copy)]
pub(crate) struct Words<'a> {
    pub(crate) words: &'a [u64],
}

impl<'a> Block for Words<'a> {
    ghost size = { λ block. length block.words.now / 4 };

    ghost tells = { λ block. words_tell block.words.now };

    fn point(&self, number: usize) -> Point {
        point_in(self.words, number)
    }
}

/// Writes the words of a block that a strand lends: its kind is asked once.
pub(crate) fn encode_lent(block: &Lent, words: &mut [u64])
    requires room { length words.old ≡ 4 * lent_size block.now }
    ensures words { AreWordsOf (lent_size block.now) (lent_tells block.now) words.new }
{
    match block {
        Lent::BySection(block) => encode(block, words),
        Lent::ByStation(block) => encode(block, words),
    }
}

// Writes the words of a block.
fn encode<B: Block>(block: &B, words: &mut [u64])
    requires room { length words.old ≡ 4 * B.size block.now }
    ensures words { AreWordsOf (B.size block.now) (B.tells block.now) words.new }
{
    for number in 0..words.len() / 4 {
        put_point(words, number, &block.point(number));
    }
}

// Writes the words of a point.
fn put_point(words: &mut [u64], index: usize, point: &Point)
    requires inside { 4 * index + 4 ≤ length words.old }
    requires in_range { IsPoint point.now }
    ensures { IsWritten index point.now words.old words.new }
{
    let four = to_words(point);
    words[4 * index] = four[0];
    words[4 * index + 1] = four[1];
    words[4 * index + 2] = four[2];
    words[4 * index + 3] = four[3];
}

// The point of these words; Bad where no point has them.
fn point_in(words: &[u64], index: usize) -> Point
    requires inside { 4 * index + 4 ≤ length words.now }
    ensures point { (point : PointSeen) → IsPoint point → quad words.now index ≡ words_of point →
        result ≡ point }
    ensures in_range { IsPoint result }
{
    let i = 4 * index;
    let four = [words[i], words[i + 1], words[i + 2], words[i + 3]];
    match from_words(&four) {
        Some(point) => point,
        None => Point::Bad,
    }
}
