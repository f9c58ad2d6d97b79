//! A bounded history, its writer and its readers.
ghost use Rattle.std.specs.Prelude.{◌≡◌, ◌+◌, ◌<◌, ◌≤◌, ◌^◌, length, All, IfOk, map};
ghost use Rattle.std.specs.List.{range_with_len};
ghost use Rattle.endhistory.specs.Blocks.{block, word_count, sizes_of, AreWide, IsSizes};
ghost use Rattle.endhistory.specs.Steps.{IsFree, published_view, looked_view, passed_view};
ghost use Rattle.endhistory.specs.Rule.{start_writing, start_reading};
ghost use Rattle.endhistory.specs.Answers.{Finds, IsReady, Says};
ghost use Rattle.endhistory.specs.Seats.{IsAt, IsNewReader, IsNewWriter, IsWriter, IsReader};
ghost use Rattle.endhistory.specs.Seats.{writing, reading, number_of, blocks_of, taken_to};

use crate::answers::{Look, Vacancy};
use crate::blocks::BlockTag;
use crate::dealing::open;
use crate::runs::{check_all, fill_all, take_all};
use crate::steps;
use crate::steps::{Place, Rule};
use crate::views::{Sizes, View};
use atomic_table::{Seat, Table};
use std::alloc::{AllocError, Global};

/// How many slots a history may have.
pub const MOST_SLOTS: u64 = 8;

/// How many readers a history may have.
pub const MOST_READERS: u32 = 16;

/// A bounded history: the published count, a passed count for each reader, and
/// `sizes.slots` slots of `sizes.width` words, all of them atomic words. It is
/// shared by `&` among threads; each call is made with the writer or a reader.
#[derive(Drop)]
pub struct History {
    pub table: Table<(), View, Sizes, Rule, Global>,
    pub sizes: Sizes,
    ghost keyed: { sizes ≡ table.shared.key },
    ghost sized: { IsSizes sizes },
    ghost wide: { table.shared.table_id.words ≡ word_count sizes },
}

/// The one writer of a history.
#[derive(Drop)]
pub struct Writer {
    pub seat: Seat<(), View>,
    next: u64,
    ghost writes: { IsWriter seat },
    ghost counted: { (next ≡ (writing seat).next) × ((writing seat).filled ≡ 0) },
    ghost each_known: { length (writing seat).known ≡ seat.me.0.sizes.readers },
    ghost few: { length (blocks_of seat) ≤ 2 ^ 62 },
    ghost even: { AreWide seat.me.0.sizes.width (blocks_of seat) },
}

/// One reader of a history. Its number is its index in the list that `make` gives.
#[derive(Drop)]
pub struct Reader {
    pub seat: Seat<(), View>,
    next: u64,
    number: usize,
    ghost reads: { IsReader seat },
    ghost counted: { (next ≡ (reading seat).next) × (number ≡ number_of seat) },
    ghost inside: { number < seat.me.0.sizes.readers },
    ghost few: { length (blocks_of seat) ≤ 2 ^ 62 },
    ghost even: { AreWide seat.me.0.sizes.width (blocks_of seat) },
    ghost known: { (reading seat).seen ≤ length (blocks_of seat) },
    ghost taking: { 0 < (reading seat).taken → (reading seat).next < (reading seat).seen },
}

impl History {
    /// A history of `blocks` slots for the blocks of a tag, with its writer and
    /// its readers in order of number. All counts are 0.
    /// The error is want of memory.
    pub fn make<T: BlockTag>(
        alloc: Global,
        tag: &T,
        blocks: u64,
        width: u64,
        readers: u32,
    ) -> Result<(History, Writer, Vec<Reader>), AllocError>
        requires sizes { IsSizes (sizes_of blocks width readers) }
        requires blocks { (length (T.blocks tag.now) ≤ 2 ^ 62) × AreWide width (T.blocks tag.now) }
        ensures history { IfOk result (λ t. t.0.sizes ≡ sizes_of blocks width readers) }
        ensures writer { IfOk result (λ t.
            IsNewWriter t.0.table.shared.table_id t.0.sizes (T.blocks tag.now) t.1.seat) }
        ensures count { IfOk result (λ t. length t.2.items ≡ readers) }
        ensures all { IfOk result (λ t. All (λ r.
            IsNewReader t.0.table.shared.table_id t.0.sizes (T.blocks tag.now) r.seat) t.2.items) }
        ensures numbers { IfOk result (λ t. map (λ r. number_of r.seat) t.2.items
            ≡ range_with_len 0 readers) }
    {
        let sizes = Sizes {
            slots: blocks as usize,
            width: width as usize,
            readers: readers as usize,
        };
        open(alloc, tag, sizes)
    }

    pub(crate) fn over(table: Table<(), View, Sizes, Rule, Global>, sizes: Sizes) -> History
        requires sizes { IsSizes sizes × (sizes ≡ table.shared.key) }
        requires wide { table.shared.table_id.words ≡ word_count sizes }
        ensures { (result.table ≡ table) × (result.sizes ≡ sizes) }
    {
        History { table, sizes }
    }

    /// How many blocks are published by now: a look with no seat, on which no clause rests.
    pub fn published(&self) -> u64 {
        self.table.shared.peek(0)
    }

    /// How many blocks a reader has passed by now: a look with no seat, on which no clause rests.
    pub fn passed(&self, reader: u32) -> u64
        requires there { reader < self.now.sizes.readers }
    {
        self.table.shared.peek(1 + reader as usize)
    }

    /// Asks the readers, in order, whether the writer may publish its next
    /// block: `Held` names the first that has not passed the block in its slot,
    /// and what is known of the readers after it stays as it was.
    pub fn vacancy(&self, writer: &mut Writer) -> Vacancy
        requires at { IsAt self.now.table.shared.table_id self.now.sizes writer.old.seat }
        ensures at { IsAt self.now.table.shared.table_id self.now.sizes writer.new.seat }
        ensures blocks { blocks_of writer.new.seat ≡ blocks_of writer.old.seat }
        ensures next { (writing writer.new.seat).next ≡ (writing writer.old.seat).next }
        ensures answer { Finds self.now.sizes result
            (writing writer.old.seat) (writing writer.new.seat) }
    {
        check_all(
            &self.table.shared,
            &mut writer.seat,
            self.sizes,
            writer.next,
        )
    }

    /// Stores the words of the next block, and then that it is published.
    pub fn publish(&self, writer: &mut Writer, words: &[u64])
        requires at { IsAt self.now.table.shared.table_id self.now.sizes writer.old.seat }
        requires free { IsFree self.now.sizes (writing writer.old.seat) }
        requires words { ((writing writer.old.seat).next < length (blocks_of writer.old.seat))
            × (words.now ≡ block (blocks_of writer.old.seat) (writing writer.old.seat).next) }
        ensures at { IsAt self.now.table.shared.table_id self.now.sizes writer.new.seat }
        ensures blocks { blocks_of writer.new.seat ≡ blocks_of writer.old.seat }
        ensures view { writing writer.new.seat ≡ published_view (writing writer.old.seat) }
    {
        let top = &self.table.shared;
        let next = writer.next;
        fill_all(top, &mut writer.seat, self.sizes, next, words);
        top.store::<steps::Publish>(&mut writer.seat, 0, next + 1);
        writer.next = next + 1;
    }

    /// Loads the published count, and tells whether the reader may fetch its next block.
    pub fn look(&self, reader: &mut Reader) -> Look
        requires at { IsAt self.now.table.shared.table_id self.now.sizes reader.old.seat }
        ensures at { IsAt self.now.table.shared.table_id self.now.sizes reader.new.seat }
        ensures blocks { blocks_of reader.new.seat ≡ blocks_of reader.old.seat }
        ensures number { number_of reader.new.seat ≡ number_of reader.old.seat }
        ensures view { reading reader.new.seat
            ≡ looked_view (reading reader.old.seat) (reading reader.new.seat).seen }
        ensures rising { (reading reader.old.seat).seen ≤ (reading reader.new.seat).seen }
        ensures answer { Says result (reading reader.new.seat) }
        ensures published { (reading reader.old.seat).next < (reading reader.old.seat).seen
            → IsReady result }
    {
        let published = self.table.shared.load::<steps::Look>(&mut reader.seat, 0);
        if reader.next < published {
            Look::Ready
        } else {
            Look::NotYet { published }
        }
    }

    /// Loads the words of the reader's next block into a slice of `width` words.
    pub fn fetch(&self, reader: &mut Reader, into: &mut [u64])
        requires at { IsAt self.now.table.shared.table_id self.now.sizes reader.old.seat }
        requires ready { ((reading reader.old.seat).next < (reading reader.old.seat).seen)
            × ((reading reader.old.seat).taken ≡ 0) }
        requires wide { length into.old ≡ self.now.sizes.width }
        ensures at { IsAt self.now.table.shared.table_id self.now.sizes reader.new.seat }
        ensures blocks { blocks_of reader.new.seat ≡ blocks_of reader.old.seat }
        ensures number { number_of reader.new.seat ≡ number_of reader.old.seat }
        ensures view { reading reader.new.seat
            ≡ taken_to (reading reader.old.seat) self.now.sizes.width }
        ensures words { into.new
            ≡ block (blocks_of reader.old.seat) (reading reader.old.seat).next }
    {
        take_all(
            &self.table.shared,
            &mut reader.seat,
            self.sizes,
            reader.next,
            into,
        );
    }

    /// Stores that the reader has passed its next block, which it has fetched.
    pub fn pass(&self, reader: &mut Reader)
        requires at { IsAt self.now.table.shared.table_id self.now.sizes reader.old.seat }
        requires fetched { (reading reader.old.seat).taken ≡ self.now.sizes.width }
        ensures at { IsAt self.now.table.shared.table_id self.now.sizes reader.new.seat }
        ensures blocks { blocks_of reader.new.seat ≡ blocks_of reader.old.seat }
        ensures number { number_of reader.new.seat ≡ number_of reader.old.seat }
        ensures view { reading reader.new.seat ≡ passed_view (reading reader.old.seat) }
    {
        let next = reader.next + 1;
        self.table
            .shared
            .store::<steps::Pass>(&mut reader.seat, 1 + reader.number, next);
        reader.next = next;
    }
}

impl Writer {
    pub(crate) fn new(seat: Place) -> Writer
        requires writer { IsWriter seat × (writing seat ≡ start_writing seat.me.0.sizes) }
        requires blocks { (length (blocks_of seat) ≤ 2 ^ 62)
            × AreWide seat.me.0.sizes.width (blocks_of seat) }
        ensures { result.seat ≡ seat }
    {
        Writer { seat, next: 0 }
    }
}

impl Reader {
    pub(crate) fn new(seat: Place, number: usize) -> Reader
        requires reader { IsReader seat × (reading seat ≡ start_reading) }
        requires number { (number ≡ number_of seat) × (number < seat.me.0.sizes.readers) }
        requires blocks { (length (blocks_of seat) ≤ 2 ^ 62)
            × AreWide seat.me.0.sizes.width (blocks_of seat) }
        ensures { result.seat ≡ seat }
    {
        Reader {
            seat,
            next: 0,
            number,
        }
    }
}
