//! How a strand takes the blocks in that its entered region needs, and hands its own on.
ghost use Rattle.std.specs.Prelude.{◌≡◌, ℕ, ◌+◌, ◌*◌, ◌<◌, ◌≤◌, ◌||◌, ◌==◌, length};
ghost use Rattle.endhistory.specs.Seats.{reading, writing};
ghost use Rattle.endhistory.specs.Steps.{IsFree, passed_view, published_view};
ghost use Rattle.regionrun.specs.Handed.{IsBlock, part};
ghost use Rattle.regionrun.specs.Right.{IsFed, IsRight, IsSameStrand, has_loaded};
ghost use Rattle.runners.specs.Blocks.{ArePassed, AreToTake, IsToTake};
ghost use Rattle.runners.specs.Advances.{sizes_of_seat};
ghost use Rattle.runners.specs.Ends.{AreReadersAt, IsReaderAt, IsWriterAt};
ghost use Rattle.runners.specs.Tags.{HasRoom, IsRunTag};

use crate::neighbours::{neighbour_at, own_history};
use crate::tags::RunTag;
use case_model::Law;
use endhistory::{Reader, Writer};
use histories::{blocks_are_their_words, strands_have_blocks};
use regionrun::{EntryStub, Strand};

// Takes in the block of each side that the entered region needs: fetches, loads and passes one
// after another.
pub(crate) fn take_all<L: Law, S: EntryStub>(
    tag: &RunTag<L>,
    strand: &mut Strand<S>,
    readers: &mut [Reader],
    scratch: &mut [u64],
)
    requires tag { IsRunTag L.meaning tag.now }
    requires right { IsRight (L.meaning tag.now.law.now) tag.now.layout.now strand.old.frontier }
    requires readers { AreToTake (L.meaning tag.now.law.now) tag.now.layout.now
        tag.now.histories.now strand.old.frontier readers.old }
    requires room { HasRoom tag.now.layout.now tag.now.mesh.now (length scratch.old) }
    ensures right { IsRight (L.meaning tag.now.law.now) tag.now.layout.now strand.new.frontier }
    ensures fed { IsFed tag.now.layout.now strand.new.frontier }
    ensures same { IsSameStrand strand.old.frontier strand.new.frontier
        × (strand.new.frontier.computed ≡ strand.old.frontier.computed) }
    ensures stub { strand.new.stub ≡ strand.old.stub }
    ensures readers { (b : ℕ) →
        AreReadersAt (L.meaning tag.now.law.now) tag.now.layout.now tag.now.histories.now
        strand.old.frontier.number b readers.old →
        AreReadersAt (L.meaning tag.now.law.now) tag.now.layout.now tag.now.histories.now
        strand.old.frontier.number (b + 1) readers.new }
    ensures passed { ArePassed (length readers.old) readers.old readers.new }
{
    for side in 0..readers.len() {
        take_block(tag, strand, side, &mut readers[side], scratch);
    }
}

// Takes in the block of one side: fetches, loads and passes it.
fn take_block<L: Law, S: EntryStub>(
    tag: &RunTag<L>,
    strand: &mut Strand<S>,
    side: usize,
    reader: &mut Reader,
    scratch: &mut [u64],
)
    requires tag { IsRunTag L.meaning tag.now }
    requires right { IsRight (L.meaning tag.now.law.now) tag.now.layout.now strand.old.frontier }
    requires reader { IsToTake (L.meaning tag.now.law.now) tag.now.layout.now
        tag.now.histories.now strand.old.frontier side reader.old }
    requires room { HasRoom tag.now.layout.now tag.now.mesh.now (length scratch.old) }
    ensures right { IsRight (L.meaning tag.now.law.now) tag.now.layout.now strand.new.frontier }
    ensures loaded { (c : ℕ) → c < strand.old.frontier.sides →
        has_loaded strand.new.frontier c ≡ (has_loaded strand.old.frontier c || (c == side)) }
    ensures same { IsSameStrand strand.old.frontier strand.new.frontier
        × (strand.new.frontier.computed ≡ strand.old.frontier.computed) }
    ensures stub { strand.new.stub ≡ strand.old.stub }
    ensures reader { (b : ℕ) →
        IsReaderAt (L.meaning tag.now.law.now) tag.now.layout.now tag.now.histories.now
        strand.old.frontier.number side b reader.old →
        IsReaderAt (L.meaning tag.now.law.now) tag.now.layout.now tag.now.histories.now
        strand.old.frontier.number side (b + 1) reader.new }
    ensures passed { reading reader.new.seat ≡ passed_view (reading reader.old.seat) }
{
    blocks_are_their_words();
    strands_have_blocks();
    let beside = neighbour_at(tag, strand.number(), side);
    let block = &mut scratch[..beside.history.sizes.width];
    beside.history.fetch(reader, block);
    let words = part_for(block, tag.layout.window, beside.back);
    strand.load(tag.law, side as u32, words);
    beside.history.pass(reader);
}

// The words of a block that are for one of its strand's sides.
fn part_for(block: &[u64], window: u64, back: u32) -> &[u64]
    requires inside { 4 * window * back + 4 * window ≤ length block.now }
    ensures { result.now ≡ part (4 * window) back block.now }
{
    let width = 4 * window as usize;
    let from = width * back as usize;
    &block[from..from + width]
}

// Publishes a block of a strand in its history.
pub(crate) fn hand_out<L: Law>(tag: &RunTag<L>, number: u32, writer: &mut Writer, block: &[u64])
    requires tag { IsRunTag L.meaning tag.now }
    requires there { number < length tag.now.layout.now.shapes }
    requires writer { IsWriterAt (L.meaning tag.now.law.now) tag.now.layout.now
        tag.now.histories.now number (writing writer.old.seat).next writer.old }
    requires few { (writing writer.old.seat).next < tag.now.layout.now.windows }
    requires free { IsFree (sizes_of_seat writer.old.seat) (writing writer.old.seat) }
    requires block { IsBlock (L.meaning tag.now.law.now) tag.now.layout.now number
        (writing writer.old.seat).next block.now }
    ensures writer { IsWriterAt (L.meaning tag.now.law.now) tag.now.layout.now
        tag.now.histories.now number ((writing writer.old.seat).next + 1) writer.new }
    ensures published { writing writer.new.seat ≡ published_view (writing writer.old.seat) }
{
    blocks_are_their_words();
    strands_have_blocks();
    own_history(tag, number).publish(writer, block);
}
