//! How the histories of a layout are opened: one of each strand, and then the readers of each
//! strand are taken out of those that its neighbours' histories gave.
ghost use Rattle.std.specs.Prelude.{◌≡◌, ◌+◌, ◌<◌, ◌≤◌, length, map, IfOk, OnOk, IsSome, Some};
ghost use Rattle.std.specs.Prelude.{slice_index_or, Option};
ghost use Rattle.case_model.specs.Meaning.{Meaning};
ghost use Rattle.case_model.specs.declared.meshes.TheConstants.{MOST_ENDS};
ghost use Rattle.endhistory.specs.Blocks.{IsSizes};
ghost use Rattle.histories.specs.Blocks.{sizes_at};
ghost use Rattle.endhistory.specs.declared.history.Reader.{Reader as ReaderSeen};
ghost use Rattle.histories.specs.Dealing.{AreDealtOf, AreMade, AreTaken, AreWaiting, CanOpen};
ghost use Rattle.histories.specs.Dealing.{IsTaken};
ghost use Rattle.std.specs.Global.{Vec as VecSeen};
ghost use Rattle.histories.specs.Opened.{AreOpened, AreReadersOf, IsFreshWriter};
ghost use Rattle.regions.specs.LaidOut.{IsLaidOut};
ghost use Rattle.regions.specs.Sides.{sides_of};
ghost use Rattle.regions.specs.declared.shapes.TheConstants.{WIDEST_WINDOW};

use crate::blocks::BlockOf;
use crate::ends::Ends;
use crate::laws::strands_have_blocks;
use case_model::{Law, Mesh};
use endhistory::{History, MOST_SLOTS, Reader, Writer};
use regionrun::layouts_are_lawful;
use regions::Layout;
use std::alloc::{AllocError, Global};

/// Opens the histories of a layout, each with so many slots, for the blocks of its strands over the
/// rows of a law. Reader j of strand x reads the history of side j of x, as the reader whose number
/// is that of x among the sides of that strand. The error is want of memory.
pub fn open_histories<L: Law>(
    alloc: Global,
    law: &L,
    layout: &Layout,
    mesh: &Mesh,
    slots: u64,
) -> Result<Ends, AllocError>
    requires mesh { mesh.now ≡ (L.meaning law.now).mesh }
    requires laid_out { IsLaidOut layout.now mesh.now }
    requires some { 1 ≤ slots }
    requires few { slots ≤ MOST_SLOTS }
    ensures { IfOk result (AreOpened (L.meaning law.now) layout.now slots) }
{
    let opening = Opening {
        law,
        layout,
        mesh,
        slots,
    };
    let Made {
        histories,
        writers,
        mut dealt,
    } = make_all(alloc, &opening)?;
    let readers = take_all(alloc, &opening, &histories, &mut dealt)?;
    Ok(Ends {
        histories,
        writers,
        readers,
    })
}

// What histories are opened for.
#[derive(Drop)]
struct Opening<'a, L> {
    law: &'a L,
    layout: &'a Layout,
    mesh: &'a Mesh,
    slots: u64,
}

// Histories with their writers, and the readers that each of them dealt by number.
#[derive(Drop)]
struct Made {
    histories: Vec<History>,
    writers: Vec<Writer>,
    dealt: Vec<Vec<Option<Reader>>>,
}

// The histories of all strands, with all that they deal. The error is want of memory.
fn make_all<L: Law>(alloc: Global, opening: &Opening<L>) -> Result<Made, AllocError>
    requires { CanOpen (L.meaning opening.now.law.now) opening.now.layout.now
        opening.now.mesh.now opening.now.slots }
    ensures { IfOk result (λ made. AreMade (L.meaning opening.now.law.now) opening.now.layout.now
        opening.now.slots (length opening.now.layout.now.shapes)
        made.histories.items made.writers.items made.dealt.items) }
{
    let count = strand_count(opening.layout, opening.mesh);
    let mut histories = Vec::with_capacity(alloc, count as usize)?;
    let mut writers = Vec::with_capacity(alloc, count as usize)?;
    let mut dealt = Vec::with_capacity(alloc, count as usize)?;
    for strand in 0..count {
        let (history, writer, readers) = make_one(alloc, opening, strand)?;
        histories.push(history)?;
        writers.push(writer)?;
        dealt.push(readers)?;
    }
    Ok(Made {
        histories,
        writers,
        dealt,
    })
}

// The history of a strand with its writer, and its readers by number, each in a place out of which
// it can be taken. The error is want of memory.
fn make_one<L: Law>(
    alloc: Global,
    opening: &Opening<L>,
    strand: u32,
) -> Result<(History, Writer, Vec<Option<Reader>>), AllocError>
    requires opening { CanOpen (L.meaning opening.now.law.now) opening.now.layout.now
        opening.now.mesh.now opening.now.slots }
    requires there { strand < length opening.now.layout.now.shapes }
    ensures sizes { IfOk result (λ made. made.0.sizes ≡ sizes_at opening.now.layout.now
        (L.meaning opening.now.law.now).mesh opening.now.slots strand) }
    ensures writer { IfOk result (λ made. IsFreshWriter (L.meaning opening.now.law.now)
        opening.now.layout.now strand made.0 made.1) }
    ensures readers { IfOk result (λ made. AreDealtOf (L.meaning opening.now.law.now)
        opening.now.layout.now strand made.0 made.2.items) }
{
    strands_have_blocks();
    can_hold(opening, strand);
    let tag = BlockOf {
        law: opening.law,
        layout: opening.layout,
        mesh: opening.mesh,
        strand,
    };
    let sides = opening.layout.sides(opening.mesh, strand);
    let width = 4 * opening.layout.window * sides as u64;
    let (history, writer, readers) = History::make(alloc, &tag, opening.slots, width, sides)?;
    let places = shelve(alloc, readers)?;
    Ok((history, writer, places))
}

// Each reader in a place of its own. The error is want of memory.
fn shelve(alloc: Global, readers: Vec<Reader>) -> Result<Vec<Option<Reader>>, AllocError>
    ensures { IfOk result (λ places. places.items ≡ map Some readers.items) }
{
    readers.into_iter().map(Some).collect(alloc)
}

// What holds of the sizes of a strand's history.
fn can_hold<L: Law>(opening: &Opening<L>, strand: u32)
    requires opening { CanOpen (L.meaning opening.now.law.now) opening.now.layout.now
        opening.now.mesh.now opening.now.slots }
    requires there { strand < length opening.now.layout.now.shapes }
    ensures sizes { IsSizes (sizes_at opening.now.layout.now opening.now.mesh.now
        opening.now.slots strand) }
    ensures window { opening.now.layout.now.window ≤ WIDEST_WINDOW }
    ensures windows { opening.now.layout.now.windows ≤ 100_000_000 }
    ensures sides { sides_of opening.now.layout.now opening.now.mesh.now strand ≤ MOST_ENDS }
{
    let _ = opening;
    let _ = strand;
    layouts_are_lawful();
}

// How many strands there are.
fn strand_count(layout: &Layout, mesh: &Mesh) -> u32
    requires { IsLaidOut layout.now mesh.now }
    ensures { result ≡ length layout.now.shapes }
{
    let _ = mesh;
    layouts_are_lawful();
    layout.shapes.as_slice().len() as u32
}

// The readers of all strands, taken out of those that were dealt. The error is want of memory.
fn take_all<L: Law>(
    alloc: Global,
    opening: &Opening<L>,
    histories: &[History],
    dealt: &mut [Vec<Option<Reader>>],
) -> Result<Vec<Vec<Reader>>, AllocError>
    requires opening { CanOpen (L.meaning opening.now.law.now) opening.now.layout.now
        opening.now.mesh.now opening.now.slots }
    requires waiting { AreWaiting (L.meaning opening.now.law.now) opening.now.layout.now
        histories.now 0 0 dealt.old }
    ensures { IfOk result (λ readers. AreTaken (L.meaning opening.now.law.now)
        opening.now.layout.now histories.now (length opening.now.layout.now.shapes)
        readers.items) }
{
    let count = strand_count(opening.layout, opening.mesh);
    let mut readers = Vec::with_capacity(alloc, count as usize)?;
    for strand in 0..count {
        let own = take_of(alloc, opening, histories, dealt, strand)?;
        readers.push(own)?;
    }
    Ok(readers)
}

// The readers of a strand, one for each of its sides. The error is want of memory.
fn take_of<L: Law>(
    alloc: Global,
    opening: &Opening<L>,
    histories: &[History],
    dealt: &mut [Vec<Option<Reader>>],
    strand: u32,
) -> Result<Vec<Reader>, AllocError>
    requires opening { CanOpen (L.meaning opening.now.law.now) opening.now.layout.now
        opening.now.mesh.now opening.now.slots }
    requires there { strand < length opening.now.layout.now.shapes }
    requires waiting { AreWaiting (L.meaning opening.now.law.now) opening.now.layout.now
        histories.now strand 0 dealt.old }
    ensures readers { IfOk result (λ readers. AreReadersOf (L.meaning opening.now.law.now)
        opening.now.layout.now histories.now strand
        (sides_of opening.now.layout.now (L.meaning opening.now.law.now).mesh strand)
        readers.items) }
    ensures waiting { OnOk result (AreWaiting (L.meaning opening.now.law.now)
        opening.now.layout.now histories.now (strand + 1) 0 dealt.new) }
{
    let _ = histories;
    layouts_are_lawful();
    let sides = opening.layout.sides(opening.mesh, strand);
    let mut readers = Vec::with_capacity(alloc, sides as usize)?;
    for side in 0..sides {
        let beside = opening.layout.side(opening.mesh, strand, side);
        let number = opening.layout.back(opening.mesh, strand, side);
        let reader = take_reader(dealt, beside as usize, number as usize);
        readers.push(reader)?;
    }
    Ok(readers)
}

// Takes one reader out of its place.
fn take_reader(dealt: &mut [Vec<Option<Reader>>], strand: usize, number: usize) -> Reader
    requires there { strand < length dealt.old }
    requires inside { (d : VecSeen (Option ReaderSeen)) →
        number < length (slice_index_or dealt.old strand d).items }
    requires waiting { (d : VecSeen (Option ReaderSeen)) (o : Option ReaderSeen) →
        IsSome (slice_index_or (slice_index_or dealt.old strand d).items number o) }
    ensures { IsTaken strand number result dealt.old dealt.new }
{
    let list = &mut dealt[strand];
    list[number].take().unwrap()
}
