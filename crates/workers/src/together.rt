//! How all runners of a run are brought to their ends by workers on threads.
ghost use denote.Param.Send.{IsSend, IsSync};
ghost use Rattle.std.specs.Prelude.{◌≡◌, ◌≤◌, length, All, IfOk, MatchOption};
ghost use Rattle.case_model.specs.Meaning.{Meaning};
ghost use Rattle.claimboard.specs.Views.{IsReady};
ghost use Rattle.regionrun.specs.Engine.{none};
ghost use Rattle.regionrun.specs.Right.{region_count};
ghost use Rattle.runners.specs.Tags.{HasRoom, IsRunTag};
ghost use Rattle.workers.specs.Runs.{AreRunners};

use crate::crews::Crew;
use crate::hands::{Hand, seat_workers, take_done};
use crate::starts::push_starts;
use crate::working::work;
use case_model::Law;
use claimboard::Board;
use regionrun::{Gate, MOST_WORKERS, Workers, layouts_are_lawful};
use runners::{RunTag, Runner};
use std::alloc::AllocError;
use std::sync::Wait;
use std::thread;
use std::thread::Threads;

/// Brings the runners of all strands of a layout to their ends: workers on threads claim them on a
/// board, advance each as far as its neighbours' blocks and its own slots allow, and give it back.
/// The calling thread works too. All memory for the regions is taken before the first one; the
/// error is want of it.
pub fn run_runners<'a, 'h, R: Threads + Wait + AllocGlobal + Sync, L: Law, G: Gate + Sync>(
    workers: &Workers<R>,
    tag: &RunTag<'a, 'h, L>,
    runners: Vec<Runner<'a, 'h, L, G::Stub>>,
    gate: &G,
) -> Result<Vec<Runner<'a, 'h, L, G::Stub>>, AllocError>
    requires some { 1 ≤ workers.now.count }
    requires few { workers.now.count ≤ MOST_WORKERS }
    requires tag { IsRunTag L.meaning tag.now }
    requires runners { AreRunners L.meaning G.Stub.strand_of G.Stub.entered_of tag.now none
        runners.items }
    ensures { IfOk result (λ done. AreRunners L.meaning G.Stub.strand_of G.Stub.entered_of tag.now
        (region_count tag.now.layout.now) done.items) }
{
    if runners.is_empty() {
        return Ok(runners);
    }
    layouts_are_lawful();
    let alloc = workers.rt.alloc();
    let strands = runners.len() as u32;
    let starts = push_starts(alloc, strands, workers.count)?;
    let stealer = starts.stealer()?;
    let words = widest_block(tag);
    let (board, seats) = Board::<Runner<L, G::Stub>>::make(
        alloc,
        again(tag),
        runners,
        workers.count,
    )?;
    let mut hands = seat_workers(alloc, &board, seats, words)?;
    let crew = Crew {
        rt: workers.rt,
        tag,
        board: &board,
        gate,
        starts: &stealer,
    };
    let mut own = hands.pop().unwrap();
    work_beside(&crew, &mut own, &mut hands);
    let done = take_done(&board, own);
    board.close(alloc, done)
}

// The same tag once more.
fn again<'a, 'h, L>(tag: &RunTag<'a, 'h, L>) -> RunTag<'a, 'h, L>
    ensures { result ≡ tag.now }
{
    RunTag {
        law: tag.law,
        case: tag.case,
        layout: tag.layout,
        mesh: tag.mesh,
        plan: tag.plan,
        histories: tag.histories,
    }
}

// How many words the widest block of a strand has.
fn widest_block<L: Law>(tag: &RunTag<L>) -> usize
    requires tag { IsRunTag L.meaning tag.now }
    ensures { HasRoom tag.now.layout.now tag.now.mesh.now result }
{
    let mut widest = 0;
    for history in tag.histories {
        widest = widest.max(history.sizes.width);
    }
    widest
}

// One worker works on the calling thread, and the others beside it.
fn work_beside<'a, 'h, R: Threads + Wait + Sync, L: Law, G: Gate + Sync>(
    crew: &Crew<'_, 'a, 'h, R, L, G>,
    own: &mut Hand<Runner<'a, 'h, L, G::Stub>>,
    others: &mut [Hand<Runner<'a, 'h, L, G::Stub>>],
)
    requires tag { crew.now.board.now.table.shared.key.value ≡ crew.now.tag.now }
    requires run { IsRunTag L.meaning crew.now.tag.now
        × (crew.now.board.now.table.shared.table_id.slots
        ≡ length crew.now.tag.now.layout.now.shapes) }
    requires own_seat { IsReady crew.now.board.now.table.shared.table_id
        crew.now.board.now.table.shared.key.value own.old.seat.seat }
    requires own_room { HasRoom crew.now.tag.now.layout.now crew.now.tag.now.mesh.now
        (length own.old.scratch.items) }
    requires seats { All (λ hand. IsReady crew.now.board.now.table.shared.table_id
        crew.now.board.now.table.shared.key.value hand.seat.seat) others.old }
    requires room { All (λ hand. HasRoom crew.now.tag.now.layout.now crew.now.tag.now.mesh.now
        (length hand.scratch.items)) others.old }
    ensures { MatchOption own.new.done ⊥ (λ done. done.seat.table_id
        ≡ crew.now.board.now.table.shared.table_id) }
{
    if others.is_empty() {
        work(crew, own);
        return;
    }
    thread::join_mut(
        crew.rt,
        &mut ||
            requires { (crew.now.board.now.table.shared.key.value ≡ crew.now.tag.now)
                × IsRunTag L.meaning crew.now.tag.now
                × (crew.now.board.now.table.shared.table_id.slots
                ≡ length crew.now.tag.now.layout.now.shapes)
                × All (λ hand. IsReady crew.now.board.now.table.shared.table_id
                crew.now.board.now.table.shared.key.value hand.seat.seat) others.now
                × All (λ hand. HasRoom crew.now.tag.now.layout.now crew.now.tag.now.mesh.now
                (length hand.scratch.items)) others.now }
        { work_together(crew, others) },
        &mut ||
            requires { (crew.now.board.now.table.shared.key.value ≡ crew.now.tag.now)
                × IsRunTag L.meaning crew.now.tag.now
                × (crew.now.board.now.table.shared.table_id.slots
                ≡ length crew.now.tag.now.layout.now.shapes)
                × IsReady crew.now.board.now.table.shared.table_id
                crew.now.board.now.table.shared.key.value own.now.seat.seat
                × HasRoom crew.now.tag.now.layout.now crew.now.tag.now.mesh.now
                (length own.now.scratch.items) }
            ensures { MatchOption own.exit.now.done ⊥ (λ done. done.seat.table_id
                ≡ crew.entry.now.board.now.table.shared.table_id) }
        { work(crew, own) },
    );
}

// The workers work side by side, each on a thread of its own where one can be started, and else one
// after another.
fn work_together<'a, 'h, R: Threads + Wait + Sync, L: Law, G: Gate + Sync>(
    crew: &Crew<'_, 'a, 'h, R, L, G>,
    hands: &mut [Hand<Runner<'a, 'h, L, G::Stub>>],
)
    requires tag { crew.now.board.now.table.shared.key.value ≡ crew.now.tag.now }
    requires run { IsRunTag L.meaning crew.now.tag.now
        × (crew.now.board.now.table.shared.table_id.slots
        ≡ length crew.now.tag.now.layout.now.shapes) }
    requires seats { All (λ hand. IsReady crew.now.board.now.table.shared.table_id
        crew.now.board.now.table.shared.key.value hand.seat.seat) hands.old }
    requires room { All (λ hand. HasRoom crew.now.tag.now.layout.now crew.now.tag.now.mesh.now
        (length hand.scratch.items)) hands.old }
{
    if hands.is_empty() {
        return;
    }
    if hands.len() == 1 {
        work(crew, &mut hands[0]);
        return;
    }
    let (front, back) = hands.split_at_mut(hands.len() / 2);
    thread::join_mut(
        crew.rt,
        &mut ||
            requires { IsSync R.row × IsSync L.row × IsSync G.row × IsSync G.Stub.row
                × IsSend G.Stub.row
                × (crew.now.board.now.table.shared.key.value ≡ crew.now.tag.now)
                × IsRunTag L.meaning crew.now.tag.now
                × (crew.now.board.now.table.shared.table_id.slots
                ≡ length crew.now.tag.now.layout.now.shapes)
                × All (λ hand. IsReady crew.now.board.now.table.shared.table_id
                crew.now.board.now.table.shared.key.value hand.seat.seat) front.now
                × All (λ hand. HasRoom crew.now.tag.now.layout.now crew.now.tag.now.mesh.now
                (length hand.scratch.items)) front.now }
        { work_together(crew, front) },
        &mut ||
            requires { IsSync R.row × IsSync L.row × IsSync G.row × IsSync G.Stub.row
                × IsSend G.Stub.row
                × (crew.now.board.now.table.shared.key.value ≡ crew.now.tag.now)
                × IsRunTag L.meaning crew.now.tag.now
                × (crew.now.board.now.table.shared.table_id.slots
                ≡ length crew.now.tag.now.layout.now.shapes)
                × All (λ hand. IsReady crew.now.board.now.table.shared.table_id
                crew.now.board.now.table.shared.key.value hand.seat.seat) back.now
                × All (λ hand. HasRoom crew.now.tag.now.layout.now crew.now.tag.now.mesh.now
                (length hand.scratch.items)) back.now }
        { work_together(crew, back) },
    );
}
