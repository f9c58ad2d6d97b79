//! How a worker goes over the board.
ghost use Rattle.std.specs.Prelude.{◌≡◌, ◌<◌, ◌≤◌, length};
ghost use Rattle.claimboard.specs.Views.{IsReady};
ghost use Rattle.runners.specs.Tags.{HasRoom, IsRunTag};

use crate::bursts::burst;
use crate::crews::Crew;
use crate::looks::{looks_free, looks_ready};
use case_model::Law;
use claimboard::{BoardSeat, Claim, Item};
use regionrun::Gate;
use runners::Runner;

/// Goes once over all runners from a starting number on, and advances each that looks free and ready
/// and can be claimed. Whether one went on.
pub(crate) fn scan<'a, 'h, R, L: Law, G: Gate>(
    crew: &Crew<'_, 'a, 'h, R, L, G>,
    seat: &mut BoardSeat<Runner<'a, 'h, L, G::Stub>>,
    scratch: &mut [u64],
    from: u32,
) -> bool
    requires tag { crew.now.board.now.table.shared.key.value ≡ crew.now.tag.now }
    requires run { IsRunTag L.meaning crew.now.tag.now
        × (crew.now.board.now.table.shared.table_id.slots
        ≡ length crew.now.tag.now.layout.now.shapes) }
    requires seat { IsReady crew.now.board.now.table.shared.table_id
        crew.now.board.now.table.shared.key.value seat.old.seat }
    requires room { HasRoom crew.now.tag.now.layout.now crew.now.tag.now.mesh.now
        (length scratch.old) }
    ensures seat { IsReady crew.now.board.now.table.shared.table_id
        crew.now.board.now.table.shared.key.value seat.new.seat }
    ensures room { length scratch.new ≡ length scratch.old }
{
    let count = crew.board.table.slot_count() as u64;
    let mut moved = false;
    for step in 0..count {
        let number = ((u64::from(from) + step) % count) as u32;
        if looks_free(crew.board, number)
            && looks_ready(crew.tag, number)
            && visit(crew, seat, scratch, number)
        {
            moved = true;
        }
    }
    moved
}

// Advances a runner, where it can be claimed, and puts it back. Whether it went on.
fn visit<'a, 'h, R, L: Law, G: Gate>(
    crew: &Crew<'_, 'a, 'h, R, L, G>,
    seat: &mut BoardSeat<Runner<'a, 'h, L, G::Stub>>,
    scratch: &mut [u64],
    number: u32,
) -> bool
    requires tag { crew.now.board.now.table.shared.key.value ≡ crew.now.tag.now }
    requires there { number < crew.now.board.now.table.shared.table_id.slots }
    requires seat { IsReady crew.now.board.now.table.shared.table_id
        crew.now.board.now.table.shared.key.value seat.old.seat }
    requires room { HasRoom crew.now.tag.now.layout.now crew.now.tag.now.mesh.now
        (length scratch.old) }
    ensures seat { IsReady crew.now.board.now.table.shared.table_id
        crew.now.board.now.table.shared.key.value seat.new.seat }
    ensures room { length scratch.new ≡ length scratch.old }
{
    match crew.board.claim(seat, number) {
        Claim::Held(mut runner) => {
            let moved = burst(crew.tag, crew.gate, &mut runner, scratch);
            if runner.finished() {
                crew.board.finish(seat, runner);
            } else {
                crew.board.give_back(seat, runner);
            }
            moved
        }
        Claim::Busy | Claim::Finished => false,
    }
}
