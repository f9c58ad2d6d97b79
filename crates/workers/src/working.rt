//! What each worker does until all runners are finished.
ghost use Rattle.std.specs.Prelude.{◌≡◌, length, MatchOption};
ghost use Rattle.claimboard.specs.Views.{IsReady};
ghost use Rattle.runners.specs.Tags.{HasRoom, IsRunTag};

use crate::crews::Crew;
use crate::hands::Hand;
use crate::scans::scan;
use crate::starts::take_start;
use case_model::Law;
use crossbeam_utils::Backoff;
use regionrun::Gate;
use runners::Runner;
use std::sync::Wait;

/// Goes over the board from the worker's starting number again and again, until all runners are
/// found finished. Where none went on the worker pauses.
pub(crate) fn work<'a, 'h, R: Wait, L: Law, G: Gate>(
    crew: &Crew<'_, 'a, 'h, R, L, G>,
    hand: &mut Hand<Runner<'a, 'h, L, G::Stub>>,
)
    requires tag { crew.now.board.now.table.shared.key.value ≡ crew.now.tag.now }
    requires run { IsRunTag L.meaning crew.now.tag.now
        × (crew.now.board.now.table.shared.table_id.slots
        ≡ length crew.now.tag.now.layout.now.shapes) }
    requires seat { IsReady crew.now.board.now.table.shared.table_id
        crew.now.board.now.table.shared.key.value hand.old.seat.seat }
    requires room { HasRoom crew.now.tag.now.layout.now crew.now.tag.now.mesh.now
        (length hand.old.scratch.items) }
    ensures { MatchOption hand.new.done ⊥
        (λ done. done.seat.table_id ≡ crew.now.board.now.table.shared.table_id) }
{
    let from = take_start(crew.starts);
    let backoff = Backoff::new();
    for _ in crew.rt.forever() {
        if scan(crew, &mut hand.seat, &mut hand.scratch, from) {
            backoff.reset();
        } else if let Some(done) = crew.board.all_finished(&mut hand.seat) {
            hand.done = Some(done);
            return;
        } else {
            backoff.snooze();
        }
    }
    unreachable!()
}
