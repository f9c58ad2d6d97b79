//! The cell of each place that lies in the spans of a fold.
ghost use Rattle.std.specs.Prelude.{◌≡◌, ◌<◌, ◌≤◌, true, length, slice_index};
ghost use Rattle.envelope.specs.Cells.{IsRising, bases_of, is_within};
ghost use Rattle.envelope.specs.Cells.{cell_of as cell_is};

/// How many cells the places of the spans have.
pub(crate) fn count_cells(spans: &[(u64, u64)]) -> usize
    requires { IsRising spans.now }
    ensures count { result ≡ slice_index (bases_of spans.now) (length spans.now) }
    ensures few { result ≤ 400_000 }
{
    let mut count = 0;
    for span in spans {
        count += span.1 as usize;
    }
    count
}

/// The cell of a place that lies in the spans. Most folds have one span.
#[tactic(auto, unfolding(crate::specs::Cells::cell_of))]
pub(crate) fn find_cell(spans: &[(u64, u64)], place: u64) -> usize
    requires rising { IsRising spans.now }
    requires within { is_within spans.now place ≡ true }
    ensures cell { result ≡ cell_is spans.now (bases_of spans.now) place }
    ensures inside { result < slice_index (bases_of spans.now) (length spans.now) }
{
    let mut index = 0;
    let mut before = 0;
    while spans[index].0 + spans[index].1 <= place {
        before += spans[index].1 as usize;
        index += 1;
    }
    before + (place - spans[index].0) as usize
}
