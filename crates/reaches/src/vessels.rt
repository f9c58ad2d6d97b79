//! The rule of division on a vessel: its volume lies within its gas table.
ghost use Rattle.std.specs.Prelude.{◌≡◌};
ghost use Rattle.case_model.specs.Limits.{entry_at};
ghost use Rattle.case_model.specs.Parts.{table_at};
ghost use Rattle.case_model.specs.Refusals.{is_outside as is_outside_of};

use case_model::Case;

/// Whether a volume lies outside a gas table of the case.
pub(crate) fn is_outside_gas(case: &Case, gas: u32, volume: i64) -> bool
    ensures { result ≡ is_outside_of (table_at case.now gas).points volume }
{
    is_outside(gas_points(case, gas), volume)
}

fn gas_points(case: &Case, gas: u32) -> &[(i64, i64)]
    ensures { result.now ≡ (table_at case.now gas).points }
{
    match case.tables.as_slice().get(gas as usize) {
        Some(table) => table.points.as_slice(),
        None => &[],
    }
}

fn is_outside(points: &[(i64, i64)], volume: i64) -> bool
    ensures { result ≡ is_outside_of points.now volume }
{
    let least = volume_at(points, 0);
    let most = volume_at(points, points.len().saturating_sub(1));
    !(least <= volume && volume <= most)
}

fn volume_at(points: &[(i64, i64)], entry: usize) -> i64
    ensures { result ≡ (entry_at points.now entry).0 }
{
    match points.get(entry) {
        Some((volume, _)) => *volume,
        None => 0,
    }
}
