//! The fields of a line, each behind a blank.
ghost use Rattle.std.specs.Prelude.{◌≡◌, ◌≤◌, ◌<◌, ◌+◌, ◌++◌, ◌∷◌, [], codes, length};
ghost use Rattle.std.specs.Prelude.{unsigned_abs};
ghost use Rattle.surge_io.specs.Fields.{fields_text};
ghost use Rattle.report.specs.Lines.{flow_text, head_text, label, volume_text};
ghost use Rattle.report.specs.MeshText.{friction_text, impedance_text, speed_text};
ghost use Rattle.report.specs.Places.{IsNamed};

use case_model::{Case, ProbeAt};
use fixed_num::write_decimal;
use surge_io::Line;

// Adds a blank and a head, in 1e-6 m.
pub(crate) fn add_head(line: &mut Line, head: i64)
    requires { length line.old ≤ 233 }
    ensures text { line.new ≡ line.old ++ 32 ∷ head_text head }
    ensures few { length line.new ≤ length line.old + 23 }
{
    line.add_number(head as i128, 6);
}

// Adds a blank and a flow or a growth, in 1e-9 m3/s.
pub(crate) fn add_flow(line: &mut Line, flow: i64)
    requires { length line.old ≤ 233 }
    ensures text { line.new ≡ line.old ++ 32 ∷ flow_text flow }
    ensures few { length line.new ≤ length line.old + 23 }
{
    line.add_number(flow as i128, 9);
}

// Adds a blank and a volume, in 1e-9 m3.
pub(crate) fn add_volume(line: &mut Line, volume: i64)
    requires { length line.old ≤ 233 }
    ensures text { line.new ≡ line.old ++ 32 ∷ volume_text volume }
    ensures few { length line.new ≤ length line.old + 23 }
{
    line.add_number(volume as i128, 9);
}

// Adds its word and a wave speed, in 1e-3 m/s.
pub(crate) fn add_speed(line: &mut Line, speed: i128)
    requires room { length line.old ≤ 200 }
    requires size { unsigned_abs speed < 100_000_000_000_000_000_000 }
    ensures text { line.new ≡ line.old ++ fields_text (codes "speed" ∷ speed_text speed ∷ []) }
    ensures few { length line.new ≤ length line.old + 29 }
{
    line.add_field(b"speed");
    line.add_number(speed, 3);
}

// Adds its word and an impedance, in 1e-6 s/m2.
pub(crate) fn add_impedance(line: &mut Line, b: i64)
    requires { length line.old ≤ 200 }
    ensures text { line.new ≡ line.old ++ fields_text (codes "b" ∷ impedance_text b ∷ []) }
    ensures few { length line.new ≤ length line.old + 25 }
{
    line.add_field(b"b");
    line.add_number(b as i128, 6);
}

// Adds its word and the friction of a reach, in 1e-12 s2/m5.
pub(crate) fn add_friction(line: &mut Line, r: i128)
    requires room { length line.old ≤ 200 }
    requires size { unsigned_abs r ≤ 100_000_000_000_000_000_000 }
    ensures text { line.new ≡ line.old ++ fields_text (codes "r" ∷ friction_text r ∷ []) }
    ensures few { length line.new ≤ length line.old + 51 }
{
    line.add_field(b"r");
    let mut digits = [0; 48];
    let count = write_decimal(r, 12, &mut digits);
    line.add_field(&digits[..count]);
}

// Adds the label of a place, a blank before each of its fields.
pub(crate) fn add_label(line: &mut Line, case: &Case, at: ProbeAt)
    requires room { length line.old ≤ 200 }
    requires named { IsNamed case.now at }
    ensures text { line.new ≡ line.old ++ fields_text (label case.now at) }
    ensures few { length line.new ≤ length line.old + 56 }
{
    match at {
        ProbeAt::OnPipe { pipe, place } => {
            line.add_field(case.pipes.as_slice()[pipe as usize].name.as_bytes());
            line.add_count(place as u64);
        }
        ProbeAt::OnNode { node } => {
            line.add_field(case.nodes.as_slice()[node as usize].name.as_bytes());
        }
    }
}
