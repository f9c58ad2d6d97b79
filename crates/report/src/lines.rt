//! The lines of a report.
ghost use Rattle.std.specs.Prelude.{◌≡◌, ◌≤◌, ◌+◌, ◌++◌, ◌∷◌, [], length};
ghost use Rattle.envelope.specs.Lines.{told};
ghost use Rattle.surge_io.specs.Fields.{count_text, fields_text};
ghost use Rattle.report.specs.Lines.{flow_text, head_text, volume_text};
ghost use Rattle.report.specs.Places.{IsNamed};
ghost use Rattle.report.specs.Report.{cavity_line, envelope_line, has_gas, is_vessel, or_zeros};
ghost use Rattle.report.specs.Report.{peak_line, sample_line, sample_numbers, sample_word};

use crate::fields::{add_flow, add_head, add_label, add_volume};
use case_model::{Case, NodeKind, ProbeAt};
use envelope::{Extreme, Sample};
use surge_io::Line;

// The line of a sample; zeros stand where there is none.
#[tactic(auto, unfolding(crate::specs::Report::sample_line))]
pub(crate) fn sample_line(case: &Case, at: ProbeAt, step: u64, sample: Option<Sample>) -> Line
    requires { IsNamed case.now at }
    ensures { result ≡ sample_line case.now at step (told sample) }
{
    let mut line = Line::new();
    line.push(sample_word(at));
    add_label(&mut line, case, at);
    line.add_count(step);
    add_sample(&mut line, at, &sample_or_zeros(sample));
    line.push(b"\n");
    line
}

// The first field of a line of a sample.
fn sample_word(at: ProbeAt) -> &'static [u8]
    ensures text { result.now ≡ sample_word at }
    ensures few { length result.now ≤ 5 }
{
    match at {
        ProbeAt::OnPipe { .. } => b"probe",
        ProbeAt::OnNode { .. } => b"watch",
    }
}

fn sample_or_zeros(sample: Option<Sample>) -> Sample
    ensures { record { h = result.h; qu = result.qu; qd = result.qd; v = result.v }
        ≡ or_zeros (told sample) }
{
    match sample {
        Some(sample) => sample,
        None => Sample {
            h: 0,
            qu: 0,
            qd: 0,
            v: 0,
        },
    }
}

// Adds the numbers of a sample.
fn add_sample(line: &mut Line, at: ProbeAt, sample: &Sample)
    requires { length line.old ≤ 164 }
    ensures text { line.new ≡ line.old
        ++ fields_text
        (sample_numbers at
        (record { h = sample.now.h; qu = sample.now.qu; qd = sample.now.qd; v = sample.now.v })) }
    ensures few { length line.new ≤ length line.old + 92 }
{
    match at {
        ProbeAt::OnPipe { .. } => add_point(line, sample),
        ProbeAt::OnNode { .. } => add_state(line, sample),
    }
}

// Adds the numbers of a place of a pipe: head, flows and volume.
fn add_point(line: &mut Line, sample: &Sample)
    requires { length line.old ≤ 164 }
    ensures text { line.new ≡ line.old
        ++ fields_text (head_text sample.now.h ∷ flow_text sample.now.qu ∷ flow_text sample.now.qd
        ∷ volume_text sample.now.v ∷ []) }
    ensures few { length line.new ≤ length line.old + 92 }
{
    add_head(line, sample.h);
    add_flow(line, sample.qu);
    add_downstream(line, sample);
}

// Adds the numbers of a node: head, growth and volume.
fn add_state(line: &mut Line, sample: &Sample)
    requires { length line.old ≤ 164 }
    ensures text { line.new ≡ line.old
        ++ fields_text (head_text sample.now.h ∷ flow_text sample.now.qd ∷ volume_text sample.now.v
        ∷ []) }
    ensures few { length line.new ≤ length line.old + 92 }
{
    add_head(line, sample.h);
    add_downstream(line, sample);
}

// Adds the flow on the downstream side, or the growth, and the volume.
fn add_downstream(line: &mut Line, sample: &Sample)
    requires { length line.old ≤ 210 }
    ensures text { line.new ≡ line.old
        ++ fields_text (flow_text sample.now.qd ∷ volume_text sample.now.v ∷ []) }
    ensures few { length line.new ≤ length line.old + 46 }
{
    add_flow(line, sample.qd);
    add_volume(line, sample.v);
}

// Whether the volume of a place is that of a gas, and no cavity's.
fn has_gas(case: &Case, at: ProbeAt) -> bool
    requires { IsNamed case.now at }
    ensures { result ≡ has_gas case.now at }
{
    match at {
        ProbeAt::OnPipe { .. } => false,
        ProbeAt::OnNode { node } => is_vessel(case.nodes.as_slice()[node as usize].kind),
    }
}

fn is_vessel(kind: NodeKind) -> bool
    ensures { result ≡ is_vessel kind }
{
    match kind {
        NodeKind::Vessel { .. } => true,
        NodeKind::Reservoir { .. }
        | NodeKind::Junction { .. }
        | NodeKind::Discharge { .. }
        | NodeKind::Inline { .. }
        | NodeKind::Pump { .. }
        | NodeKind::Tank { .. } => false,
    }
}

// The line of the greatest volume of a place, or nothing where it has no cavity.
#[tactic(auto, unfolding(crate::specs::Report::cavity_line))]
pub(crate) fn cavity_line(case: &Case, at: ProbeAt, extreme: &Extreme) -> Line
    requires { IsNamed case.now at }
    ensures { result ≡ cavity_line case.now at extreme.now }
{
    let mut line = Line::new();
    if extreme.volume > 0 && !has_gas(case, at) {
        line.push(b"cavity");
        add_label(&mut line, case, at);
        add_volume(&mut line, extreme.volume);
        line.add_count(extreme.volume_step);
        line.push(b"\n");
    }
    line
}

// Adds a head and the first step at which it stands.
fn add_head_at(line: &mut Line, head: i64, step: u64)
    requires { length line.old ≤ 210 }
    ensures text { line.new ≡ line.old ++ fields_text (head_text head ∷ count_text step ∷ []) }
    ensures few { length line.new ≤ length line.old + 46 }
{
    add_head(line, head);
    line.add_count(step);
}

// The line of the greatest and the least head of a place.
#[tactic(auto, unfolding(crate::specs::Report::envelope_line))]
pub(crate) fn envelope_line(case: &Case, at: ProbeAt, extreme: &Extreme) -> Line
    requires { IsNamed case.now at }
    ensures { result ≡ envelope_line case.now at extreme.now }
{
    let mut line = Line::new();
    line.push(b"envelope");
    add_label(&mut line, case, at);
    add_head_at(&mut line, extreme.max, extreme.max_step);
    add_head_at(&mut line, extreme.min, extreme.min_step);
    line.push(b"\n");
    line
}

// The line of the greatest and the least head over all places of pipes.
#[tactic(auto, unfolding(crate::specs::Report::peak_line))]
pub(crate) fn peak_line(
    case: &Case,
    high: ProbeAt,
    greatest: &Extreme,
    low: ProbeAt,
    least: &Extreme,
) -> Line
    requires high { IsNamed case.now high }
    requires low { IsNamed case.now low }
    ensures { result ≡ peak_line case.now high greatest.now low least.now }
{
    let mut line = Line::new();
    line.push(b"peak");
    add_label(&mut line, case, high);
    add_head_at(&mut line, greatest.max, greatest.max_step);
    line.add_field(b"low");
    add_label(&mut line, case, low);
    add_head_at(&mut line, least.min, least.min_step);
    line.push(b"\n");
    line
}
