//! The lines of a case but for those of its nodes, and the pieces of a table's line.
ghost use Rattle.std.specs.Prelude.{◌≡◌, ◌≤◌, ◌+◌, ◌++◌, ◌∷◌, [], codes, length};
ghost use Rattle.fixed_num.specs.Written.{written};
ghost use Rattle.case_model.specs.Limits.{IsJoined};
ghost use Rattle.surge_io.specs.Fields.{count_text, fields_text, line_of};
ghost use Rattle.case_writing.specs.CaseText.{entry_text, first_places, friction_text};
ghost use Rattle.case_writing.specs.CaseText.{friction_word, pipe_names, pipe_numbers, pipe_text};
ghost use Rattle.case_writing.specs.CaseText.{probe_text, second_places, settings_text};
ghost use Rattle.case_writing.specs.CaseText.{table_word, version_word};
ghost use Rattle.case_writing.specs.Named.{IsThere};

use crate::fields::add_number;
use case_model::{Case, Friction, Node, Pipe, Probe, ProbeAt, Table, TableKind};
use surge_io::Line;

// The first line and the single directives, in a version of the case text.
#[tactic(auto, unfolding(crate::specs::CaseText::settings_text))]
pub(crate) fn settings_lines(version: u8, case: &Case) -> Line
    ensures { result ≡ settings_text version case.now }
{
    let mut lines = Line::new();
    add_heading(&mut lines, version);
    add_setting(&mut lines, b"step", case.dt, 6);
    add_counted(&mut lines, b"steps", case.steps);
    add_setting(&mut lines, b"vapour", case.vapour, 6);
    add_setting(&mut lines, b"weight", case.weight, 1);
    add_setting(&mut lines, b"tolerance", case.tolerance, 3);
    add_counted(&mut lines, b"every", case.every);
    add_friction(&mut lines, version, case.friction);
    lines
}

// Adds the first line.
fn add_heading(lines: &mut Line, version: u8)
    requires { length lines.old ≤ 200 }
    ensures text { lines.new ≡ lines.old ++ line_of (codes "surge" ∷ version_word version ∷ []) }
    ensures few { length lines.new ≤ length lines.old + 8 }
{
    lines.push(b"surge");
    lines.add_field(if version == 1 { b"1" } else { b"2" });
    lines.push(b"\n");
}

// Adds the line on friction, which version 1 hasn't.
fn add_friction(lines: &mut Line, version: u8, friction: Friction)
    requires { length lines.old ≤ 220 }
    ensures { lines.new ≡ lines.old ++ friction_text version friction }
{
    if version != 1 {
        lines.push(b"friction");
        lines.add_field(friction_word(friction));
        lines.push(b"\n");
    }
}

fn friction_word(friction: Friction) -> &'static [u8]
    ensures text { result.now ≡ friction_word friction }
    ensures few { length result.now ≤ 8 }
{
    match friction {
        Friction::Explicit => b"explicit",
        Friction::Linear => b"linear",
    }
}

// Adds the line of a single directive with a number.
fn add_setting(lines: &mut Line, word: &[u8], value: i64, places: u32)
    requires room { length lines.old ≤ 200 }
    requires word { length word.now ≤ 9 }
    requires places { places ≤ 9 }
    ensures text { lines.new ≡ lines.old ++ line_of (word.now ∷ written places value ∷ []) }
    ensures few { length lines.new ≤ length lines.old + 33 }
{
    lines.push(word);
    add_number(lines, value, places);
    lines.push(b"\n");
}

// Adds the line of a single directive with a count.
fn add_counted(lines: &mut Line, word: &[u8], count: u64)
    requires room { length lines.old ≤ 200 }
    requires word { length word.now ≤ 9 }
    ensures text { lines.new ≡ lines.old ++ line_of (word.now ∷ count_text count ∷ []) }
    ensures few { length lines.new ≤ length lines.old + 33 }
{
    lines.push(word);
    lines.add_count(count);
    lines.push(b"\n");
}

// The first field of a table's line.
fn table_word(kind: TableKind) -> &'static [u8]
    ensures text { result.now ≡ table_word kind }
    ensures few { length result.now ≤ 8 }
{
    match kind {
        TableKind::Heads => b"heads",
        TableKind::Flows => b"flows",
        TableKind::Openings => b"openings",
        TableKind::Speeds => b"speeds",
        TableKind::Curve => b"curve",
        TableKind::Gas => b"gas",
    }
}

// The line of a table up to its pairs.
pub(crate) fn table_start(table: &Table) -> Line
    ensures { result ≡ table_word table.now.kind ++ 32 ∷ table.now.name }
{
    let mut line = Line::new();
    line.push(table_word(table.kind));
    line.add_field(table.name.as_bytes());
    line
}

// The places of the first numbers of a table.
fn first_places(kind: TableKind) -> u32
    ensures value { result ≡ first_places kind }
    ensures few { result ≤ 9 }
{
    match kind {
        TableKind::Curve | TableKind::Gas => 9,
        TableKind::Heads | TableKind::Flows | TableKind::Openings | TableKind::Speeds => 6,
    }
}

// The places of the second numbers of a table.
fn second_places(kind: TableKind) -> u32
    ensures value { result ≡ second_places kind }
    ensures few { result ≤ 9 }
{
    match kind {
        TableKind::Flows => 9,
        TableKind::Heads
        | TableKind::Openings
        | TableKind::Speeds
        | TableKind::Curve
        | TableKind::Gas => 6,
    }
}

// A pair of a table, with a blank before each number.
pub(crate) fn entry_piece(kind: TableKind, entry: (i64, i64)) -> Line
    ensures { result ≡ entry_text kind entry }
{
    let mut piece = Line::new();
    add_number(&mut piece, entry.0, first_places(kind));
    add_number(&mut piece, entry.1, second_places(kind));
    piece
}

// The line of a pipe.
#[tactic(auto, unfolding(crate::specs::CaseText::pipe_text))]
pub(crate) fn pipe_line(nodes: &[Node], pipe: &Pipe) -> Line
    requires { IsJoined (length nodes.now) pipe.now }
    ensures { result ≡ pipe_text nodes.now pipe.now }
{
    let mut line = Line::new();
    line.push(b"pipe");
    add_names(&mut line, nodes, pipe);
    add_measures(&mut line, pipe);
    line.push(b"\n");
    line
}

// Adds the names of a pipe and of its nodes.
fn add_names(line: &mut Line, nodes: &[Node], pipe: &Pipe)
    requires room { length line.old ≤ 100 }
    requires joined { IsJoined (length nodes.now) pipe.now }
    ensures text { line.new ≡ line.old ++ fields_text (pipe_names nodes.now pipe.now) }
    ensures few { length line.new ≤ length line.old + 99 }
{
    line.add_field(pipe.name.as_bytes());
    line.add_field(nodes[pipe.first as usize].name.as_bytes());
    line.add_field(nodes[pipe.last as usize].name.as_bytes());
}

// Adds the numbers of a pipe.
fn add_measures(line: &mut Line, pipe: &Pipe)
    requires { length line.old ≤ 110 }
    ensures text { line.new ≡ line.old ++ fields_text (pipe_numbers pipe.now) }
    ensures few { length line.new ≤ length line.old + 115 }
{
    add_number(line, pipe.length, 3);
    add_number(line, pipe.diameter, 3);
    add_number(line, pipe.speed, 3);
    add_number(line, pipe.friction, 6);
    add_number(line, pipe.flow, 9);
}

// The line of a probe or a watch.
#[tactic(auto, unfolding(crate::specs::CaseText::probe_text))]
pub(crate) fn probe_line(pipes: &[Pipe], nodes: &[Node], probe: &Probe) -> Line
    requires { IsThere (length pipes.now) (length nodes.now) probe.now.at }
    ensures { result ≡ probe_text pipes.now nodes.now probe.now }
{
    let mut line = Line::new();
    match probe.at {
        ProbeAt::OnPipe { pipe, place } => {
            line.push(b"probe");
            line.add_field(pipes[pipe as usize].name.as_bytes());
            line.add_count(place as u64);
        }
        ProbeAt::OnNode { node } => {
            line.push(b"watch");
            line.add_field(nodes[node as usize].name.as_bytes());
        }
    }
    line.push(b"\n");
    line
}
