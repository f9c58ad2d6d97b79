//! The lines of a junction and of a pipe.
ghost use Rattle.std.specs.Prelude.{◌≡◌, ◌≤◌, ◌+◌, ◌++◌, length};
ghost use Rattle.surge_io.specs.Fields.{fields_text};
ghost use Rattle.drill.specs.Network.{demand_text, junction_text, pipe_names, pipe_numbers};
ghost use Rattle.drill.specs.Network.{pipe_text};

use crate::fields::add_numbered;
use surge_io::Line;

// The line of the junction of this number.
#[tactic(auto, unfolding(crate::specs::Network::junction_text))]
pub(crate) fn junction_line(k: u64) -> Line
    ensures { result ≡ junction_text k }
{
    let mut line = Line::new();
    line.push(b"junction");
    add_numbered(&mut line, b"J", k);
    line.add_field(b"0");
    line.add_field(demand_text(k));
    line.add_field(b"80");
    line.push(b"\n");
    line
}

// The demand of the junction of this number.
fn demand_text(k: u64) -> &'static [u8]
    ensures text { result.now ≡ demand_text k }
    ensures few { length result.now ≤ 2 }
{
    if k % 5 == 0 { b"@D" } else { b"0" }
}

// The line of the pipe of this number, by the number that was drawn for it.
#[tactic(auto, unfolding(crate::specs::Network::pipe_text))]
pub(crate) fn pipe_line(k: u64, drawn: u64) -> Line
    requires { 1 ≤ k }
    ensures { result ≡ pipe_text k drawn }
{
    let mut line = Line::new();
    line.push(b"pipe");
    add_ends(&mut line, k);
    add_measures(&mut line, drawn);
    line.push(b"\n");
    line
}

// Adds the names of a pipe and of its junctions.
fn add_ends(line: &mut Line, k: u64)
    requires some { 1 ≤ k }
    requires room { length line.old ≤ 20 }
    ensures text { line.new ≡ line.old ++ fields_text (pipe_names k) }
    ensures few { length line.new ≤ length line.old + 75 }
{
    add_numbered(line, b"P", k);
    add_numbered(line, b"J", k - 1);
    add_numbered(line, b"J", k);
}

// Adds the numbers of a pipe.
fn add_measures(line: &mut Line, drawn: u64)
    requires { length line.old ≤ 100 }
    ensures text { line.new ≡ line.old ++ fields_text (pipe_numbers drawn) }
    ensures few { length line.new ≤ length line.old + 70 }
{
    line.add_count(100 + 10 * (drawn / 65_536 % 20));
    add_numbered(line, b"0.", 3 + drawn / 2_097_152 % 5);
    line.add_field(b"1000");
    line.add_field(b"0.02");
    line.add_field(b"0");
}
