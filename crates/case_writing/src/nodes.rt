//! The line of a node.
ghost use Rattle.std.specs.Prelude.{◌≡◌, ◌≤◌, ◌+◌, ◌++◌, ◌∷◌, [], length};
ghost use Rattle.fixed_num.specs.Written.{written};
ghost use Rattle.surge_io.specs.Fields.{fields_text};
ghost use Rattle.case_writing.specs.CaseText.{kind_fields, node_text, node_word};
ghost use Rattle.case_writing.specs.Named.{AreNamed};

use crate::fields::{add_number, add_reference, add_value};
use case_model::{Node, NodeKind, Table};
use surge_io::Line;

// The line of a node.
#[tactic(auto, unfolding(crate::specs::CaseText::node_text))]
pub(crate) fn node_line(tables: &[Table], node: &Node) -> Line
    requires { AreNamed tables.now node.now.kind }
    ensures { result ≡ node_text tables.now node.now }
{
    let mut line = Line::new();
    line.push(node_word(node.kind));
    line.add_field(node.name.as_bytes());
    add_number(&mut line, node.elevation, 6);
    add_kind(&mut line, tables, node.kind);
    line.push(b"\n");
    line
}

// The first field of a node's line.
fn node_word(kind: NodeKind) -> &'static [u8]
    ensures text { result.now ≡ node_word kind }
    ensures few { length result.now ≤ 9 }
{
    match kind {
        NodeKind::Reservoir { .. } => b"reservoir",
        NodeKind::Junction { .. } => b"junction",
        NodeKind::Discharge { .. } => b"discharge",
        NodeKind::Inline { .. } => b"inline",
        NodeKind::Pump { .. } => b"pump",
        NodeKind::Tank { .. } => b"tank",
        NodeKind::Vessel { .. } => b"vessel",
    }
}

// Adds what a kind of node has behind its elevation.
fn add_kind(line: &mut Line, tables: &[Table], kind: NodeKind)
    requires room { length line.old ≤ 70 }
    requires named { AreNamed tables.now kind }
    ensures text { line.new ≡ line.old ++ fields_text (kind_fields tables.now kind) }
    ensures few { length line.new ≤ length line.old + 126 }
{
    match kind {
        NodeKind::Reservoir { head } => add_value(line, tables, head, 6),
        NodeKind::Junction { demand, start } => {
            add_value(line, tables, demand, 9);
            add_number(line, start, 6);
        }
        NodeKind::Discharge {
            q0,
            h0,
            outlet,
            opening,
            start,
        } => {
            add_valve(line, q0, h0);
            add_number(line, outlet, 6);
            add_value(line, tables, opening, 6);
            add_number(line, start, 6);
        }
        NodeKind::Inline {
            q0,
            h0,
            opening,
            start,
            start2,
        } => {
            add_valve(line, q0, h0);
            add_value(line, tables, opening, 6);
            add_number(line, start, 6);
            add_number(line, start2, 6);
        }
        NodeKind::Pump {
            curve,
            speed,
            start,
            start2,
        } => {
            add_reference(line, tables, curve);
            add_value(line, tables, speed, 6);
            add_number(line, start, 6);
            add_number(line, start2, 6);
        }
        NodeKind::Tank { area, start } => {
            add_number(line, area, 6);
            add_number(line, start, 6);
        }
        NodeKind::Vessel { gas, volume } => {
            add_reference(line, tables, gas);
            add_number(line, volume, 9);
        }
    }
}

// Adds the flow of a valve when it is open, and the head loss at that flow.
fn add_valve(line: &mut Line, q0: i64, h0: i64)
    requires { length line.old ≤ 70 }
    ensures text { line.new ≡ line.old ++ fields_text (written 9 q0 ∷ written 6 h0 ∷ []) }
    ensures few { length line.new ≤ length line.old + 46 }
{
    add_number(line, q0, 9);
    add_number(line, h0, 6);
}
