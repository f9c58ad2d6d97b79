//! The nodes that lines say.
ghost use Rattle.std.specs.Prelude.{◌≡◌, ◌≤◌, List as Items, length};
ghost use Rattle.case_model.specs.declared.cases.Table.{Table};
ghost use Rattle.netfile.specs.Named.{IsNamed};
ghost use Rattle.netfile.specs.Indices.{IndexTables};
ghost use Rattle.netfile.specs.Built.{value_said as value_of_field, kind_said as kind_of_line};
ghost use Rattle.netfile.specs.Built.{node_by, node_said as node_of_line};

use crate::indices::part_index;
use case_lines::{Directive, Line, NodeWord, Quantity, amount, is_marked, referred};
use case_model::{Name, Node, NodeKind, Value};
use case_rules::directive_said;
use std::collections::HashMap;

/// The node that a line says, if any, by its number in the text.
#[tactic(auto, unfolding(crate::specs::Built::node_said))]
pub(crate) fn node_said(indices: &HashMap<&[u8], u32>, number: u32, line: &Line) -> Option<Node>
    requires { IsNamed line.now }
    ensures { (tables : Items Table) → IndexTables indices.now tables →
        result ≡ node_of_line tables number line.now }
{
    match directive_said(line) {
        Some(Directive::OfNode(word)) => Some(Node {
            name: Name::of(line.field(1)),
            line: number,
            elevation: amount(Quantity::Elevation, line.field(2)),
            kind: kind_said(indices, word, line),
        }),
        _ => None,
    }
}

// What stands at a node, by the fields of its line.
#[tactic(auto, unfolding(crate::specs::Built::kind_said))]
fn kind_said(indices: &HashMap<&[u8], u32>, word: NodeWord, line: &Line) -> NodeKind
    ensures { (tables : Items Table) → IndexTables indices.now tables →
        result ≡ kind_of_line tables word line.now }
{
    match word {
        NodeWord::Reservoir => NodeKind::Reservoir {
            head: value_said(indices, Quantity::Head, line.field(3)),
        },
        NodeWord::Junction => NodeKind::Junction {
            demand: value_said(indices, Quantity::Flow, line.field(3)),
            start: amount(Quantity::Head, line.field(4)),
        },
        NodeWord::Discharge => NodeKind::Discharge {
            q0: amount(Quantity::ValveFlow, line.field(3)),
            h0: amount(Quantity::ValveLoss, line.field(4)),
            outlet: amount(Quantity::Head, line.field(5)),
            opening: value_said(indices, Quantity::Opening, line.field(6)),
            start: amount(Quantity::Head, line.field(7)),
        },
        NodeWord::Inline => NodeKind::Inline {
            q0: amount(Quantity::ValveFlow, line.field(3)),
            h0: amount(Quantity::ValveLoss, line.field(4)),
            opening: value_said(indices, Quantity::Opening, line.field(5)),
            start: amount(Quantity::Head, line.field(6)),
            start2: amount(Quantity::Head, line.field(7)),
        },
        NodeWord::Pump => NodeKind::Pump {
            curve: part_index(indices, referred(line.field(3))),
            speed: value_said(indices, Quantity::SpeedRatio, line.field(4)),
            start: amount(Quantity::Head, line.field(5)),
            start2: amount(Quantity::Head, line.field(6)),
        },
        NodeWord::Tank => NodeKind::Tank {
            area: amount(Quantity::Area, line.field(3)),
            start: amount(Quantity::Head, line.field(4)),
        },
        NodeWord::Vessel => NodeKind::Vessel {
            gas: part_index(indices, referred(line.field(3))),
            volume: amount(Quantity::Volume, line.field(4)),
        },
    }
}

// A number, or the table that a reference names.
#[tactic(auto, unfolding(crate::specs::Built::value_said))]
fn value_said(indices: &HashMap<&[u8], u32>, quantity: Quantity, text: &[u8]) -> Value
    ensures { (tables : Items Table) → IndexTables indices.now tables →
        result ≡ value_of_field tables quantity text.now }
{
    if is_marked(text) {
        Value::ByTable(part_index(indices, referred(text)))
    } else {
        Value::Fixed(amount(quantity, text))
    }
}
