//! The pipes that lines say.
ghost use Rattle.std.specs.Prelude.{◌≡◌, ◌≤◌, List as Items, length};
ghost use Rattle.case_model.specs.declared.cases.Node.{Node};
ghost use Rattle.case_lines.specs.Fields.{field as field_at};
ghost use Rattle.netfile.specs.Named.{IsNamed};
ghost use Rattle.netfile.specs.Indices.{IndexNodes};
ghost use Rattle.netfile.specs.Built.{pipe_of as pipe_of_fields, pipe_by};
ghost use Rattle.netfile.specs.Built.{pipe_said as pipe_of_line};

use crate::indices::part_index;
use case_lines::{Directive, Line, Quantity, amount};
use case_model::{Name, Pipe};
use case_rules::directive_said;
use std::collections::HashMap;

/// The pipe that a line says, if any, by its number in the text.
#[tactic(auto, unfolding(crate::specs::Built::pipe_said))]
pub(crate) fn pipe_said(indices: &HashMap<&[u8], u32>, number: u32, line: &Line) -> Option<Pipe>
    requires { IsNamed line.now }
    ensures { (nodes : Items Node) → IndexNodes indices.now nodes →
        result ≡ pipe_of_line nodes number line.now }
{
    match directive_said(line) {
        Some(Directive::OfPipe) => Some(pipe_of(indices, number, line)),
        _ => None,
    }
}

// The pipe that a line with the directive of pipes says.
#[tactic(auto, unfolding(crate::specs::Built::pipe_of))]
fn pipe_of(indices: &HashMap<&[u8], u32>, number: u32, line: &Line) -> Pipe
    requires { length (field_at line.now 1) ≤ 32 }
    ensures { (nodes : Items Node) → IndexNodes indices.now nodes →
        result ≡ pipe_of_fields nodes number line.now }
{
    Pipe {
        name: Name::of(line.field(1)),
        line: number,
        first: part_index(indices, line.field(2)),
        last: part_index(indices, line.field(3)),
        length: amount(Quantity::Length, line.field(4)),
        diameter: amount(Quantity::Diameter, line.field(5)),
        speed: amount(Quantity::WaveSpeed, line.field(6)),
        friction: amount(Quantity::FrictionFactor, line.field(7)),
        flow: amount(Quantity::Flow, line.field(8)),
    }
}
