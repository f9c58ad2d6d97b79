//! The probes and watches that lines say.
ghost use Rattle.std.specs.Prelude.{◌≡◌, ◌≤◌, List as Items, length};
ghost use Rattle.case_model.specs.declared.cases.Node.{Node};
ghost use Rattle.case_model.specs.declared.cases.Pipe.{Pipe};
ghost use Rattle.netfile.specs.Named.{IsPlaced};
ghost use Rattle.netfile.specs.Indices.{IndexNodes, IndexPipes};
ghost use Rattle.netfile.specs.Built.{probe_by, probe_said as probe_of_line};

use crate::indices::part_index;
use case_lines::{Directive, Line, Quantity, amount};
use case_model::{Probe, ProbeAt};
use case_rules::directive_said;
use std::collections::HashMap;

/// The probe or watch that a line says, if any, by its number in the text.
#[tactic(auto, unfolding(crate::specs::Built::probe_said))]
pub(crate) fn probe_said(
    pipes: &HashMap<&[u8], u32>,
    nodes: &HashMap<&[u8], u32>,
    number: u32,
    line: &Line,
) -> Option<Probe>
    requires { IsPlaced line.now }
    ensures { (ps : Items Pipe) (ns : Items Node) → IndexPipes pipes.now ps →
        IndexNodes nodes.now ns → result ≡ probe_of_line ps ns number line.now }
{
    match directive_said(line) {
        Some(Directive::OfProbe) => Some(Probe {
            line: number,
            at: ProbeAt::OnPipe {
                pipe: part_index(pipes, line.field(1)),
                place: amount(Quantity::PipePlace, line.field(2)).unsigned_abs() as u32,
            },
        }),
        Some(Directive::OfWatch) => Some(Probe {
            line: number,
            at: ProbeAt::OnNode {
                node: part_index(nodes, line.field(1)),
            },
        }),
        _ => None,
    }
}
