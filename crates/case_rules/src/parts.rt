//! What lines say and define.
ghost use Rattle.std.specs.Prelude.{◌≡◌, ◌&&◌, length, nat_lt};
ghost use Rattle.case_rules.specs.Said.{directive_said as said_by, named_by as named_after};
ghost use Rattle.case_rules.specs.Said.{table_part as part_of_kind};
ghost use Rattle.case_rules.specs.Said.{is_definition as is_definition_line, is_some_part};

use case_lines::{Directive, Line};
use case_model::TableKind;

/// A kind of part that has a name of its own.
#[derive(Clone, Copy, Debug, PartialEq, Eq, Hash)]
pub enum Part {
    /// A table of heads.
    HeadTable,
    /// A table of flows.
    FlowTable,
    /// A table of openings.
    OpeningTable,
    /// A table of speed ratios.
    SpeedTable,
    /// A pump's curve.
    CurveTable,
    /// A gas table.
    GasTable,
    /// A node.
    ANode,
    /// A pipe.
    APipe,
}

/// The directive of a line, if it has one.
#[tactic(auto, unfolding(crate::specs::Said::directive_said))]
pub fn directive_said(line: &Line) -> Option<Directive>
    ensures { result ≡ said_by line.now }
{
    line.directive()
}

/// The kind of part to which a directive gives a name, if any.
pub(crate) fn named_by(directive: Option<Directive>) -> Option<Part>
    ensures { result ≡ named_after directive }
{
    match directive {
        Some(Directive::OfTable(kind)) => Some(table_part(kind)),
        Some(Directive::OfNode(_)) => Some(Part::ANode),
        Some(Directive::OfPipe) => Some(Part::APipe),
        _ => None,
    }
}

/// The kind of part that a table of a kind is.
pub(crate) fn table_part(kind: TableKind) -> Part
    ensures { result ≡ part_of_kind kind }
{
    match kind {
        TableKind::Heads => Part::HeadTable,
        TableKind::Flows => Part::FlowTable,
        TableKind::Openings => Part::OpeningTable,
        TableKind::Speeds => Part::SpeedTable,
        TableKind::Curve => Part::CurveTable,
        TableKind::Gas => Part::GasTable,
    }
}

/// Whether a directive gives a name to a part.
pub(crate) fn is_named(directive: Option<Directive>) -> bool
    ensures { result ≡ is_some_part (named_after directive) }
{
    named_by(directive).is_some()
}

/// Whether a line defines a name.
#[tactic(auto, unfolding(crate::specs::Said::is_definition))]
pub(crate) fn is_definition(line: &Line) -> bool
    ensures { result ≡ is_definition_line line.now }
{
    is_named(directive_said(line)) && line.count() > 1
}
