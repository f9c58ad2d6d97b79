//! What the fields of a line must be, by the word with which it begins.
ghost use Rattle.std.specs.Prelude.{◌≡◌, ◌-◌, ◌==◌, slice_index_or, if◌then◌else◌};
ghost use Rattle.case_lines.specs.Fields.{single_field, first_quantity, second_quantity};
ghost use Rattle.case_lines.specs.Fields.{node_fields, pipe_fields, probe_fields, table_field};
ghost use Rattle.case_lines.specs.Fields.{node_field, field_kind};

use crate::quantities::Quantity;
use crate::words::{Directive, NodeWord, Single};
use case_model::TableKind;

/// What a field must be.
#[derive(Clone, Copy, Debug, PartialEq, Eq)]
pub enum FieldKind {
    /// A name that the line defines.
    NewName,
    /// The name of a node.
    NodeName,
    /// The name of a pipe.
    PipeName,
    /// A reference to a table of this kind.
    Reference(TableKind),
    /// A number.
    Number(Quantity),
    /// A number, or a reference to a table of this kind.
    Value(Quantity, TableKind),
    /// A word on how friction is taken.
    FrictionWord,
}

// What the field of a single directive must be.
fn single_field(single: Single) -> FieldKind
    ensures { result ≡ single_field single }
{
    match single {
        Single::Step => FieldKind::Number(Quantity::TimeStep),
        Single::Steps => FieldKind::Number(Quantity::StepCount),
        Single::Vapour => FieldKind::Number(Quantity::VapourHead),
        Single::Weight => FieldKind::Number(Quantity::GrowthWeight),
        Single::Tolerance => FieldKind::Number(Quantity::SpeedTolerance),
        Single::Every => FieldKind::Number(Quantity::SampleStep),
        Single::FrictionForm => FieldKind::FrictionWord,
    }
}

/// What the first numbers of the pairs of a table are.
pub fn first_quantity(kind: TableKind) -> Quantity
    ensures { result ≡ first_quantity kind }
{
    match kind {
        TableKind::Heads => Quantity::Time,
        TableKind::Flows => Quantity::Time,
        TableKind::Openings => Quantity::Time,
        TableKind::Speeds => Quantity::Time,
        TableKind::Curve => Quantity::CurveFlow,
        TableKind::Gas => Quantity::Volume,
    }
}

/// What the second numbers of the pairs of a table are.
pub fn second_quantity(kind: TableKind) -> Quantity
    ensures { result ≡ second_quantity kind }
{
    match kind {
        TableKind::Heads => Quantity::Head,
        TableKind::Flows => Quantity::Flow,
        TableKind::Openings => Quantity::Opening,
        TableKind::Speeds => Quantity::SpeedRatio,
        TableKind::Curve => Quantity::CurveRise,
        TableKind::Gas => Quantity::Head,
    }
}

const RESERVOIR: [FieldKind; 1] = [FieldKind::Value(Quantity::Head, TableKind::Heads)];

const JUNCTION: [FieldKind; 2] = [
    FieldKind::Value(Quantity::Flow, TableKind::Flows),
    FieldKind::Number(Quantity::Head),
];

const DISCHARGE: [FieldKind; 5] = [
    FieldKind::Number(Quantity::ValveFlow),
    FieldKind::Number(Quantity::ValveLoss),
    FieldKind::Number(Quantity::Head),
    FieldKind::Value(Quantity::Opening, TableKind::Openings),
    FieldKind::Number(Quantity::Head),
];

const INLINE: [FieldKind; 5] = [
    FieldKind::Number(Quantity::ValveFlow),
    FieldKind::Number(Quantity::ValveLoss),
    FieldKind::Value(Quantity::Opening, TableKind::Openings),
    FieldKind::Number(Quantity::Head),
    FieldKind::Number(Quantity::Head),
];

const PUMP: [FieldKind; 4] = [
    FieldKind::Reference(TableKind::Curve),
    FieldKind::Value(Quantity::SpeedRatio, TableKind::Speeds),
    FieldKind::Number(Quantity::Head),
    FieldKind::Number(Quantity::Head),
];

const TANK: [FieldKind; 2] = [
    FieldKind::Number(Quantity::Area),
    FieldKind::Number(Quantity::Head),
];

const VESSEL: [FieldKind; 2] = [
    FieldKind::Reference(TableKind::Gas),
    FieldKind::Number(Quantity::Volume),
];

const PIPE: [FieldKind; 8] = [
    FieldKind::NewName,
    FieldKind::NodeName,
    FieldKind::NodeName,
    FieldKind::Number(Quantity::Length),
    FieldKind::Number(Quantity::Diameter),
    FieldKind::Number(Quantity::WaveSpeed),
    FieldKind::Number(Quantity::FrictionFactor),
    FieldKind::Number(Quantity::Flow),
];

const PROBE: [FieldKind; 2] = [FieldKind::PipeName, FieldKind::Number(Quantity::PipePlace)];

/// The fields behind the name and the elevation of a node.
pub(crate) fn node_fields(node: NodeWord) -> &'static [FieldKind]
    ensures { result.now ≡ node_fields node }
{
    match node {
        NodeWord::Reservoir => &RESERVOIR,
        NodeWord::Junction => &JUNCTION,
        NodeWord::Discharge => &DISCHARGE,
        NodeWord::Inline => &INLINE,
        NodeWord::Pump => &PUMP,
        NodeWord::Tank => &TANK,
        NodeWord::Vessel => &VESSEL,
    }
}

/// What the field at a place of a line must be, counted from the word at place 0.
#[tactic(auto, unfolding(crate::specs::Fields::field_kind))]
pub fn field_kind(directive: Directive, place: usize) -> FieldKind
    ensures { result ≡ field_kind directive place }
{
    match directive {
        Directive::OfSingle(single) => single_field(single),
        Directive::OfTable(kind) => table_field(kind, place),
        Directive::OfNode(node) => node_field(node, place),
        Directive::OfPipe => pipe_field(place),
        Directive::OfProbe => probe_field(place),
        Directive::OfWatch => FieldKind::NodeName,
    }
}

fn table_field(kind: TableKind, place: usize) -> FieldKind
    ensures { result ≡ table_field kind place }
{
    if place == 1 {
        FieldKind::NewName
    } else if place % 2 == 0 {
        FieldKind::Number(first_quantity(kind))
    } else {
        FieldKind::Number(second_quantity(kind))
    }
}

fn node_field(node: NodeWord, place: usize) -> FieldKind
    ensures { result ≡ node_field node place }
{
    if place == 1 {
        FieldKind::NewName
    } else if place == 2 {
        FieldKind::Number(Quantity::Elevation)
    } else {
        kind_at(node_fields(node), place.saturating_sub(3))
    }
}

fn pipe_field(place: usize) -> FieldKind
    ensures { result ≡ slice_index_or pipe_fields (place - 1) FieldKind.NewName }
{
    kind_at(&PIPE, place.saturating_sub(1))
}

fn probe_field(place: usize) -> FieldKind
    ensures { result ≡ slice_index_or probe_fields (place - 1) FieldKind.NewName }
{
    kind_at(&PROBE, place.saturating_sub(1))
}

fn kind_at(kinds: &[FieldKind], place: usize) -> FieldKind
    ensures { result ≡ slice_index_or kinds.now place FieldKind.NewName }
{
    kinds.get(place).copied().unwrap_or(FieldKind::NewName)
}
