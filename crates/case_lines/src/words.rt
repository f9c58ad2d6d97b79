//! The words with which lines begin, the directives of each version, and the words on friction.
ghost use Rattle.std.specs.Prelude.{◌≡◌};
ghost use Rattle.case_lines.specs.Words.{single_of, table_of, node_of, other_of, directive_of};
ghost use Rattle.case_lines.specs.Words.{has_single, has_directive, directive_in, friction_of};

use case_model::{Friction, TableKind};

/// A directive that may stand once.
#[derive(Clone, Copy, Debug, PartialEq, Eq)]
pub enum Single {
    /// The time step.
    Step,
    /// The count of steps.
    Steps,
    /// The vapour head.
    Vapour,
    /// The weight of the new growth of a cavity.
    Weight,
    /// The tolerance on wave speeds.
    Tolerance,
    /// The count of steps from sample to sample.
    Every,
    /// How friction is taken.
    FrictionForm,
}

/// The kind of node that a line defines.
#[derive(Clone, Copy, Debug, PartialEq, Eq)]
pub enum NodeWord {
    /// A head that is given over time.
    Reservoir,
    /// A junction of pipes with a demand.
    Junction,
    /// A valve that discharges from the end of a pipe.
    Discharge,
    /// A valve between two pipes.
    Inline,
    /// A pump between two pipes.
    Pump,
    /// An open surge tank.
    Tank,
    /// A closed air vessel.
    Vessel,
}

/// What a line says, by its first field.
#[derive(Clone, Copy, Debug, PartialEq, Eq)]
pub enum Directive {
    /// A setting of the whole case.
    OfSingle(Single),
    /// A table of pairs.
    OfTable(TableKind),
    /// A node.
    OfNode(NodeWord),
    /// A pipe.
    OfPipe,
    /// A place of a pipe whose history is reported.
    OfProbe,
    /// A node whose history is reported.
    OfWatch,
}

/// The directive of a word, or `None` where it is no word of the case text in any version.
#[tactic(auto, unfolding(crate::specs::Words::directive_of))]
pub fn directive_of(word: &[u8]) -> Option<Directive>
    ensures { result ≡ directive_of word.now }
{
    if let Some(single) = single_of(word) {
        return Some(Directive::OfSingle(single));
    }
    if let Some(kind) = table_of(word) {
        return Some(Directive::OfTable(kind));
    }
    if let Some(node) = node_of(word) {
        return Some(Directive::OfNode(node));
    }
    other_of(word)
}

#[tactic(auto, unfolding(crate::specs::Words::single_of))]
fn single_of(word: &[u8]) -> Option<Single>
    ensures { result ≡ single_of word.now }
{
    if word == b"step".as_slice() {
        Some(Single::Step)
    } else if word == b"steps".as_slice() {
        Some(Single::Steps)
    } else if word == b"vapour".as_slice() {
        Some(Single::Vapour)
    } else if word == b"weight".as_slice() {
        Some(Single::Weight)
    } else if word == b"tolerance".as_slice() {
        Some(Single::Tolerance)
    } else if word == b"every".as_slice() {
        Some(Single::Every)
    } else if word == b"friction".as_slice() {
        Some(Single::FrictionForm)
    } else {
        None
    }
}

#[tactic(auto, unfolding(crate::specs::Words::table_of))]
fn table_of(word: &[u8]) -> Option<TableKind>
    ensures { result ≡ table_of word.now }
{
    if word == b"heads".as_slice() {
        Some(TableKind::Heads)
    } else if word == b"flows".as_slice() {
        Some(TableKind::Flows)
    } else if word == b"openings".as_slice() {
        Some(TableKind::Openings)
    } else if word == b"speeds".as_slice() {
        Some(TableKind::Speeds)
    } else if word == b"curve".as_slice() {
        Some(TableKind::Curve)
    } else if word == b"gas".as_slice() {
        Some(TableKind::Gas)
    } else {
        None
    }
}

#[tactic(auto, unfolding(crate::specs::Words::node_of))]
fn node_of(word: &[u8]) -> Option<NodeWord>
    ensures { result ≡ node_of word.now }
{
    if word == b"reservoir".as_slice() {
        Some(NodeWord::Reservoir)
    } else if word == b"junction".as_slice() {
        Some(NodeWord::Junction)
    } else if word == b"discharge".as_slice() {
        Some(NodeWord::Discharge)
    } else if word == b"inline".as_slice() {
        Some(NodeWord::Inline)
    } else if word == b"pump".as_slice() {
        Some(NodeWord::Pump)
    } else if word == b"tank".as_slice() {
        Some(NodeWord::Tank)
    } else if word == b"vessel".as_slice() {
        Some(NodeWord::Vessel)
    } else {
        None
    }
}

fn other_of(word: &[u8]) -> Option<Directive>
    ensures { result ≡ other_of word.now }
{
    if word == b"pipe".as_slice() {
        Some(Directive::OfPipe)
    } else if word == b"probe".as_slice() {
        Some(Directive::OfProbe)
    } else if word == b"watch".as_slice() {
        Some(Directive::OfWatch)
    } else {
        None
    }
}

/// A directive, where a version of the case text has it: version 1 has none on friction.
pub fn directive_in(version: u8, directive: Option<Directive>) -> Option<Directive>
    ensures { result ≡ directive_in version directive }
{
    match directive {
        Some(directive) => {
            if has_directive(version, directive) {
                Some(directive)
            } else {
                None
            }
        }
        None => None,
    }
}

fn has_directive(version: u8, directive: Directive) -> bool
    ensures { result ≡ has_directive version directive }
{
    match directive {
        Directive::OfSingle(single) => has_single(version, single),
        _ => true,
    }
}

fn has_single(version: u8, single: Single) -> bool
    ensures { result ≡ has_single version single }
{
    match single {
        Single::FrictionForm => version != 1,
        _ => true,
    }
}

/// How friction is taken, by its word; `None` where it is no such word.
#[tactic(auto, unfolding(crate::specs::Words::friction_of))]
pub fn friction_of(word: &[u8]) -> Option<Friction>
    ensures { result ≡ friction_of word.now }
{
    if word == b"explicit".as_slice() {
        Some(Friction::Explicit)
    } else if word == b"linear".as_slice() {
        Some(Friction::Linear)
    } else {
        None
    }
}
