//! What the first walk over a text collects of its lines: names, single directives and counts.
ghost use Rattle.std.specs.Prelude.{◌≡◌, ◌≤◌, [], Bool, Option, IfOk, length, ℕ, List as Items};
ghost use Rattle.case_lines.specs.declared.words.Directive.{Directive};
ghost use Rattle.case_lines.specs.Texts.{lines_of};
ghost use Rattle.case_rules.specs.Said.{version_of, directive_said as said_by};
ghost use Rattle.case_rules.specs.Known.{seen, text_told, single_from};
ghost use Rattle.case_rules.specs.Tallies.{IsFew, IsTally, IsKindAdded, IsNameAdded, IsPartAdded};
ghost use Rattle.case_rules.specs.Tallies.{IsAdded};

use crate::counting::MOST_PARTS;
use crate::parts::{Part, directive_said, is_named, named_by};
use crate::singles::{Given, add_single, single_text};
use crate::sorts::{is_node, is_pipe, is_sampled, is_table};
use case_lines::{Line, Single, heading_version, next_line};
use std::alloc::{AllocError, Global};
use std::collections::{HashMap, HashSet};

/// The parts of one sort, as the nodes: how many there are, and the index of each by its name.
#[derive(Drop)]
pub struct SortTally<'a> {
    pub(crate) count: u32,
    /// That of the first of each name; all are there where a case may have so many parts.
    pub indices: HashMap<&'a [u8], u32>,
}

/// What all lines of a text define, and how many parts of each sort they have.
#[derive(Drop)]
pub struct Tally<'a> {
    /// The version of the case text, which its first line decides.
    pub version: u8,
    /// How many lines there are.
    pub(crate) lines: u32,
    /// The names, with the kind of each.
    pub(crate) kinds: HashSet<(Part, &'a [u8])>,
    /// How many lines stand before the first that defines a name.
    pub(crate) names: HashMap<&'a [u8], u32>,
    /// The tables.
    pub tables: SortTally<'a>,
    /// The nodes.
    pub nodes: SortTally<'a>,
    /// The pipes.
    pub pipes: SortTally<'a>,
    /// How many probes and watches there are.
    pub(crate) probes: u32,
    /// What the single directives give.
    pub(crate) singles: Vec<Given<'a>>,
}

impl<'a> Tally<'a> {
    /// The field that the first line of a single directive gives; `None` where there is none.
    pub fn text(&self, single: Single) -> Option<&'a [u8]>
        ensures { (lines : Items (Items (Items ℕ))) → IsTally self.now lines →
            seen result ≡ text_told (single_from single 0 lines) }
    {
        single_text(&self.singles, single)
    }
}

/// The tally of the lines of a text. Fails only for want of memory.
pub fn tally_lines<'a>(alloc: Global, bytes: &'a [u8]) -> Result<Tally<'a>, AllocError>
    requires { length bytes.now ≤ 8_388_608 }
    ensures { IfOk result (λ tally. IsTally tally (lines_of bytes.now)) }
{
    let mut tally = Tally {
        version: text_version(alloc, bytes)?,
        lines: 0,
        kinds: HashSet::new(alloc),
        names: HashMap::new(alloc),
        tables: no_parts(alloc),
        nodes: no_parts(alloc),
        pipes: no_parts(alloc),
        probes: 0,
        singles: Vec::new(alloc),
    };
    let mut rest = bytes;
    'lines: while let Some((line, others)) = next_line(alloc, rest)? {
        add_line(&mut tally, &line)?;
        rest = others;
    }
    Ok(tally)
}

fn no_parts<'a>(alloc: Global) -> SortTally<'a>
    ensures { (result.count ≡ 0) × (result.indices.entries ≡ []) }
{
    let indices = HashMap::new(alloc);
    SortTally { count: 0, indices }
}

// The version of the case text that the first line of a text decides.
fn text_version(alloc: Global, bytes: &[u8]) -> Result<u8, AllocError>
    ensures { IfOk result (λ version. version ≡ version_of (lines_of bytes.now)) }
{
    match next_line(alloc, bytes)? {
        Some((line, _)) => Ok(heading_version(line.fields())),
        None => Ok(heading_version(&[])),
    }
}

// One more line.
fn add_line<'a>(tally: &mut Tally<'a>, line: &Line<'a>) -> Result<(), AllocError>
    requires { IsFew 8_388_608 tally.old }
    ensures { IfOk result (λ u. IsAdded tally.old tally.new line.now) }
{
    let directive = directive_said(line);
    let before = tally.lines;
    tally.lines += 1;
    let Some(_) = directive else {
        return Ok(());
    };
    add_kind(&mut tally.kinds, line)?;
    add_name(&mut tally.names, is_named(directive), before, line)?;
    add_part(&mut tally.tables, is_table(directive), line)?;
    add_part(&mut tally.nodes, is_node(directive), line)?;
    add_part(&mut tally.pipes, is_pipe(directive), line)?;
    tally.probes += u32::from(is_sampled(directive));
    add_single(&mut tally.singles, before, line)?;
    Ok(())
}

// Counts a line with such a directive; its name gets an index, where a case may have so many parts.
fn add_part<'a>(sort: &mut SortTally<'a>, is_such: bool, line: &Line<'a>) -> Result<(), AllocError>
    requires { sort.old.count ≤ 8_388_608 }
    ensures { IfOk result (λ u. (is_sort : Option Directive → Bool) →
        is_such ≡ is_sort (said_by line.now) →
        IsPartAdded sort.old sort.new is_sort line.now) }
{
    let index = sort.count;
    sort.count += u32::from(is_such);
    let is_indexed = is_such & (index < MOST_PARTS);
    add_name(&mut sort.indices, is_indexed, index, line)?;
    Ok(())
}

// Adds the name that a line defines, if any, with its kind.
#[tactic(auto, unfolding(crate::specs::Said::defines_part))]
fn add_kind<'a>(kinds: &mut HashSet<(Part, &'a [u8])>, line: &Line<'a>) -> Result<(), AllocError>
    ensures { IfOk result (λ u. IsKindAdded kinds.old kinds.new line.now) }
{
    if let Some(part) = named_by(directive_said(line)) {
        if line.count() > 1 {
            kinds.insert((part, line.field(1)))?;
        }
    }
    Ok(())
}

// Gives the name of a line with such a directive an index, where it has none yet.
#[tactic(auto, unfolding(crate::specs::Known::names_such))]
fn add_name<'a>(
    indices: &mut HashMap<&'a [u8], u32>,
    is_such: bool,
    index: u32,
    line: &Line<'a>,
) -> Result<(), AllocError>
    ensures { IfOk result (λ u. (is_sort : Option Directive → Bool) →
        is_such ≡ is_sort (said_by line.now) →
        IsNameAdded indices.old indices.new is_sort index line.now) }
{
    if is_such && line.count() > 1 {
        let name = line.field(1);
        if !indices.contains_key(&name) {
            indices.insert(name, index)?;
        }
    }
    Ok(())
}
