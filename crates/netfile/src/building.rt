//! The case that a text says.
ghost use Rattle.std.specs.Prelude.{◌≡◌, ◌≤◌, ℕ, ℤ, pos, neg_ℤ, codes, IfOk, length};
ghost use Rattle.std.specs.List.{AllByRecursion};
ghost use Rattle.case_lines.specs.Texts.{lines_of};
ghost use Rattle.case_model.specs.Sets.{IsEmpty};
ghost use Rattle.case_rules.specs.Counts.{count_rules};
ghost use Rattle.case_rules.specs.Tallies.{IsTally};
ghost use Rattle.netfile.specs.Named.{IsNamed, IsPlaced};
ghost use Rattle.netfile.specs.Parts.{ArePartsOf};
ghost use Rattle.netfile.specs.Built.{case_of as case_said};

use crate::nodes::node_said;
use crate::pipes::pipe_said;
use crate::probes::probe_said;
use crate::singles::{friction_from, single_amount};
use crate::tables::{add, table_said};
use case_lines::{Quantity, Single, next_line};
use case_model::{Case, List, Node, Pipe, Probe, Table};
use case_rules::Tally;
use std::alloc::{AllocError, Global};

/// The case that a text says, by the tally of its lines. Fails only for want of memory.
#[tactic(auto, unfolding(crate::specs::Built::case_of))]
pub(crate) fn case_of(alloc: Global, bytes: &[u8], tally: &Tally) -> Result<Case, AllocError>
    requires short { length bytes.now ≤ 8_388_608 }
    requires tally { IsTally tally.now (lines_of bytes.now) }
    requires counts { IsEmpty (count_rules (lines_of bytes.now)) }
    requires named { AllByRecursion IsNamed (lines_of bytes.now) }
    requires placed { AllByRecursion IsPlaced (lines_of bytes.now) }
    ensures { IfOk result (λ case. case ≡ case_said (lines_of bytes.now)) }
{
    let dt = single_amount(tally, Single::Step, Quantity::TimeStep, 0);
    let steps = single_amount(tally, Single::Steps, Quantity::StepCount, 0);
    let vapour = single_amount(tally, Single::Vapour, Quantity::VapourHead, -10_100_000);
    let weight = single_amount(tally, Single::Weight, Quantity::GrowthWeight, 10);
    let tolerance = single_amount(tally, Single::Tolerance, Quantity::SpeedTolerance, 150);
    let every = single_amount(tally, Single::Every, Quantity::SampleStep, 1);
    let parts = parts_of(alloc, bytes, tally)?;
    Ok(Case {
        version: tally.version,
        dt,
        steps: steps.unsigned_abs(),
        vapour,
        weight,
        tolerance,
        every: every.unsigned_abs(),
        friction: friction_from(tally),
        tables: List::over(parts.tables),
        nodes: List::over(parts.nodes),
        pipes: List::over(parts.pipes),
        probes: List::over(parts.probes),
    })
}

/// The parts of a case, in file order.
#[derive(Drop)]
pub(crate) struct Parts {
    pub(crate) tables: Vec<Table>,
    pub(crate) nodes: Vec<Node>,
    pub(crate) pipes: Vec<Pipe>,
    pub(crate) probes: Vec<Probe>,
}

// The parts that the lines of a text say. Fails only for want of memory.
fn parts_of(alloc: Global, bytes: &[u8], tally: &Tally) -> Result<Parts, AllocError>
    requires short { length bytes.now ≤ 8_388_608 }
    requires tally { IsTally tally.now (lines_of bytes.now) }
    requires counts { IsEmpty (count_rules (lines_of bytes.now)) }
    requires named { AllByRecursion IsNamed (lines_of bytes.now) }
    requires placed { AllByRecursion IsPlaced (lines_of bytes.now) }
    ensures { IfOk result (λ parts. ArePartsOf parts (lines_of bytes.now)) }
{
    let mut tables = Vec::new(alloc);
    let mut nodes = Vec::new(alloc);
    let mut pipes = Vec::new(alloc);
    let mut probes = Vec::new(alloc);
    let mut number = 0u32;
    let mut rest = bytes;
    'lines: while let Some((line, others)) = next_line(alloc, rest)? {
        number += 1;
        add(&mut tables, table_said(alloc, number, &line)?)?;
        add(&mut nodes, node_said(&tally.tables.indices, number, &line))?;
        add(&mut pipes, pipe_said(&tally.nodes.indices, number, &line))?;
        add(
            &mut probes,
            probe_said(&tally.pipes.indices, &tally.nodes.indices, number, &line),
        )?;
        rest = others;
    }
    Ok(Parts {
        tables,
        nodes,
        pipes,
        probes,
    })
}
