//! What division decides of each pipe: its reaches and coefficients, or the rule that it breaks.
ghost use Rattle.std.specs.Prelude.{◌≡◌, ◌≤◌, ◌<◌, ℤ, false, length, pos};
ghost use Rattle.std.specs.Prelude.{Err, IfOk, MatchOption, slice_index_or};
ghost use Rattle.case_model.specs.declared.cases.Pipe.{Pipe as PipeSeen};
ghost use Rattle.case_model.specs.Limits.{IsPipe, IsRead, IsWithin};
ghost use Rattle.case_model.specs.Sets.{FindsLeast, any_below};
ghost use Rattle.case_model.specs.Bounds.{LeastOrNone};
ghost use Rattle.case_model.specs.Division.{divides, has_coefficients};
ghost use Rattle.case_model.specs.Refusals.{breaks_pipe, pipe_rules};
ghost use Rattle.reaches.specs.Decided.{AreDecided, IsDecided, IsDivision, IsInReaches, IsJudged};

use crate::formulas::coefficients;
use crate::refusal::{Refusal, lesser, on};
use crate::tested::{are_coefficients, is_adjusted, is_count, reach_count};
use case_model::{Case, Pipe};
use std::alloc::{AllocError, Global};

/// A pipe in reaches.
#[derive(Clone, Copy, Debug)]
pub(crate) struct Division {
    /// The count of its reaches.
    pub(crate) reaches: u32,
    /// Its impedance, in 1e-6 s/m2.
    pub(crate) b: i64,
    /// The friction of one reach, in 1e-12 s2/m5.
    pub(crate) r: i128,
}

/// A case with what is decided of each of its pipes: its division, or the least rule that it breaks.
#[derive(Drop)]
pub(crate) struct Decided<'a> {
    pub(crate) case: &'a Case,
    pub(crate) pipes: &'a [Result<Division, u8>],
}

impl<'a> Decided<'a> {
    /// The division of pipe number `pipe`, where it can be divided.
    pub(crate) fn division(&self, pipe: u32) -> Option<Division>
        requires { AreDecided self.now.case.now self.now.pipes.now }
        ensures { MatchOption result
            (divides self.now.case.now pipe ≡ false)
            (IsDivision self.now.case.now pipe) }
    {
        match decision_at(self.pipes, pipe) {
            Ok(division) => Some(division),
            Err(_) => None,
        }
    }
}

// What is decided of pipe number `pipe`.
fn decision_at(decided: &[Result<Division, u8>], pipe: u32) -> Result<Division, u8>
    ensures { result ≡ slice_index_or decided.now pipe (Err 0) }
{
    match decided.get(pipe as usize) {
        Some(decision) => *decision,
        None => Err(0),
    }
}

/// What is decided of each pipe. Takes memory for it.
pub(crate) fn decide_pipes(
    alloc: Global,
    case: &Case,
) -> Result<Vec<Result<Division, u8>>, AllocError>
    requires { IsRead case.now }
    ensures { IfOk result (λ decided. AreDecided case.now decided.items) }
{
    let count = case.pipes.as_slice().len();
    let mut decided = Vec::with_capacity(alloc, count)?;
    for pipe in 0..count {
        decided.push(decide_pipe(case, pipe as u32))?;
    }
    Ok(decided)
}

// What is decided of one pipe.
fn decide_pipe(case: &Case, pipe: u32) -> Result<Division, u8>
    requires read { IsRead case.now }
    requires there { pipe < length case.now.pipes }
    ensures { IsDecided case.now pipe result }
{
    let pipe = &case.pipes.as_slice()[pipe as usize];
    decide(pipe, case.dt, case.tolerance)
}

// The division of a pipe, or the least rule that it breaks.
#[tactic(auto, unfolding(case_model::specs::Refusals::breaks_pipe))]
fn decide(pipe: &Pipe, dt: i64, tolerance: i64) -> Result<Division, u8>
    requires pipe { IsPipe pipe.now }
    requires dt { IsWithin (pos 1) (pos 1_000_000) dt }
    requires tolerance { IsWithin (pos 0) (pos 500) tolerance }
    ensures { IsJudged dt tolerance pipe.now result }
{
    if pipe.first == pipe.last {
        return Err(11);
    }
    let reaches = reach_count(pipe, dt);
    if !is_count(reaches) {
        return Err(12);
    }
    if !is_adjusted(pipe, dt, tolerance, reaches) {
        return Err(13);
    }
    match in_reaches(pipe, dt, reaches as u32) {
        Some(division) => Ok(division),
        None => Err(15),
    }
}

// A pipe in so many reaches, where its impedance and its friction are accepted.
fn in_reaches(pipe: &Pipe, dt: i64, reaches: u32) -> Option<Division>
    requires pipe { IsPipe pipe.now }
    requires dt { IsWithin (pos 1) (pos 1_000_000) dt }
    requires some { 2 ≤ reaches }
    requires few { reaches ≤ 65_536 }
    ensures { MatchOption result
        (has_coefficients dt reaches pipe.now ≡ false)
        (IsInReaches dt reaches pipe.now) }
{
    let (b, r) = coefficients(pipe, dt, reaches);
    if are_coefficients(b, r) {
        Some(Division { reaches, b, r })
    } else {
        None
    }
}

/// The least refusal of single pipes, if any.
pub(crate) fn pipes_refusal(decided: &Decided) -> Option<Refusal>
    requires read { IsRead decided.now.case.now }
    requires decided { AreDecided decided.now.case.now decided.now.pipes.now }
    ensures { LeastOrNone
        (any_below (pipe_rules decided.now.case.now) (length decided.now.case.now.pipes)) result }
{
    let mut least = None;
    for pipe in 0..decided.case.pipes.as_slice().len() {
        least = lesser(least, pipe_refusal(decided, pipe as u32));
    }
    least
}

// The refusal of one pipe, if any.
fn pipe_refusal(decided: &Decided, pipe: u32) -> Option<Refusal>
    requires decided { AreDecided decided.now.case.now decided.now.pipes.now }
    requires there { pipe < length decided.now.case.now.pipes }
    ensures { LeastOrNone (pipe_rules decided.now.case.now pipe) result }
{
    let line = decided.case.pipes.as_slice()[pipe as usize].line;
    on(line, broken_rule(&decision_at(decided.pipes, pipe)))
}

// The least rule that a pipe breaks, if any.
fn broken_rule(decided: &Result<Division, u8>) -> Option<u8>
    ensures { (dt tolerance : ℤ) (p : PipeSeen) → IsJudged dt tolerance p decided.now →
        FindsLeast (breaks_pipe dt tolerance p) result }
{
    match decided {
        Ok(_) => None,
        Err(number) => Some(*number),
    }
}
