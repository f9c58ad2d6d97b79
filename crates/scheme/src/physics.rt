//! The hydraulics of a case as a law.
ghost use Rattle.std.specs.Prelude.{◌≡◌, ◌<◌, ◌≤◌, ℕ, false, length, IfSome};
ghost use Rattle.case_model.specs.Accepted.{IsAccepted};
ghost use Rattle.case_model.specs.Mesh.{reaches, ends_of};
ghost use Rattle.case_model.specs.Places.{is_bad, is_bad_state};
ghost use Rattle.junctions.specs.Sums.{most_arrivals};
ghost use Rattle.scheme.specs.Computable.{IsComputable};
ghost use Rattle.scheme.specs.Laws.{meaning_of};
ghost use Rattle.scheme.specs.LawRange.{meaning_of-good};
ghost use Rattle.scheme.specs.Starts.{start_point, start_node};
ghost use Rattle.scheme.specs.ReadProps.{IsComputable-prop, ArePrepared-prop};
ghost use Rattle.scheme.specs.Runs.{IsPreparedFor, ArePrepared};

use crate::interior::{At, inner_law, prepared_law};
use crate::node_laws::{NodeStep, node_law};
use crate::prepared::PreparedPipe;
use crate::{runs, starts};
use case_model::{Case, Law, Mesh, NodeState, Point, Spot};

/// The hydraulics of a case over its mesh.
#[derive(Clone, Copy)]
pub struct Physics<'a> {
    case: &'a Case,
    mesh: &'a Mesh,
    table: &'a [PreparedPipe],
    ghost fit: { IsComputable case.now mesh.now } by { IsComputable-prop case.now mesh.now },
    ghost prepared: { ArePrepared case.now mesh.now table.now } by { ArePrepared-prop case.now
        mesh.now table.now },
}

impl<'a> Physics<'a> {
    /// The law of a case over its mesh, whose start is Good everywhere. Takes no memory, and
    /// prepares each run anew.
    pub fn over(case: &'a Case, mesh: &'a Mesh) -> Physics<'a>
        requires accepted { IsAccepted case.now mesh.now }
        ensures meaning { ⟦<Physics<'a> as Law>⟧.meaning result ≡ meaning_of case.now mesh.now }
        ensures ends { (k : ℕ) → k < length mesh.now.ends →
            length (ends_of mesh.now k) ≤ most_arrivals }
        ensures fits { (⟦<Physics<'a> as Law>⟧.meaning result).mesh ≡ mesh.now }
        ensures good_places { (p i : ℕ) → p < length mesh.now.pipes → i ≤ reaches mesh.now p →
            is_bad (start_point case.now mesh.now p i) ≡ false }
        ensures good_nodes { (k : ℕ) → k < length mesh.now.ends →
            is_bad_state (start_node case.now mesh.now k) ≡ false }
    {
        Physics::with_table(case, mesh, &[])
    }

    /// The same with what runs of its pipes are computed with, as `prepare` makes it.
    pub fn with_table(case: &'a Case, mesh: &'a Mesh, table: &'a [PreparedPipe]) -> Physics<'a>
        requires accepted { IsAccepted case.now mesh.now }
        requires prepared { ArePrepared case.now mesh.now table.now }
        ensures meaning { ⟦<Physics<'a> as Law>⟧.meaning result ≡ meaning_of case.now mesh.now }
        ensures ends { (k : ℕ) → k < length mesh.now.ends →
            length (ends_of mesh.now k) ≤ most_arrivals }
        ensures fits { (⟦<Physics<'a> as Law>⟧.meaning result).mesh ≡ mesh.now }
        ensures good_places { (p i : ℕ) → p < length mesh.now.pipes → i ≤ reaches mesh.now p →
            is_bad (start_point case.now mesh.now p i) ≡ false }
        ensures good_nodes { (k : ℕ) → k < length mesh.now.ends →
            is_bad_state (start_node case.now mesh.now k) ≡ false }
    {
        Physics { case, mesh, table }
    }

    // What runs of a pipe are computed with, where the table has it.
    fn kept(&self, pipe: u32) -> Option<&'a PreparedPipe>
        ensures { IfSome result (λ prepared.
            IsPreparedFor self.now.case.now self.now.mesh.now pipe prepared.now) }
    {
        self.table.get(pipe as usize)
    }
}

impl<'a> Law for Physics<'a> {
    ghost meaning = { λ s. meaning_of s.case.now s.mesh.now };

    #[tactic(auto, unfolding(crate::specs::Laws::meaning_of))]
    fn inner(&self, pipe: u32, place: u32, left: &Point, own: &Point, right: &Point) -> Point {
        let at = At { pipe, place };
        match self.kept(pipe) {
            Some(PreparedPipe::Explicit(prepared)) => {
                prepared_law(self.case, self.mesh, at, prepared, left, own, right)
            }
            _ => inner_law(self.case, self.mesh, at, left, own, right),
        }
    }

    #[inline(always)]
    fn calm_run(&self, pipe: u32, first: u32, before: &[Spot], now: &mut [Spot]) -> usize {
        let at = At { pipe, place: first };
        match self.kept(pipe) {
            Some(prepared) => runs::calm_run(self.case, self.mesh, at, prepared, before, now),
            None => runs::unprepared_run(self.case, self.mesh, at, before, now),
        }
    }

    #[tactic(auto, unfolding(crate::specs::Laws::meaning_of))]
    fn node(
        &self,
        node: u32,
        step: u64,
        own: &NodeState,
        near: &[Point],
        ends: &mut [Point],
    ) -> NodeState {
        node_law(
            self.case,
            self.mesh,
            &NodeStep {
                node,
                step,
                table: self.table,
            },
            own,
            near,
            ends,
        )
    }

    #[tactic(auto, unfolding(crate::specs::Laws::meaning_of))]
    fn start_point(&self, pipe: u32, place: u32) -> Point {
        starts::start_point(self.case, self.mesh, pipe, place)
    }

    #[tactic(auto, unfolding(crate::specs::Laws::meaning_of))]
    fn start_node(&self, node: u32) -> NodeState {
        starts::start_node(self.case, self.mesh, node)
    }

    ghost in_range = { λ s. meaning_of-good s.case.now s.mesh.now };
}
