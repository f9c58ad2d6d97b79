//! What runs of the inner places of a pipe are computed with: worked out once a pipe.
ghost use Rattle.std.specs.Prelude.{◌≡◌, ◌<◌, length, IfOk, IfSome};
ghost use Rattle.case_model.specs.Accepted.{IsAccepted};
ghost use Rattle.case_model.specs.declared.cases.Case.{Case as CaseSeen};
ghost use Rattle.case_model.specs.declared.meshes.Mesh.{Mesh as MeshSeen};
ghost use Rattle.scheme.specs.Computable.{IsComputable};
ghost use Rattle.scheme.specs.Runs.{IsOfPipe, IsPreparedFor, ArePrepared};

use crate::pipes::{impedance, resistance};
use crate::vapour::highest_vapour_head;
use case_model::{Case, End, Friction, Mesh};
use charline::Prepared;
use fixed_num::Guess;
use std::alloc::{AllocError, Global};

/// What runs of inner places of a pipe are computed with.
#[derive(Clone, Copy, Debug)]
pub enum PreparedPipe {
    /// Friction is taken explicitly, in 64 bits.
    Explicit(Prepared),
    /// Friction is taken linearly.
    Linear,
    /// Friction is taken explicitly, and too great for 64 bits.
    Wide,
}

/// What runs of each pipe are computed with, in file order. AllocError: no memory for it.
pub fn prepare(alloc: Global, case: &Case, mesh: &Mesh) -> Result<Vec<PreparedPipe>, AllocError>
    requires accepted { IsAccepted case.now mesh.now }
    ensures table { IfOk result (λ table. ArePrepared case.now mesh.now table.items) }
    ensures each { IfOk result (λ table. length table.items ≡ length mesh.now.pipes) }
{
    prepare_all(alloc, case, mesh)
}

fn prepare_all(alloc: Global, case: &Case, mesh: &Mesh) -> Result<Vec<PreparedPipe>, AllocError>
    requires fit { IsComputable case.now mesh.now }
    ensures table { IfOk result (λ table. ArePrepared case.now mesh.now table.items) }
    ensures each { IfOk result (λ table. length table.items ≡ length mesh.now.pipes) }
{
    let mut table = Vec::new(alloc);
    for pipe in 0..mesh.pipes.as_slice().len() {
        table.push(prepare_pipe(case, mesh, pipe as u32))?;
    }
    for node in 0..mesh.ends.as_slice().len() {
        guess_node(mesh.ends.as_slice()[node].as_slice(), &mut table);
    }
    Ok(table)
}

// Writes for the first end of a node what quotients by the weights of its ends are guessed with.
fn guess_node(ends: &[End], table: &mut Vec<PreparedPipe>)
    ensures each { length table.new.items ≡ length table.old.items }
    ensures prepared { (case : CaseSeen) (mesh : MeshSeen) → ArePrepared case mesh table.old.items →
        ArePrepared case mesh table.new.items }
{
    let mut twice: u64 = 0;
    for end in ends {
        if let Some(PreparedPipe::Explicit(prepared)) = table.get(end.pipe as usize) {
            let weight = prepared.weight().unsigned_abs();
            twice = twice.saturating_add(weight).saturating_add(weight);
        }
    }
    if let Some(end) = ends.first() {
        guess_end(*end, Guess::of(twice), table);
    }
}

// Writes the guess of one end.
fn guess_end(end: End, guess: Guess, table: &mut Vec<PreparedPipe>)
    ensures each { length table.new.items ≡ length table.old.items }
    ensures prepared { (case : CaseSeen) (mesh : MeshSeen) → ArePrepared case mesh table.old.items →
        ArePrepared case mesh table.new.items }
{
    let pipe = end.pipe as usize;
    if pipe < table.len() {
        if let PreparedPipe::Explicit(prepared) = table[pipe] {
            table[pipe] = PreparedPipe::Explicit(prepared.guessing(end.at_last, guess));
        }
    }
}

/// What runs of one pipe are computed with.
pub(crate) fn prepare_pipe(case: &Case, mesh: &Mesh, pipe: u32) -> PreparedPipe
    requires fit { IsComputable case.now mesh.now }
    requires on_mesh { pipe < length mesh.now.pipes }
    ensures { IsPreparedFor case.now mesh.now pipe result }
{
    match case.friction {
        Friction::Explicit => match in_64_bits(case, mesh, pipe) {
            Some(prepared) => PreparedPipe::Explicit(prepared),
            None => PreparedPipe::Wide,
        },
        Friction::Linear => PreparedPipe::Linear,
    }
}

// Explicit friction's, if friction is not too great for 64 bits.
fn in_64_bits(case: &Case, mesh: &Mesh, pipe: u32) -> Option<Prepared>
    requires fit { IsComputable case.now mesh.now }
    requires on_mesh { pipe < length mesh.now.pipes }
    ensures { IfSome result (λ p. IsOfPipe case.now mesh.now pipe p.b p.r p.top) }
{
    let b = impedance(mesh, pipe);
    let r = resistance(mesh, pipe);
    if r > 7_000_000_000_000_000_000 {
        return None;
    }
    let top = highest_vapour_head(case, mesh, pipe);
    Some(Prepared::of(b as u64, r as u64, top))
}
