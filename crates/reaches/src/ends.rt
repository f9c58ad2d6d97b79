//! The pipe ends at each node.
ghost use Rattle.std.specs.Prelude.{◌≡◌, [], ◌<◌, ◌≤◌, false, true, IfOk, length};
ghost use Rattle.std.specs.Prelude.{replicate};
ghost use Rattle.case_model.specs.Limits.{IsRead};
ghost use Rattle.case_model.specs.Division.{AreEnds};
ghost use Rattle.reaches.specs.Adding.{with_end, with_pipe};

use case_model::{Case, End, List, Pipe};
use std::alloc::{AllocError, Global};
use std::mem;

/// The pipe ends at each node, in file order of pipes. Takes memory for them.
pub(crate) fn all_ends(alloc: Global, case: &Case) -> Result<Vec<List<End>>, AllocError>
    requires { IsRead case.now }
    ensures { IfOk result (λ ends. AreEnds case.now ends.items) }
{
    let mut ends = no_ends(alloc, case.nodes.as_slice().len())?;
    for (pipe, line) in case.pipes.as_slice().iter().enumerate() {
        add_both(alloc, &mut ends, pipe as u32, line)?;
    }
    Ok(ends)
}

// So many nodes without ends.
fn no_ends(alloc: Global, nodes: usize) -> Result<Vec<List<End>>, AllocError>
    requires { nodes ≤ 4_096 }
    ensures { IfOk result (λ ends. ends.items ≡ replicate nodes []) }
{
    let mut ends = Vec::with_capacity(alloc, nodes)?;
    for _ in 0..nodes {
        ends.push(List::over(Vec::new(alloc)))?;
    }
    Ok(ends)
}

// Adds both ends of a pipe to those of its nodes.
#[tactic(auto, unfolding(crate::specs::Adding::with_pipe))]
fn add_both(
    alloc: Global,
    ends: &mut Vec<List<End>>,
    pipe: u32,
    line: &Pipe,
) -> Result<(), AllocError>
    requires first { line.now.first < length ends.old.items }
    requires last { line.now.last < length ends.old.items }
    ensures { IfOk result (λ _. ends.new.items ≡ with_pipe ends.old.items pipe line.now) }
{
    add_end(
        alloc,
        ends,
        line.first,
        End {
            pipe,
            at_last: false,
        },
    )?;
    add_end(
        alloc,
        ends,
        line.last,
        End {
            pipe,
            at_last: true,
        },
    )
}

// Adds an end to those of a node.
fn add_end(alloc: Global, ends: &mut Vec<List<End>>, node: u32, end: End) -> Result<(), AllocError>
    requires { node < length ends.old.items }
    ensures { IfOk result (λ _. ends.new.items ≡ with_end ends.old.items node end) }
{
    let own = mem::replace(&mut ends[node as usize], List::over(Vec::new(alloc)));
    let mut own = own.into_vec();
    own.push(end)?;
    ends[node as usize] = List::over(own);
    Ok(())
}
