//! The law of the inner places of a pipe, one by one.
ghost use Rattle.std.specs.Prelude.{◌≡◌, ◌<◌, ◌≤◌, true, false, length};
ghost use Rattle.case_model.specs.declared.cases.Friction.TheVariants.{
  Explicit as ExplicitFriction,
  Linear as LinearFriction,
};
ghost use Rattle.case_model.specs.Mesh.{reaches as reaches_of};
ghost use Rattle.case_model.specs.Range.{IsPoint};
ghost use Rattle.scheme.specs.Computable.{IsComputable};
ghost use Rattle.scheme.specs.Laws.{inner_law as law_of_place};
ghost use Rattle.scheme.specs.Runs.{IsOfPipe};

use crate::pipes::{impedance, resistance};
use crate::values::cavity_rule;
use crate::vapour::vapour_head;
use case_model::{Case, Friction, Mesh, Point};
use charline::{Prepared, explicit_point, linear_point};

/// A place of a pipe.
#[derive(Clone, Copy)]
pub(crate) struct At {
    /// The index of the pipe.
    pub(crate) pipe: u32,
    /// The place on it.
    pub(crate) place: u32,
}

/// The point of an inner place of a pipe one step later, of its neighbours and itself.
pub(crate) fn inner_law(
    case: &Case,
    mesh: &Mesh,
    at: At,
    left: &Point,
    own: &Point,
    right: &Point,
) -> Point
    requires fit { IsComputable case.now mesh.now }
    requires on_mesh { at.pipe < length mesh.now.pipes }
    requires on_pipe { at.place ≤ reaches_of mesh.now at.pipe }
    requires left_in { IsPoint left.now }
    requires own_in { IsPoint own.now }
    requires right_in { IsPoint right.now }
    ensures { result ≡ law_of_place case.now mesh.now at.pipe at.place left.now own.now right.now }
{
    match case.friction {
        Friction::Explicit => place_law::<false>(case, mesh, at, left, own, right),
        Friction::Linear => place_law::<true>(case, mesh, at, left, own, right),
    }
}

/// The same by what is prepared for the pipe, friction taken explicitly.
#[tactic(auto, unfolding(crate::specs::Laws::inner_law))]
pub(crate) fn prepared_law(
    case: &Case,
    mesh: &Mesh,
    at: At,
    prepared: &Prepared,
    left: &Point,
    own: &Point,
    right: &Point,
) -> Point
    requires fit { IsComputable case.now mesh.now }
    requires explicit { case.now.friction ≡ ExplicitFriction }
    requires prepared { let p = prepared.now in
        IsOfPipe case.now mesh.now at.pipe p.b p.r p.top }
    requires on_mesh { at.pipe < length mesh.now.pipes }
    requires on_pipe { at.place ≤ reaches_of mesh.now at.pipe }
    requires left_in { IsPoint left.now }
    requires own_in { IsPoint own.now }
    requires right_in { IsPoint right.now }
    ensures { result ≡ law_of_place case.now mesh.now at.pipe at.place left.now own.now right.now }
{
    let rule = cavity_rule(case, vapour_head(case, mesh, at.pipe, at.place));
    prepared.point(&rule, left, own, right)
}

/// The same where it is known whether friction is linear, as it is in the body of a loop.
pub(crate) fn place_law<const LINEAR: bool>(
    case: &Case,
    mesh: &Mesh,
    at: At,
    left: &Point,
    own: &Point,
    right: &Point,
) -> Point
    requires fit { IsComputable case.now mesh.now }
    requires explicit { LINEAR ≡ false → case.now.friction ≡ ExplicitFriction }
    requires linear { LINEAR ≡ true → case.now.friction ≡ LinearFriction }
    requires on_mesh { at.pipe < length mesh.now.pipes }
    requires on_pipe { at.place ≤ reaches_of mesh.now at.pipe }
    requires left_in { IsPoint left.now }
    requires own_in { IsPoint own.now }
    requires right_in { IsPoint right.now }
    ensures { result ≡ law_of_place case.now mesh.now at.pipe at.place left.now own.now right.now }
{
    let rule = cavity_rule(case, vapour_head(case, mesh, at.pipe, at.place));
    let b = impedance(mesh, at.pipe);
    let r = resistance(mesh, at.pipe);
    if LINEAR {
        linear_point(&rule, b, r, left, own, right)
    } else {
        explicit_point(&rule, b, r, left, own, right)
    }
}
