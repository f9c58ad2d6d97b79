//! What the mesh keeps of a pipe: its reaches and coefficients.
ghost use Rattle.std.specs.Prelude.{◌≡◌, ◌<◌, length};
ghost use Rattle.case_model.specs.Mesh.{reaches as reaches_of};
ghost use Rattle.charline.specs.Characteristics.{IsImpedance, IsResistance};
ghost use Rattle.scheme.specs.Arrivals.{HasCoefficients};
ghost use Rattle.scheme.specs.Arrivals.{impedance as impedance_of, resistance as resistance_of};

use case_model::Mesh;

/// The count of reaches of a pipe of the mesh.
pub(crate) fn reaches(mesh: &Mesh, pipe: u32) -> u32
    requires { pipe < length mesh.now.pipes }
    ensures { result ≡ reaches_of mesh.now pipe }
{
    mesh.pipes.as_slice()[pipe as usize].reaches
}

/// The impedance of a pipe of the mesh, in 1e-6 s/m2.
pub(crate) fn impedance(mesh: &Mesh, pipe: u32) -> i64
    requires coefficients { HasCoefficients mesh.now }
    requires on_mesh { pipe < length mesh.now.pipes }
    ensures value { result ≡ impedance_of mesh.now pipe }
    ensures limits { IsImpedance result }
{
    mesh.pipes.as_slice()[pipe as usize].b
}

/// The friction of one reach of a pipe of the mesh, in 1e-12 s2/m5.
pub(crate) fn resistance(mesh: &Mesh, pipe: u32) -> i128
    requires coefficients { HasCoefficients mesh.now }
    requires on_mesh { pipe < length mesh.now.pipes }
    ensures value { result ≡ resistance_of mesh.now pipe }
    ensures limits { IsResistance result }
{
    mesh.pipes.as_slice()[pipe as usize].r
}
