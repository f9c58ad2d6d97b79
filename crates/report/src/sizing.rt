//! How large an accepted case is, and where its probes stand.
ghost use Rattle.std.specs.List.{All};
ghost use Rattle.case_model.specs.Accepted.{IsAccepted};
ghost use Rattle.case_model.specs.PlaceNumbers.{IsOn};
ghost use Rattle.report.specs.Reportable.{IsSized};
ghost use Rattle.report.specs.Sizes.{IsSmall};

use case_model::{Case, Mesh, accepted_cases_are_kept};

/// How large an accepted case is at most, and that its probes are on its mesh.
pub fn sizes(case: &Case, mesh: &Mesh)
    requires { IsAccepted case.now mesh.now }
    ensures small { IsSmall case.now mesh.now }
    ensures sized { IsSized case.now mesh.now }
    ensures probes { All (λ probe. IsOn mesh.now probe.at) case.now.probes }
{
    let _ = case;
    let _ = mesh;
    accepted_cases_are_kept();
}
