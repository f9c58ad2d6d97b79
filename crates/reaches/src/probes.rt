//! The rule of division that a probe breaks by itself.
ghost use Rattle.std.specs.Prelude.{◌≡◌, ◌<◌, length, ◌==◌, ◌&&◌};
ghost use Rattle.case_model.specs.Limits.{IsRead};
ghost use Rattle.case_model.specs.Sets.{FindsLeast, any_below};
ghost use Rattle.case_model.specs.Bounds.{LeastOrNone};
ghost use Rattle.case_model.specs.Refusals.{probe_rules, is_off as is_off_of};
ghost use Rattle.reaches.specs.Decided.{AreDecided};

use crate::pipes::Decided;
use crate::refusal::{Refusal, lesser, on};
use case_model::ProbeAt;

/// The least refusal of single probes, if any.
pub(crate) fn probes_refusal(decided: &Decided) -> Option<Refusal>
    requires read { IsRead decided.now.case.now }
    requires decided { AreDecided decided.now.case.now decided.now.pipes.now }
    ensures { LeastOrNone
        (any_below (probe_rules decided.now.case.now) (length decided.now.case.now.probes)) result }
{
    let mut least = None;
    for probe in 0..decided.case.probes.as_slice().len() {
        least = lesser(least, probe_refusal(decided, probe as u32));
    }
    least
}

// The refusal of one probe, if any.
fn probe_refusal(decided: &Decided, probe: u32) -> Option<Refusal>
    requires decided { AreDecided decided.now.case.now decided.now.pipes.now }
    requires there { probe < length decided.now.case.now.probes }
    ensures { LeastOrNone (probe_rules decided.now.case.now probe) result }
{
    let probe = &decided.case.probes.as_slice()[probe as usize];
    on(probe.line, judge(decided, &probe.at))
}

// The rule that a probe breaks, if any.
fn judge(decided: &Decided, at: &ProbeAt) -> Option<u8>
    requires { AreDecided decided.now.case.now decided.now.pipes.now }
    ensures { FindsLeast
        (λ number. (number == 16) && is_off_of decided.now.case.now at.now) result }
{
    if is_off(decided, at) { Some(16) } else { None }
}

#[tactic(auto, unfolding(case_model::specs::Refusals::is_off))]
fn is_off(decided: &Decided, at: &ProbeAt) -> bool
    requires { AreDecided decided.now.case.now decided.now.pipes.now }
    ensures { result ≡ is_off_of decided.now.case.now at.now }
{
    match at {
        ProbeAt::OnPipe { pipe, place } => {
            match decided.division(*pipe) {
                Some(division) => division.reaches < *place,
                None => false,
            }
        }
        ProbeAt::OnNode { .. } => false,
    }
}
