//! A place of a pipe, with a cavity or without, by what is prepared for the pipe.
ghost use Rattle.std.specs.Prelude.{◌≡◌, ◌≤◌, pos, unsigned_abs};
ghost use Rattle.case_model.specs.declared.cases.Friction.TheVariants.{
  Explicit as ExplicitFriction,
};
ghost use Rattle.case_model.specs.Range.{IsPoint};
ghost use Rattle.charline.specs.Cavity.{IsRule, cavity_volume as volume_of};
ghost use Rattle.charline.specs.Characteristics.{IsArrival, driven_flow as driven_flow_of};
ghost use Rattle.charline.specs.Interior.{
  inner_point as inner_of,
  meet as met_of,
  kept_or_closed as cavity_at,
  flow_before as before_of,
  flow_after as after_of,
  growth as growth_of,
  meeting_head as head_of,
};

use crate::Prepared;
use crate::interior::{Old, explicit_point, halfway, held, liquid, meeting_flow, old_cavity};
use crate::quotients::driven_flow;
use case_model::{Arrival, CavityRule, Point};

impl Prepared {
    /// `inner_point` of a place of the pipe, friction taken explicitly.
    #[tactic(auto, unfolding(crate::specs::Interior::inner_point))]
    pub fn point(&self, rule: &CavityRule, left: &Point, own: &Point, right: &Point) -> Point
        requires rule { IsRule rule.now }
        requires left_in { IsPoint left.now }
        requires own_in { IsPoint own.now }
        requires right_in { IsPoint right.now }
        ensures { let p = self.now in result ≡ inner_of ExplicitFriction rule.now
            (pos p.b) (pos p.r) left.now own.now right.now }
    {
        match own {
            Point::Good { qu, qd, v, .. } => match (self.plus_from(left), self.minus_from(right)) {
                (Some(plus), Some(minus)) => {
                    self.meet(rule, &plus, &minus, &old_cavity(*qu, *qd, *v))
                }
                _ => explicit_point(rule, self.b as i64, self.r as i128, left, own, right),
            },
            Point::Bad => Point::Bad,
        }
    }

    // Where both characteristics meet, in range.
    #[tactic(auto, unfolding(crate::specs::Interior::meet))]
    fn meet(&self, rule: &CavityRule, plus: &Arrival, minus: &Arrival, old: &Old) -> Point
        requires rule { IsRule rule.now }
        requires plus_in { IsArrival plus.now }
        requires minus_in { IsArrival minus.now }
        requires plus_impeded { plus.now.b ≡ pos self.now.b }
        requires minus_impeded { minus.now.b ≡ pos self.now.b }
        ensures { result ≡ met_of rule.now plus.now minus.now old.now.volume old.now.growth }
    {
        let head = halfway(plus, minus);
        if old.volume == 0 && head >= rule.hv {
            return liquid(head, meeting_flow(plus, minus));
        }
        self.with_cavity(rule, plus, minus, head, old)
    }

    fn with_cavity(
        &self,
        rule: &CavityRule,
        plus: &Arrival,
        minus: &Arrival,
        head: i64,
        old: &Old,
    ) -> Point
        requires rule { IsRule rule.now }
        requires plus_in { IsArrival plus.now }
        requires minus_in { IsArrival minus.now }
        requires plus_impeded { plus.now.b ≡ pos self.now.b }
        requires minus_impeded { minus.now.b ≡ pos self.now.b }
        requires head { head ≡ head_of plus.now minus.now }
        ensures { result ≡ cavity_at rule.now plus.now minus.now
            (volume_of rule.now old.now.volume old.now.growth
            (growth_of (before_of rule.now.hv plus.now) (after_of rule.now.hv minus.now))) }
    {
        let before = self.flow_before(rule.hv, plus);
        let after = self.flow_after(rule.hv, minus);
        held(rule, plus, minus, head, old, before, after)
    }

    fn flow_before(&self, hv: i64, plus: &Arrival) -> i64
        requires head_in { unsigned_abs hv ≤ 100_000_000_000 }
        requires plus_in { IsArrival plus.now }
        requires impeded { plus.now.b ≡ pos self.now.b }
        ensures value { result ≡ before_of hv plus.now }
        ensures size { unsigned_abs result ≤ 200_000_000_000_000_000 }
    {
        self.flow_through(plus.c - hv)
    }

    fn flow_after(&self, hv: i64, minus: &Arrival) -> i64
        requires head_in { unsigned_abs hv ≤ 100_000_000_000 }
        requires minus_in { IsArrival minus.now }
        requires impeded { minus.now.b ≡ pos self.now.b }
        ensures value { result ≡ after_of hv minus.now }
        ensures size { unsigned_abs result ≤ 200_000_000_000_000_000 }
    {
        self.flow_through(hv - minus.c)
    }

    // The flow that a difference of heads drives through the impedance.
    fn flow_through(&self, difference: i64) -> i64
        requires { unsigned_abs difference ≤ 20_000_000_000_000 }
        ensures value { result ≡ driven_flow_of difference (pos self.now.b) }
        ensures size { unsigned_abs result ≤ 200_000_000_000_000_000 }
    {
        match self.single_flow(difference) {
            Some(flow) => flow,
            None => driven_flow(difference, self.b as i64),
        }
    }
}
