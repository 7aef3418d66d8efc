// A printer's plan: how its layers come and when each is due. Its limits, the time since a release, the next release and
// the deadline, what it wants in a stretch of ticks; and Euclid's rule, under the round's common multiple.
// It must not know what a piece still owes, nor how the clock moves.
#![tactic(auto)]

use ticks::{Instant, Length};

pub mod euclid;

ghost use Rattle.std.specs.Prelude.{◌≡◌, ◌+◌, ◌*◌, ◌≤◌, ◌<◌, ◌^◌};
ghost use Rattle.ticks.specs.Ticks.{most_feed, most_round, most_charge, instant, ticks};
ghost use Rattle.plans.specs.Plans.{most_piece, no_plan, plan_in, unused_plan, PlanIn, to_the_next, since, next, due, charged, stretch};

// A piece of `work` ticks comes every `period` ticks, at the instants that leave the remainder `offset`, and is due `lead` ticks
// after it came.
#[repr(C)]
#[derive(Clone, Copy, PartialEq, Eq)]
pub struct Plan {
    pub period: Length,
    pub work: Length,
    pub offset: Length,
    pub lead: Length,
}

impl Plan {
    // The plan of a place that no feed has.
    pub const NONE: Plan = Plan {
        period: Length::NONE,
        work: Length::NONE,
        offset: Length::NONE,
        lead: Length::NONE,
    };

    pub fn none() -> Plan
        ensures { result ≡ no_plan }
    {
        Plan::NONE
    }

    // Line 2 for one plan.
    #[tactic(auto, unfolding(crate::specs::Plans::plan_in, lists::specs::Lists::all_of))]
    pub fn within(self) -> bool
        ensures { result ≡ plan_in self }
    {
        self.period.suits_feed()
            && self.work.suits_feed()
            && self.offset < self.period
            && self.lead.from_one(self.period)
    }

    #[tactic(auto, unfolding(crate::specs::Plans::unused_plan, lists::specs::Lists::all_of))]
    pub fn is_none(self) -> bool
        ensures { result ≡ unused_plan self }
    {
        self == Plan::NONE
    }

    // How long ago the current piece came: no ticks at a release.
    #[tactic(auto, unfolding(crate::specs::Plans::since))]
    pub fn since(self, at: Instant) -> Length
        requires { PlanIn self × (at.0 < 2 ^ 63) }
        ensures { result ≡ ticks (since self at.0) }
    {
        at.plus(self.period.less(self.offset))
            .remainder(self.period)
    }

    // When the next piece comes.
    #[tactic(auto, using(crate::proofs::Plans::since_lt), unfolding(crate::specs::Plans::next))]
    pub fn next(self, clock: Instant) -> Instant
        requires { PlanIn self × (clock.0 < 2 ^ 63) }
        ensures { result ≡ instant (next self clock.0) }
    {
        clock.plus(self.period.less(self.since(clock)))
    }

    // When the current piece is due, or was.
    #[tactic(auto, unfolding(crate::specs::Plans::due))]
    pub fn due(self, clock: Instant) -> Instant
        requires { PlanIn self × (clock.0 < 2 ^ 63) }
        ensures { result ≡ instant (due self clock.0) }
    {
        clock.plus(self.lead).back(self.since(clock))
    }

    // What a piece owes when it comes: its work and the charge.
    pub fn charged(self, charge: Length) -> Length
        requires { (self.work.0 ≤ most_feed) × (charge.0 ≤ most_charge) }
        ensures { result ≡ ticks (charged charge self) }
    {
        self.work.and(charge)
    }

    // Whether a piece is due when the next one comes.
    pub fn to_the_next(self) -> bool
        ensures { result ≡ to_the_next self }
    {
        self.lead == self.period
    }

    // The most that the pieces that come and are due within so many ticks can want together.
    pub fn stretch(self, charge: Length, ticks: Length) -> u64
        requires { PlanIn self × (charge.0 ≤ most_charge) × (ticks.0 ≤ most_round) }
        ensures { (result ≡ stretch charge ticks.0 self) × (result ≤ most_piece * (most_round + most_feed)) }
    {
        let ahead = ticks.and(self.period.less(self.lead));
        self.charged(charge).0 * (ahead.0 / self.period.0)
    }
}
