// Time in whole ticks: the instant and the length, each with its limits, named here and nowhere else, and the few sums and
// differences that are allowed between them. It must not know feeds, jobs or refusals.
#![tactic(auto)]

ghost use Rattle.std.specs.Prelude.{◌≡◌, ◌+◌, ◌≤◌, ◌<◌, ◌^◌, leb};
ghost use Rattle.ticks.specs.Ticks.{last_instant, most_job, most_feed, most_round, most_charge, within, from_one, job_length, owed_length};
ghost use Rattle.ticks.specs.Ticks.{feed_length, sum, plus, next, previous, back, ticks_since, remainder, less, instant, ticks};

// A moment that the clock can read; tick t lies between the instants t and t + 1.
#[repr(C)]
#[derive(Clone, Copy, PartialEq, Eq, PartialOrd, Ord)]
pub struct Instant(pub u64);

// How many ticks: a work, a period, a lead, an offset.
#[repr(C)]
#[derive(Clone, Copy, PartialEq, Eq, PartialOrd, Ord)]
pub struct Length(pub u64);

impl Instant {
    // The first that the clock can read; an unused place has it too.
    pub const FIRST: Instant = Instant(0);
    // The clock goes no further.
    pub const LAST: Instant = Instant(1099511627776);

    // What the clock reads.
    pub fn at(reading: u64) -> Instant
        ensures { result ≡ instant reading }
    {
        Instant(reading)
    }

    pub fn last() -> Instant
        ensures { result ≡ instant last_instant }
    {
        Instant::LAST
    }

    pub fn within(self) -> bool
        ensures { result ≡ within self }
    {
        self <= Instant::LAST
    }

    pub fn plus(self, by: Length) -> Instant
        requires { self.0 + by.0 < 2 ^ 64 }
        ensures { result ≡ plus self by }
    {
        Instant(self.0 + by.0)
    }

    // A tick later.
    pub fn next(self) -> Instant
        requires { self.0 + 1 < 2 ^ 64 }
        ensures { result ≡ next self }
    {
        Instant(self.0 + 1)
    }

    // A tick earlier.
    pub fn previous(self) -> Instant
        requires { 1 ≤ self.0 }
        ensures { result ≡ previous self }
    {
        Instant(self.0 - 1)
    }

    // So many ticks earlier, and the first instant where there are not so many.
    pub fn back(self, by: Length) -> Instant
        ensures { result ≡ back self by }
    {
        Instant(self.0.saturating_sub(by.0))
    }

    // How many ticks lie between an earlier instant and this one.
    pub fn ticks_since(self, earlier: Instant) -> Length
        requires { earlier.0 ≤ self.0 }
        ensures { result ≡ ticks_since self earlier }
    {
        Length(self.0 - earlier.0)
    }

    // What is left of the time since the first instant when it is divided by a period.
    pub fn remainder(self, period: Length) -> Length
        requires { 1 ≤ period.0 }
        ensures { result ≡ remainder self period }
    {
        Length(self.0 % period.0)
    }
}

impl Length {
    // No ticks at all; an unused place has it too.
    pub const NONE: Length = Length(0);
    // The most that a job may want, and the furthest ahead that its deadline may lie when it asks.
    pub const JOB: Length = Length(65536);
    // The longest period, and the longest piece of a feed.
    pub const PERIOD: Length = Length(40320);
    // The longest round.
    pub const ROUND: Length = Length(40320);
    // The highest charge for a change of work.
    pub const CHARGE: Length = Length(16);

    // As many ticks as a caller names.
    pub fn of(count: u32) -> Length
        ensures { result ≡ ticks count }
    {
        Length(u64::from(count))
    }

    pub fn most_job() -> Length
        ensures { result ≡ ticks most_job }
    {
        Length::JOB
    }

    pub fn most_period() -> Length
        ensures { result ≡ ticks most_feed }
    {
        Length::PERIOD
    }

    pub fn most_round() -> Length
        ensures { result ≡ ticks most_round }
    {
        Length::ROUND
    }

    pub fn most_charge() -> Length
        ensures { result ≡ ticks most_charge }
    {
        Length::CHARGE
    }

    // From 1 tick up to the most.
    pub fn from_one(self, most: Length) -> bool
        ensures { result ≡ from_one most.0 self }
    {
        Length(1) <= self && self <= most
    }

    // A work or a lead that a job may have.
    pub fn suits_job(self) -> bool
        ensures { result ≡ job_length self }
    {
        self.from_one(Length::JOB)
    }

    // What a live job may still owe under a charge: up to all its work and the charge.
    pub fn suits_owed(self, charge: Length) -> bool
        requires { charge.0 ≤ most_charge }
        ensures { result ≡ owed_length charge self }
    {
        self.from_one(Length::JOB.and(charge))
    }

    // A period or a work that a feed may have.
    pub fn suits_feed(self) -> bool
        ensures { result ≡ feed_length self }
    {
        self.from_one(Length::PERIOD)
    }

    // A round that is not too long.
    pub fn suits_round(self) -> bool
        ensures { result ≡ leb self.0 most_round }
    {
        self <= Length::ROUND
    }

    // A charge that an opening may set.
    pub fn suits_charge(self) -> bool
        ensures { result ≡ leb self.0 most_charge }
    {
        self <= Length::CHARGE
    }

    // So many ticks more.
    pub fn and(self, more: Length) -> Length
        requires { self.0 + more.0 < 2 ^ 64 }
        ensures { result ≡ sum self more }
    {
        Length(self.0 + more.0)
    }

    // What is left of it without so many ticks.
    pub fn less(self, by: Length) -> Length
        requires { by.0 ≤ self.0 }
        ensures { result ≡ less self by }
    {
        Length(self.0 - by.0)
    }

    // One tick of it was given.
    pub fn one_less(self) -> Length
        requires { 1 ≤ self.0 }
        ensures { result ≡ less self (ticks 1) }
    {
        Length(self.0 - 1)
    }
}
