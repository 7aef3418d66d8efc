// A share p/q of the processor for exports with no date: which numbers are one, and how long a job takes at it.
// It must not know deadlines, feeds, jobs or refusals.
#![tactic(auto)]

ghost use Rattle.std.specs.Prelude.{◌≡◌, true, ◌<◌, ◌^◌};
ghost use Rattle.shares.specs.Shares.{share, no_share, is_none, is_share, share_in, time_at};

use ticks::Length;

// Ticks of every q that exports with no date may count on: p of them. 0/0 where the opening had no share.
#[repr(C)]
#[derive(Clone, Copy, PartialEq, Eq)]
pub struct Share {
    pub p: u32,
    pub q: u32,
}

impl Share {
    // The highest q.
    pub const MOST: u32 = 1000;
    // The lowest p.
    pub const LEAST: u32 = 1;
    // No share at all.
    pub const NONE: Share = Share { p: 0, q: 0 };

    pub fn of(p: u32, q: u32) -> Share
        ensures { result ≡ share p q }
    {
        Share { p, q }
    }

    pub fn none() -> Share
        ensures { result ≡ no_share }
    {
        Share::NONE
    }

    pub fn is_none(self) -> bool
        ensures { result ≡ is_none self }
    {
        self == Share::NONE
    }

    // Whether an opening may carry it: not nothing, not above all, and in numbers that are not too high.
    pub fn is_share(self) -> bool
        ensures { result ≡ is_share self }
    {
        Share::LEAST <= self.p && self.p <= self.q && self.q <= Share::MOST
    }

    // Whether a state may have it: a share, or none.
    pub fn in_order(self) -> bool
        ensures { result ≡ share_in self }
    {
        self.is_none() || self.is_share()
    }

    // How long a job of so many ticks takes at the share, rounded up.
    #[tactic(auto, unfolding(edf::specs::Share::at_share))]
    pub fn time_for(self, work: Length) -> Length
        requires { (is_share self ≡ true) × (work.0 < 2 ^ 40) }
        ensures { result ≡ time_at self work }
    {
        let p = u64::from(self.p);
        let q = u64::from(self.q);
        Length((work.0 * q + (p - 1)) / p)
    }
}
