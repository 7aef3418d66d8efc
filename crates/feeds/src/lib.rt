// The feeds: the printers' layers that come again and again, each a plan and what its current piece still owes. How a lent
// list of numbers is read as feeds (lines 12, 8, 2, 9 and 10 of the opening), the round, what stretches of ticks up to it want,
// and the current pieces: what comes at an instant, what gives way, what is served, what is rested.
// It must not know jobs, nor who is served.
#![tactic(auto)]

ghost use Rattle.std.specs.Prelude.{◌≡◌, true, [], map, ◌+◌, ◌*◌, ◌-◌, ◌≤◌, ◌<◌, ◌^◌, length, drop, get_or, set};
ghost use Rattle.ticks.specs.Ticks.{most_round, most_charge, ticks};
ghost use Rattle.lists.specs.Lists.{every, Each};
ghost use Rattle.plans.specs.Plans.{to_the_next};
ghost use Rattle.std.specs.Prelude.{Ok};
ghost use Rattle.answers.specs.Answers.{first_of};
ghost use Rattle.feeds.specs.Feeds.{most_feeds, numbers_a_feed, no_feed, feed_in, FeedIn, unused_feed, in_use, feeds_of, owing, Tidy, Bearable};
ghost use Rattle.feeds.specs.Round.{round_of, periods, demand, carries};
ghost use Rattle.feeds.specs.Lines.{shape_lines, feed_lines, feeds_pass, feeds_in, feed};
ghost use Rattle.feeds.specs.Pieces.{piece_in, owes_then, arrived, served, rested, owes_at};

use answers::{Refusal, Verdict};
use plans::{Plan, euclid};
use ticks::{Instant, Length};

// A printer's feed: its plan, and what the piece that came last still wants.
#[repr(C)]
#[derive(Clone, Copy, PartialEq, Eq)]
pub struct Feed {
    pub plan: Plan,
    pub owes: Length,
}

// The feeds stand at the front, in list order; the places after them are all zero.
#[repr(C)]
#[derive(Clone, Copy)]
pub struct Feeds {
    pub count: usize,
    pub feeds: [Feed; Feed::MOST],
}

impl Feed {
    // As many feeds as there are places.
    pub const MOST: usize = 16;
    // As many numbers as a feed takes in a lent list: period, work, offset and deadline length.
    pub const NUMBERS: usize = 4;
    // A place that no feed has.
    pub const NONE: Feed = Feed {
        plan: Plan::NONE,
        owes: Length::NONE,
    };

    pub fn most() -> usize
        ensures { result ≡ most_feeds }
    {
        Feed::MOST
    }

    pub fn numbers() -> usize
        ensures { result ≡ numbers_a_feed }
    {
        Feed::NUMBERS
    }

    pub fn none() -> Feed
        ensures { result ≡ no_feed }
    {
        Feed::NONE
    }

    // No piece of it has come yet.
    fn of(period: u32, work: u32, offset: u32, lead: u32) -> Feed
        ensures { result ≡ feed period work offset lead }
    {
        Feed {
            plan: Plan {
                period: Length::of(period),
                work: Length::of(work),
                offset: Length::of(offset),
                lead: Length::of(lead),
            },
            owes: Length::NONE,
        }
    }

    #[tactic(auto, unfolding(crate::specs::Feeds::unused_feed, plans::specs::Plans::unused_plan, lists::specs::Lists::all_of))]
    pub fn is_none(self) -> bool
        ensures { result ≡ unused_feed self }
    {
        self == Feed::NONE
    }

    // What a state in order says of the current piece: it owes at most its charged work, nothing while the clock is below the
    // offset, and nothing from its deadline on.
    #[tactic(auto, unfolding(crate::specs::Pieces::piece_in, lists::specs::Lists::all_of))]
    fn piece_in(self, charge: Length, clock: Instant) -> bool
        requires { FeedIn self × (charge.0 ≤ most_charge) × (clock.0 < 2 ^ 63) }
        ensures { result ≡ piece_in charge clock self }
    {
        self.owes <= self.plan.charged(charge)
            && (self.owes == Length::NONE
                || Instant::FIRST.plus(self.plan.offset) <= clock
                    && self.plan.since(clock) < self.plan.lead)
    }

    // What the current piece owes at this instant: one that comes then its charged work, one whose deadline has come nothing.
    #[tactic(auto, unfolding(crate::specs::Pieces::owes_then))]
    fn owes_then(self, charge: Length, at: Instant) -> Length
        requires { FeedIn self × (charge.0 ≤ most_charge) × (at.0 < 2 ^ 63) }
        ensures { result ≡ owes_then charge at self }
    {
        let since = self.plan.since(at);
        if since == Length::NONE {
            self.plan.charged(charge)
        } else if since < self.plan.lead {
            self.owes
        } else {
            Length::NONE
        }
    }

    #[tactic(auto, unfolding(crate::specs::Pieces::arrived))]
    fn arrived(self, charge: Length, at: Instant) -> Feed
        requires { FeedIn self × (charge.0 ≤ most_charge) × (at.0 < 2 ^ 63) }
        ensures { result ≡ arrived charge at self }
    {
        Feed {
            owes: self.owes_then(charge, at),
            ..self
        }
    }
}

impl Feeds {
    pub fn none() -> Feeds
        ensures { result ≡ feeds_of [] }
    {
        Feeds {
            count: 0,
            feeds: [Feed::NONE; Feed::MOST],
        }
    }

    // Line 2 for each feed.
    fn all_within(self) -> bool
        requires { self.count ≤ most_feeds }
        ensures { result ≡ every feed_in (in_use self) }
    {
        self.feeds[..self.count]
            .iter()
            .all(|feed| feed.plan.within())
    }

    // The places after the feeds are all zero.
    fn rest_unused(self) -> bool
        requires { self.count ≤ most_feeds }
        ensures { result ≡ every unused_feed (drop self.count self.feeds) }
    {
        self.feeds[self.count..].iter().all(|feed| feed.is_none())
    }

    // The round, or one tick more than the longest where it is longer.
    pub fn round(self) -> Length
        requires { (self.count ≤ most_feeds) × (every feed_in (in_use self) ≡ true) }
        ensures { result ≡ ticks (round_of (periods (in_use self))) }
    {
        let mut round = 1;
        for feed in &self.feeds[..self.count] {
            round = euclid::multiple(round, feed.plan.period.0);
            if Length::ROUND.0 < round {
                return Length(Length::ROUND.0 + 1);
            }
        }
        Length(round)
    }

    // What the pieces that come and are due within so many ticks want, each with its charge, of feeds released together.
    fn demand(self, charge: Length, stretch: Length) -> Length
        requires { Bearable self × (charge.0 ≤ most_charge) × (stretch.0 ≤ most_round) }
        ensures { result ≡ ticks (demand charge stretch.0 (in_use self)) }
    {
        Length(
            self.feeds[..self.count]
                .iter()
                .map(|feed| feed.plan.stretch(charge, stretch))
                .sum(),
        )
    }

    // Whether every piece is due when the next one comes.
    fn all_to_the_next(self) -> bool
        requires { self.count ≤ most_feeds }
        ensures { result ≡ every (λ f. to_the_next f.plan) (in_use self) }
    {
        self.feeds[..self.count]
            .iter()
            .all(|feed| feed.plan.to_the_next())
    }

    // The walk: down from the round. Where what a stretch wants is no longer than it, so it is for every stretch from that
    // length on, as no more is wanted in a shorter one; so the walk goes on below that.
    fn bears_each(self, charge: Length, round: Length) -> bool
        requires { Bearable self × (charge.0 ≤ most_charge) × (round.0 ≤ most_round) }
        ensures { result ≡ carries charge round.0 (in_use self) }
    {
        let mut end = round.and(Length(1));
        while Length(1) < end {
            let stretch = end.one_less();
            let want = self.demand(charge, stretch);
            if stretch < want {
                return false;
            }
            end = want;
        }
        true
    }

    // Line 10: whether in no stretch up to the round more is wanted than it has. Where every piece is due when the next one
    // comes, what the round itself wants decides.
    #[tactic(auto, using(crate::proofs::Round::round_found, crate::proofs::Stretches::carries_made, crate::proofs::Stretches::carries_fails, crate::proofs::Stretches::round_decides))]
    fn bears(self, charge: Length, round: Length) -> bool
        requires { Bearable self × (charge.0 ≤ most_charge) × (round.0 ≤ most_round) × (round ≡ ticks (round_of (periods (in_use self)))) }
        ensures { result ≡ carries charge round.0 (in_use self) }
    {
        if self.all_to_the_next() {
            self.demand(charge, round) <= round
        } else {
            self.bears_each(charge, round)
        }
    }

    // Lines 2, 9 and 10.
    #[tactic(auto, unfolding(answers::specs::Answers::first_of))]
    pub fn sound(self, charge: Length) -> Verdict
        requires { (self.count ≤ most_feeds) × (charge.0 ≤ most_charge) }
        ensures { result ≡ first_of (feed_lines charge (in_use self)) }
    {
        Refusal::Outside.when(!self.all_within())?;
        let round = self.round();
        Refusal::RoundTooLong.when(!round.suits_round())?;
        Refusal::TooMuchLoad.when(!self.bears(charge, round))
    }

    // What a state in order says of the current pieces.
    fn pieces_in(self, charge: Length, clock: Instant) -> bool
        requires { Bearable self × (charge.0 ≤ most_charge) × (clock.0 < 2 ^ 63) }
        ensures { result ≡ every (piece_in charge clock) (in_use self) }
    {
        self.feeds[..self.count]
            .iter()
            .all(|feed| feed.piece_in(charge, clock))
    }

    // Whether any feeds that are handed in are in order at this instant, under this charge: they would pass the opening, the
    // current pieces are in order, and the unused places are all zero.
    #[tactic(auto, using(answers::proofs::Answers::passes_is, answers::proofs::Answers::passes_yes, answers::proofs::Answers::yes_first), unfolding(crate::specs::Lines::feeds_pass, lists::specs::Lists::all_of))]
    pub fn in_order(self, charge: Length, clock: Instant) -> bool
        requires { (charge.0 ≤ most_charge) × (clock.0 < 2 ^ 63) }
        ensures { result ≡ feeds_pass charge clock self }
    {
        self.count <= Feed::MOST
            && self.sound(charge).is_ok()
            && self.rest_unused()
            && self.pieces_in(charge, clock)
    }

    // The pieces that come at this instant are ready, and those whose deadline has come give way.
    pub fn arrive(self, charge: Length, at: Instant) -> Feeds
        requires { Tidy self × Each FeedIn (in_use self) × (charge.0 ≤ most_charge) × (at.0 < 2 ^ 63) }
        ensures { result ≡ feeds_of (map (arrived charge at) (in_use self)) }
    {
        let mut feeds = self.feeds;
        for feed in &mut feeds[..self.count] {
            *feed = feed.arrived(charge, at);
        }
        Feeds { feeds, ..self }
    }

    // What the current piece of the feed at this position still owes; nothing where there is no such feed.
    pub fn owes_at(self, position: u32) -> Length
        requires { self.count ≤ most_feeds }
        ensures { result ≡ ticks (owes_at position 1 (in_use self)) }
    {
        let at = position as usize;
        if 1 <= at && at <= self.count {
            self.feeds[at - 1].owes
        } else {
            Length::NONE
        }
    }

    // The current piece of the feed at this position owes so much from now on.
    fn owing(self, position: u32, owes: Length) -> Feeds
        requires { Tidy self × (1 ≤ position) × (position ≤ self.count) }
        ensures { result ≡ feeds_of (set (in_use self) (position - 1) (owing owes (get_or (in_use self) (position - 1) no_feed))) }
    {
        let mut next = self;
        next.feeds[position as usize - 1].owes = owes;
        next
    }

    // The current piece of the feed at this position owes nothing from now on.
    pub fn rest(self, position: u32) -> Feeds
        requires { Tidy self × (1 ≤ position) × (position ≤ self.count) }
        ensures { result ≡ feeds_of (rested position 1 (in_use self)) }
    {
        self.owing(position, Length::NONE)
    }

    // The current piece of the feed at this position has one tick less to get.
    pub fn serve(self, position: u32) -> Feeds
        requires { Tidy self × (1 ≤ owes_at position 1 (in_use self)) }
        ensures { result ≡ feeds_of (served position 1 (in_use self)) }
    {
        self.owing(position, self.owes_at(position).one_less())
    }
}

// Lines 12 and 8, which come before the opening instant is looked at.
#[tactic(auto, unfolding(answers::specs::Answers::first_of))]
pub fn shape(list: &[u32]) -> Verdict
    ensures { result ≡ first_of (shape_lines (length list.now)) }
{
    Refusal::NotWholeFeeds.when(list.len() % Feed::NUMBERS != 0)?;
    Refusal::TooManyFeeds.when(Feed::MOST < list.len() / Feed::NUMBERS)
}

// The feeds of a list that lines 12 and 8 let pass, each in its place, no piece come yet.
pub fn taken(list: &[u32]) -> Feeds
    requires { first_of (shape_lines (length list.now)) ≡ Ok tt }
    ensures { result ≡ feeds_of (feeds_in list.now) }
{
    let (whole, _) = list.as_chunks::<{ Feed::NUMBERS }>();
    let mut feeds = [Feed::NONE; Feed::MOST];
    for (i, &[period, work, offset, lead]) in whole.iter().enumerate() {
        feeds[i] = Feed::of(period, work, offset, lead);
    }
    Feeds {
        count: whole.len(),
        feeds,
    }
}
