// Whether everything fits: what is owed by an instant, how far one has to look, and the walk back from there that asks
// whether there is time enough.
// It must not know refusals, nor the step.
#![tactic(auto)]

ghost use Rattle.std.specs.Prelude.{◌≡◌, ◌+◌, ◌*◌, ◌≤◌, ◌<◌, ◌^◌};
ghost use Rattle.lists.specs.Lists.{total, Each};
ghost use Rattle.ticks.specs.Ticks.{most_charge, ticks};
ghost use Rattle.feeds.specs.Feeds.{most_feeds, FeedIn, in_use};
ghost use Rattle.jobs.specs.Jobs.{most_jobs, live};
ghost use Rattle.edf.specs.Owed.{owed_by};
ghost use Rattle.ledger.specs.State.{InOrder};
ghost use Rattle.ledger.specs.Books.{book_of};
ghost use Rattle.room.specs.Owed.{feed_owes, FeedOrdered, most_of_feed, Reach};
ghost use Rattle.room.specs.Ahead.{last_due, horizon_of};
ghost use Rattle.room.specs.Walk.{RoomSays, FitsSays};

use feeds::{Feed, Feeds};
use jobs::Table;
use ledger::Ledger;
use ticks::{Instant, Length};

// The current piece counts from its deadline on, and from then on a whole piece more with every period. The lead from the clock
// lies as far past the deadline as the instant and the time since the release past the instant, so no deadline before the first
// instant has to be told.
#[tactic(auto, using(crate::proofs::Owed::feed_owes_before, crate::proofs::Owed::feed_owes_from, crate::proofs::Owed::pieces_most, plans::proofs::Plans::since_lt))]
fn feed_owes(feed: Feed, charge: Length, clock: Instant, by: Instant) -> u64
    requires { FeedOrdered charge clock feed × (charge.0 ≤ most_charge) × Reach clock by }
    ensures { (result ≡ feed_owes charge clock.0 by.0 feed) × (result ≤ most_of_feed) }
{
    let first = clock.plus(feed.plan.lead);
    let reached = by.plus(feed.plan.since(clock));
    if reached < first {
        return 0;
    }
    let pieces = reached.ticks_since(first).0 / feed.plan.period.0;
    feed.owes.0 + feed.plan.charged(charge).0 * pieces
}

// The printers' part of what is owed by an instant.
pub fn feeds_owe(feeds: Feeds, charge: Length, clock: Instant, by: Instant) -> u64
    requires { (feeds.count ≤ most_feeds) × Each (FeedOrdered charge clock) (in_use feeds) × (charge.0 ≤ most_charge) × Reach clock by }
    ensures { (result ≡ total (feed_owes charge clock.0 by.0) (in_use feeds)) × (result ≤ most_feeds * most_of_feed) }
{
    let mut sum = 0;
    for feed in &feeds.feeds[..feeds.count] {
        sum += feed_owes(*feed, charge, clock, by);
    }
    sum
}

// All that is owed by an instant.
#[tactic(auto, using(crate::proofs::Owed::owed_by_is, crate::proofs::Owed::jobs_owe_little))]
pub fn owed_by(ledger: Ledger, by: Instant) -> Length
    requires { InOrder ledger × Reach ledger.clock by }
    ensures { result ≡ ticks (owed_by (book_of ledger) by.0) }
{
    Length(ledger.table.owed_by(by).0 + feeds_owe(ledger.feeds, ledger.charge, ledger.clock, by))
}

// The last of the jobs' deadlines and of the feeds' next releases, or the clock where there is none.
#[tactic(auto, using(crate::proofs::Ahead::latest_next), unfolding(crate::specs::Ahead::last_due, crate::specs::Ahead::latest_of))]
fn last_due(ledger: Ledger) -> Instant
    requires { InOrder ledger }
    ensures { result ≡ last_due ledger }
{
    let clock = ledger.clock;
    let mut last = clock;
    for job in &ledger.table.jobs[..ledger.table.count] {
        last = last.max(job.deadline);
    }
    for feed in &ledger.feeds.feeds[..ledger.feeds.count] {
        last = last.max(feed.plan.next(clock));
    }
    last
}

// A round past the last deadline and the last of the next releases everything has come back.
#[tactic(auto, using(crate::proofs::Ahead::last_near, feeds::proofs::Limits::feeds_in_made), unfolding(crate::specs::Ahead::horizon_of))]
pub fn horizon(ledger: Ledger) -> Instant
    requires { InOrder ledger }
    ensures { result ≡ horizon_of ledger }
{
    last_due(ledger).plus(ledger.feeds.round())
}

// The walk: back from the horizon, since a request that does not fit nearly always fails late. Where the work owed by an
// instant can be done by then, it can be done by every instant from the clock and that work on, as no more is owed by an
// earlier one; so the walk goes on before those.
#[tactic(auto, using(crate::proofs::Walk::room_last))]
fn room_below(ledger: Ledger, horizon: Instant) -> bool
    requires { InOrder ledger × Reach ledger.clock horizon × (ledger.clock.0 ≤ horizon.0) }
    ensures { RoomSays result horizon.0 (book_of ledger) }
{
    let clock = ledger.clock;
    let first = clock.next();
    let mut end = horizon;
    while end > first {
        let by = end.previous();
        let owed = owed_by(ledger, by);
        if owed > by.ticks_since(clock) {
            return false;
        }
        end = clock.plus(owed);
    }
    true
}

// Whether everything fits, the requested job among the jobs.
#[tactic(auto, using(crate::proofs::Ahead::horizon_near, crate::proofs::Walk::fits_says))]
pub fn fits(ledger: Ledger) -> bool
    requires { InOrder ledger }
    ensures { FitsSays result (book_of ledger) }
{
    room_below(ledger, horizon(ledger))
}
