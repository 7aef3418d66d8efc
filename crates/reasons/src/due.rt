// The next instant at which something is due.
ghost use Rattle.std.specs.Prelude.{◌≡◌, ◌≤◌, ◌<◌};
ghost use Rattle.lists.specs.Lists.{total, Each};
ghost use Rattle.ticks.specs.declared.Length.{Length};
ghost use Rattle.feeds.specs.Feeds.{most_feeds, FeedIn, in_use};
ghost use Rattle.jobs.specs.Jobs.{most_jobs, live};
ghost use Rattle.edf.specs.Owed.{owed_by};
ghost use Rattle.ledger.specs.State.{InOrder};
ghost use Rattle.ledger.specs.Books.{book_of};
ghost use Rattle.jobs.specs.Figures.{owes_by};
ghost use Rattle.room.specs.Owed.{feed_owes, Reach};
ghost use Rattle.reasons.specs.Until.{Until};

use feeds::{Feed, Feeds};
use jobs::{Job, Table};
use ledger::Ledger;
use ticks::{Instant, Length};

// The deadline of a job that is not due yet.
fn job_due_after(job: Job, by: Instant, till: Instant) -> Instant
    requires { by.0 < till.0 }
    ensures { Until (λ D. owes_by D job) by.0 till.0 result.0 }
{
    if job.deadline > by {
        job.deadline.min(till)
    } else {
        till
    }
}

// The next deadline of the jobs.
fn jobs_due_after(table: Table, by: Instant, till: Instant) -> Instant
    requires { (table.count ≤ most_jobs) × (by.0 < till.0) }
    ensures { Until (λ D. total (owes_by D) (live table)) by.0 till.0 result.0 }
{
    let mut next = till;
    for job in &table.jobs[..table.count] {
        next = job_due_after(*job, by, next);
    }
    next
}

// The next deadline of a feed's pieces: they lie a period apart, whatever the charge is.
#[tactic(auto, using(plans::proofs::Plans::since_lt))]
fn feed_due_after(feed: Feed, clock: Instant, by: Instant, till: Instant) -> Instant
    requires { FeedIn feed × Reach clock by × (by.0 < till.0) }
    ensures { (charge : Length) → Until (λ D. feed_owes charge clock.0 D feed) by.0 till.0 result.0 }
{
    let first = clock.plus(feed.plan.lead);
    let reached = by.plus(feed.plan.since(clock));
    if reached < first {
        return by.plus(first.ticks_since(reached)).min(till);
    }
    let over = Length(reached.ticks_since(first).0 % feed.plan.period.0);
    by.plus(feed.plan.period.less(over)).min(till)
}

// The next deadline of the feeds' pieces.
fn feeds_due_after(feeds: Feeds, clock: Instant, by: Instant, till: Instant) -> Instant
    requires { (feeds.count ≤ most_feeds) × Each FeedIn (in_use feeds) × Reach clock by × (by.0 < till.0) }
    ensures { (charge : Length) → Until (λ D. total (feed_owes charge clock.0 D) (in_use feeds)) by.0 till.0 result.0 }
{
    let mut next = till;
    for feed in &feeds.feeds[..feeds.count] {
        next = feed_due_after(*feed, clock, by, next);
    }
    next
}

// The next instant at which something is due, or the last that is of interest.
pub fn next_due(ledger: Ledger, by: Instant, till: Instant) -> Instant
    requires { InOrder ledger × Reach ledger.clock by × (by.0 < till.0) }
    ensures { Until (owed_by (book_of ledger)) by.0 till.0 result.0 }
{
    feeds_due_after(
        ledger.feeds,
        ledger.clock,
        by,
        jobs_due_after(ledger.table, by, till),
    )
}
