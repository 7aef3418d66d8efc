// Whom the tick goes to: the ready work with the earliest deadline, a job before a feed, a lower number before a higher,
// a lower position before a higher; and the tick given.
// It must not know what fits.
#![tactic(auto)]

ghost use Rattle.std.specs.Prelude.{◌≡◌, ℕ, pred, ◌≤◌, ◌<◌, ◌^◌};
ghost use Rattle.lists.specs.Lists.{Each};
ghost use Rattle.ticks.specs.Ticks.{ticks};
ghost use Rattle.feeds.specs.Feeds.{most_feeds, in_use, feeds_of, FeedIn, Tidy as TidyFeeds};
ghost use Rattle.jobs.specs.Jobs.{most_jobs, live, table_of, times, Tidy as TidyTable};
ghost use Rattle.jobs.specs.Figures.{Figured, figured};
ghost use Rattle.jobs.specs.Sorted.{Sorted};
ghost use Rattle.jobs.specs.Served.{Owing};
ghost use Rattle.edf.specs.Step.{kind, runner};
ghost use Rattle.ledger.specs.State.{InOrder};
ghost use Rattle.ledger.specs.Books.{book_of, who_of};
ghost use Rattle.serving.specs.Front.{sooner_of, goes_before_of, first_of_two, nobody_front, job_front, feed_front, job_fronts, feed_fronts, foremost_over, front_of};
ghost use Rattle.serving.specs.Tick.{served_feeds, served_jobs, Owed, stepped_of};

use answers::{Refusal, Who};
use feeds::{Feed, Feeds};
use jobs::{Job, Table};
use ledger::Ledger;
use ticks::{Instant, Length};

// A piece of work that wants the tick: whose it is, when it is due and what it still owes.
#[derive(Clone, Copy)]
pub struct Piece {
    pub who: Who,
    pub due: Instant,
    pub owes: Length,
}

// The state after a step; whom the tick went to, and what that piece of work still owes after it, before any release.
#[derive(Clone, Copy)]
pub struct Stepped {
    pub ledger: Ledger,
    pub who: Who,
    pub owes: Length,
}

impl Piece {
    // Nobody wants the tick.
    pub fn nobody() -> Piece
        ensures { result ≡ nobody_front }
    {
        Piece {
            who: Who::Idle,
            due: Instant::FIRST,
            owes: Length::NONE,
        }
    }

    // The earlier deadline first, then a job before a feed, then the lower number.
    #[tactic(auto, using(crate::proofs::Order::lesser_sooner))]
    fn sooner(self, other: Piece) -> bool
        ensures { result ≡ sooner_of self other }
    {
        (self.due, self.who) <= (other.due, other.who)
    }

    // Ready work before what owes nothing, and of two that are ready the sooner.
    #[tactic(auto, unfolding(edf::specs::Step::goes_before))]
    fn goes_before(self, other: Piece) -> bool
        ensures { result ≡ goes_before_of self other }
    {
        self.owes > Length::NONE && (other.owes == Length::NONE || self.sooner(other))
    }

    // Of two, the one that goes first.
    fn first_of(self, other: Piece) -> Piece
        ensures { result ≡ first_of_two self other }
    {
        if self.goes_before(other) { self } else { other }
    }

    fn of_job(job: Job) -> Piece
        ensures { result ≡ job_front job }
    {
        Piece {
            who: Who::Job(job.number),
            due: job.deadline,
            owes: job.owed,
        }
    }

    // The current piece of a feed.
    fn of_feed(feed: Feed, position: u32, clock: Instant) -> Piece
        requires { FeedIn feed × (clock.0 < 2 ^ 63) }
        ensures { result ≡ feed_front clock position feed }
    {
        Piece {
            who: Who::Feed(position),
            due: feed.plan.due(clock),
            owes: feed.owes,
        }
    }
}

// The current piece that goes before all others.
fn foremost_feed(feeds: Feeds, clock: Instant) -> Piece
    requires { (feeds.count ≤ most_feeds) × Each FeedIn (in_use feeds) × (clock.0 < 2 ^ 63) }
    ensures { result ≡ foremost_over (feed_fronts clock 1 (in_use feeds)) nobody_front }
{
    let mut best = Piece::nobody();
    for (i, feed) in feeds.feeds[..feeds.count].iter().enumerate().rev() {
        let piece = Piece::of_feed(*feed, (i + 1) as u32, clock);
        best = piece.first_of(best);
    }
    best
}

// The first job of the table goes before all other jobs; it or this piece, whichever goes first.
fn foremost_job(table: Table, piece: Piece) -> Piece
    requires { (table.count ≤ most_jobs) × Each Owing (live table) × Sorted (live table) }
    ensures { result ≡ foremost_over (job_fronts (live table)) piece }
{
    match table.jobs[..table.count].first() {
        Some(job) => Piece::of_job(*job).first_of(piece),
        None => piece,
    }
}

// Whom the next tick goes to.
#[tactic(auto, using(crate::proofs::Front::foremost_is_runner))]
pub fn foremost(ledger: Ledger) -> Piece
    requires { InOrder ledger }
    ensures { result ≡ front_of (runner (book_of ledger)) }
{
    foremost_job(ledger.table, foremost_feed(ledger.feeds, ledger.clock))
}

// The feeds after the tick was given, before any release.
#[tactic(auto, unfolding(crate::specs::Tick::Owed))]
fn serve_feeds(feeds: Feeds, who: Who) -> Feeds
    requires { TidyFeeds feeds × Owed who (in_use feeds) }
    ensures { result ≡ feeds_of (served_feeds who (in_use feeds)) }
{
    match who {
        Who::Feed(position) => feeds.serve(position),
        _ => feeds,
    }
}

// The jobs after the tick was given.
#[tactic(auto, using(jobs::proofs::Figures::figured_own, crate::proofs::Given::jobs_stay))]
fn serve_jobs(table: Table, who: Who) -> Table
    requires { TidyTable table × Each Owing (live table) × Figured (live table) × ((n : ℕ) → times n (live table) ≤ 1) }
    ensures { result ≡ table_of (figured (served_jobs who (live table))) }
{
    match who {
        Who::Job(number) => table.serve(number),
        _ => table,
    }
}

// What the foremost piece still owes once it has the tick; nothing where nobody wants it.
fn owes_then(front: Piece) -> Length
    ensures { result ≡ ticks (pred front.owes.0) }
{
    if front.owes == Length::NONE {
        Length::NONE
    } else {
        front.owes.one_less()
    }
}

// One step on a state in order: line 3; then the tick goes to the foremost piece, the clock goes on, and the pieces that
// come are ready.
pub fn step(ledger: Ledger) -> Result<Stepped, Refusal>
    requires { InOrder ledger }
    ensures { result ≡ stepped_of ledger }
{
    Refusal::PastLast.when(ledger.clock >= Instant::LAST)?;
    let front = foremost(ledger);
    let clock = ledger.clock.next();
    let feeds = serve_feeds(ledger.feeds, front.who).arrive(ledger.charge, clock);
    let table = serve_jobs(ledger.table, front.who);
    Ok(Stepped {
        ledger: ledger.moved(clock, feeds, table),
        who: front.who,
        owes: owes_then(front),
    })
}
