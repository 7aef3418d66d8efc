// What a customer is told of a request: the earliest instant at which more is owed than there is time, or the one with the
// smallest margin; who owes how much by then; and the margin there.
// It must not know refusals, nor the step.
#![tactic(auto)]

ghost use Rattle.std.specs.Prelude.{◌≡◌, ◌+◌, ◌≤◌, ◌<◌, ◌^◌, pos, ◌-ℤ◌};
ghost use Rattle.ledger.specs.State.{InOrder};
ghost use Rattle.ledger.specs.Books.{book_of};
ghost use Rattle.jobs.specs.Figures.{Modest};
ghost use Rattle.room.specs.Owed.{Reach};
ghost use Rattle.reasons.specs.Reasons.{debt_by, tighter, Tells, no_reason, near_reason, reason_at};

use jobs::Job;
use ledger::Ledger;
use ticks::{Instant, Length};

mod due;

// An instant, and what is owed by then.
#[derive(Clone, Copy)]
pub struct Debt {
    pub at: Instant,
    pub owed: Length,
}

fn debt_by(ledger: Ledger, by: Instant) -> Debt
    requires { InOrder ledger × Reach ledger.clock by }
    ensures { result ≡ debt_by (book_of ledger) by }
{
    Debt {
        at: by,
        owed: room::owed_by(ledger, by),
    }
}

// The one with the smaller margin, and on equal margins the one that was found before.
fn tighter(best: Debt, next: Debt) -> Debt
    requires { (next.at.0 + best.owed.0 < 2 ^ 64) × (best.at.0 + next.owed.0 < 2 ^ 64) }
    ensures { result ≡ tighter best next }
{
    if next.at.plus(best.owed) < best.at.plus(next.owed) {
        next
    } else {
        best
    }
}

// The walk: up from the instant after the clock over those at which something is due, as far as the horizon and no
// further than the first that is overbooked. In between nothing more is owed while the margin grows.
#[tactic(auto, using(crate::proofs::Walk::in_reach, crate::proofs::Walk::walked_first, crate::proofs::Walk::told_last, room::proofs::Ahead::horizon_near))]
pub fn tightest(ledger: Ledger) -> Debt
    requires { InOrder ledger }
    ensures { Tells ledger.clock (book_of ledger) result }
{
    let clock = ledger.clock;
    let end = room::horizon(ledger).next();
    let mut by = clock.next();
    let mut best = debt_by(ledger, by);
    while by < end {
        let next = debt_by(ledger, by);
        if next.owed > by.ticks_since(clock) {
            return next;
        }
        best = tighter(best, next);
        by = due::next_due(ledger, by, end);
    }
    best
}

// The time until an instant less what is owed by then, below zero too.
pub fn margin(time: Length, owed: Length) -> i64
    requires { (time.0 < 2 ^ 63) × (owed.0 < 2 ^ 63) }
    ensures { result ≡ pos time.0 -ℤ pos owed.0 }
{
    time.0.cast_signed() - owed.0.cast_signed()
}

// What a customer is told of an instant: how much the live jobs, the feeds and the job that is asked for owe by then, and
// the margin there.
#[derive(Clone, Copy)]
pub struct Reason {
    pub at: Instant,
    pub jobs: Length,
    pub feeds: Length,
    pub job: Length,
    pub margin: i64,
}

impl Reason {
    // Nothing to tell.
    pub fn none() -> Reason
        ensures { result ≡ no_reason }
    {
        Reason {
            at: Instant::FIRST,
            jobs: Length::NONE,
            feeds: Length::NONE,
            job: Length::NONE,
            margin: 0,
        }
    }

    // How near a request comes that would be taken.
    pub fn near(at: Instant, margin: i64) -> Reason
        ensures { result ≡ near_reason at margin }
    {
        Reason {
            at,
            margin,
            ..Reason::none()
        }
    }
}

#[tactic(auto, using(jobs::proofs::Figures::owes_by_le, room::proofs::Owed::jobs_owe_little))]
pub fn reason_at(ledger: Ledger, job: Job, at: Instant) -> Reason
    requires { InOrder ledger × Modest job × Reach ledger.clock at × (ledger.clock.0 ≤ at.0) }
    ensures { result ≡ reason_at ledger job at }
{
    let clock = ledger.clock;
    let jobs = ledger.table.owed_by(at);
    let printers = room::feeds_owe(ledger.feeds, ledger.charge, clock, at);
    let asked = job.owes_by(at);
    Reason {
        at,
        jobs,
        feeds: Length(printers),
        job: asked,
        margin: margin(at.ticks_since(clock), Length(jobs.0 + printers + asked.0)),
    }
}
