// The export desk: the state of a box and every call on it, each with its refusals in the order of the rules.
// It must not know text or files.
#![tactic(auto)]

ghost use Rattle.std.specs.Prelude.{◌≡◌, true, ◌≤◌, ◌<◌, ◌^◌, length};
ghost use Rattle.ticks.specs.Ticks.{last_instant, ticks, instant};
ghost use Rattle.feeds.specs.Lines.{feed_lines, feeds_in};
ghost use Rattle.jobs.specs.Jobs.{most_jobs};
ghost use Rattle.listing.specs.Labels.{label_of, PartAt};
ghost use Rattle.std.specs.Prelude.{Ok};
ghost use Rattle.answers.specs.Answers.{first_of, yes_with};
ghost use Rattle.shares.specs.Shares.{is_share};
ghost use Rattle.ledger.specs.State.{InOrder};
ghost use Rattle.serving.specs.Tick.{stepped_of};
ghost use Rattle.desk.specs.State.{empty, with, sharing, since, in_order};
ghost use Rattle.desk.specs.Answers.{handed};
ghost use Rattle.desk.specs.Opening.{front_lines, opened_desk, opened_of, opened_shared_of};
ghost use Rattle.desk.specs.Calls.{stepped_desk, step_of, end_lines, end_of, rest_lines, rest_of, list_lines, counted_of, listed_of, runner_of};
ghost use Rattle.desk.specs.Undated.{undated_lines, undated_lead, AskedUndated};
ghost use Rattle.desk.specs.Asking.{request_lines, place_lines, request_of, Admissible, Judged, Asked};

use answers::{Refusal, Verdict, Who};
use jobs::{Job, Table};
use ledger::Ledger;
use listing::Part;
use shares::Share;
use ticks::{Instant, Length};

// The state of a box, and what the calls keep beside it: the share for exports with no date, and the deadline of the last one
// that was taken, 0 before the first.
#[repr(C)]
#[derive(Clone, Copy)]
pub struct Desk {
    pub ledger: Ledger,
    pub share: Share,
    pub previous: Instant,
}

// The state that a call hands back, and its answer.
#[derive(Clone, Copy)]
pub struct Answer {
    pub desk: Desk,
    pub verdict: Verdict,
}

// The state that a step hands back and its answer; whom it named, and what that piece of work still owes. Nobody and
// nothing where the step is refused.
#[derive(Clone, Copy)]
pub struct Stepped {
    pub desk: Desk,
    pub verdict: Verdict,
    pub who: Who,
    pub owes: Length,
}

impl Stepped {
    // A step that is refused hands back the state it was given, and names nobody.
    fn of(given: Desk, after: Result<serving::Stepped, Refusal>) -> Stepped
        ensures { result ≡ stepped_desk given after }
    {
        match after {
            Ok(stepped) => Stepped {
                desk: given.with(stepped.ledger),
                verdict: Ok(()),
                who: stepped.who,
                owes: stepped.owes,
            },
            Err(refusal) => Stepped {
                desk: given,
                verdict: Err(refusal),
                who: Who::Idle,
                owes: Length::NONE,
            },
        }
    }
}

impl Answer {
    // A call that is refused hands back the state it was given.
    #[inline(always)]
    pub fn of(given: Desk, after: Result<Desk, Refusal>) -> Answer
        ensures { result ≡ handed given after }
    {
        Answer {
            desk: after.unwrap_or(given),
            verdict: after.map(|_| ()),
        }
    }
}

impl Desk {
    // The empty state: clock 0, charge 0, no feeds, no jobs, no share.
    pub fn none() -> Desk
        ensures { result ≡ empty }
    {
        Desk {
            ledger: Ledger::none(),
            share: Share::none(),
            previous: Instant::FIRST,
        }
    }

    // Whether any state that is handed in is in order.
    pub fn in_order(self) -> bool
        ensures { result ≡ in_order self }
    {
        self.share.in_order() && self.previous.within() && self.ledger.in_order()
    }

    // The desk with another state of the box.
    pub fn with(self, ledger: Ledger) -> Desk
        ensures { result ≡ with self ledger }
    {
        Desk { ledger, ..self }
    }

    // The desk with a share for exports with no date.
    fn sharing(self, share: Share) -> Desk
        ensures { result ≡ sharing share self }
    {
        Desk { share, ..self }
    }

    // The desk once an export with no date was taken that is due then.
    fn since(self, previous: Instant) -> Desk
        ensures { result ≡ since previous self }
    {
        Desk { previous, ..self }
    }

    // Lines 12 and 8, then 3, then 18: those of both openings that come before all others.
    fn front_stops(list: &[u32], start: u64, charge: u32) -> Verdict
        ensures { result ≡ first_of (front_lines list.now start charge) }
    {
        feeds::shape(list)?;
        Refusal::PastLast.when(!Instant::at(start).within())?;
        Refusal::ChargeTooHigh.when(!Length::of(charge).suits_charge())
    }

    // Opening with a list of feeds at an instant, under a charge: lines 12, 8, 3 and 18, then 2, 9 and 10.
    pub fn open(list: &[u32], start: u64, charge: u32) -> Answer
        ensures { result ≡ opened_of list.now start charge }
    {
        Answer::of(Desk::none(), Desk::opened(list, start, charge))
    }

    fn opened(list: &[u32], start: u64, charge: u32) -> Result<Desk, Refusal>
        ensures { handed empty result ≡ opened_of list.now start charge }
    {
        Desk::front_stops(list, start, charge)?;
        Desk::laid_out(list, start, charge)
    }

    // The opening that carries a share p/q for exports with no date: line 19 comes after 18.
    pub fn open_shared(list: &[u32], start: u64, charge: u32, p: u32, q: u32) -> Answer
        ensures { result ≡ opened_shared_of list.now start charge p q }
    {
        let share = Share::of(p, q);
        Answer::of(
            Desk::none(),
            Desk::opened_shared(list, start, charge, share),
        )
    }

    fn opened_shared(list: &[u32], start: u64, charge: u32, share: Share) -> Result<Desk, Refusal>
        ensures { handed empty result ≡ opened_shared_of list.now start charge share.p share.q }
    {
        Desk::front_stops(list, start, charge)?;
        Refusal::NoShare.when(!share.is_share())?;
        Ok(Desk::laid_out(list, start, charge)?.sharing(share))
    }

    // The desk of a list that lines 12, 8, 3 and 18 let pass: lines 2, 9 and 10, then the pieces of the opening instant.
    fn laid_out(list: &[u32], start: u64, charge: u32) -> Result<Desk, Refusal>
        requires { first_of (front_lines list.now start charge) ≡ Ok tt }
        ensures { result ≡ yes_with (first_of (feed_lines (ticks charge) (feeds_in list.now))) (opened_desk (feeds_in list.now) (ticks charge) (instant start)) }
    {
        let feeds = feeds::taken(list);
        let charge = Length::of(charge);
        feeds.sound(charge)?;
        let clock = Instant::at(start);
        let ledger = Ledger::laid(clock, charge, feeds.arrive(charge, clock));
        Ok(Desk::none().with(ledger))
    }

    // One step of one tick.
    pub fn step(self) -> Stepped
        ensures { result ≡ step_of self }
    {
        Stepped::of(self, self.stepped())
    }

    fn stepped(self) -> Result<serving::Stepped, Refusal>
        ensures { stepped_desk self result ≡ step_of self }
    {
        Refusal::NotInOrder.when(!self.in_order())?;
        Desk::served(self.ledger)
    }

    // A step of a state that was found in order, in a place of its own: the stack of the look and of the step is not taken at once.
    #[inline(never)]
    fn served(ledger: Ledger) -> Result<serving::Stepped, Refusal>
        requires { InOrder ledger }
        ensures { result ≡ stepped_of ledger }
    {
        serving::step(ledger)
    }

    // Lines 13 and 7 of an end.
    fn end_stops(self, number: u32) -> Verdict
        ensures { result ≡ first_of (end_lines self number) }
    {
        Refusal::NotInOrder.when(!self.in_order())?;
        Refusal::NothingThere.when(!self.ledger.table.has(number))
    }

    // Ending a job before its time.
    pub fn end(self, number: u32) -> Answer
        ensures { result ≡ end_of self number }
    {
        Answer::of(self, self.ended(number))
    }

    fn ended(self, number: u32) -> Result<Desk, Refusal>
        ensures { handed self result ≡ end_of self number }
    {
        self.end_stops(number)?;
        let ledger = self.ledger;
        let table = ledger.table.end(number);
        Ok(self.with(ledger.moved(ledger.clock, ledger.feeds, table)))
    }

    // Lines 13 and 7 of a rest.
    fn rest_stops(self, position: u32) -> Verdict
        ensures { result ≡ first_of (rest_lines self position) }
    {
        Refusal::NotInOrder.when(!self.in_order())?;
        Refusal::NothingThere.when(self.ledger.feeds.owes_at(position) == Length::NONE)
    }

    // Resting a feed's current piece.
    pub fn rest(self, position: u32) -> Answer
        ensures { result ≡ rest_of self position }
    {
        Answer::of(self, self.rested(position))
    }

    fn rested(self, position: u32) -> Result<Desk, Refusal>
        ensures { handed self result ≡ rest_of self position }
    {
        self.rest_stops(position)?;
        let ledger = self.ledger;
        let feeds = ledger.feeds.rest(position);
        Ok(self.with(ledger.moved(ledger.clock, feeds, ledger.table)))
    }

    // Lines 1, 2 and 3: those of the request itself.
    fn request_stops(clock: Instant, number: u32, work: Length, lead: Length) -> Verdict
        requires { (clock.0 ≤ last_instant) × (lead.0 < 2 ^ 48) }
        ensures { result ≡ first_of (request_lines clock number work lead) }
    {
        Refusal::NumberZero.when(number < Job::LOWEST)?;
        Refusal::Outside.when(!(work.suits_job() && lead.suits_job()))?;
        Refusal::PastLast.when(!clock.plus(lead).within())
    }

    // Lines 4 and 5: those of the place where the job would stand.
    fn place_stops(table: Table, number: u32) -> Verdict
        requires { table.count ≤ most_jobs }
        ensures { result ≡ first_of (place_lines table number) }
    {
        Refusal::NumberLive.when(table.has(number))?;
        Refusal::Full.when(Job::MOST <= table.count)
    }

    // Lines 1 to 5 of a desk in order, and what is asked for where none of them stops it.
    fn asked(self, number: u32, work: Length, lead: Length) -> Result<Job, Refusal>
        requires { (in_order self ≡ true) × (work.0 < 2 ^ 32) × (lead.0 < 2 ^ 48) }
        ensures { result ≡ request_of self number work.0 lead.0 }
    {
        Desk::request_stops(self.ledger.clock, number, work, lead)?;
        Desk::place_stops(self.ledger.table, number)?;
        let owed = work.and(self.ledger.charge);
        Ok(Job::of(number, owed, self.ledger.clock.plus(lead)))
    }

    // What is asked for, unless one of lines 13 and 1 to 5 stops it.
    pub fn request(self, number: u32, work: u32, lead: u32) -> Result<Job, Refusal>
        ensures { result ≡ request_of self number work lead }
    {
        Refusal::NotInOrder.when(!self.in_order())?;
        self.asked(number, Length::of(work), Length::of(lead))
    }

    // Line 6: the request is taken exactly if it fits.
    #[inline(always)]
    fn admit(self, job: Job) -> Result<Desk, Refusal>
        requires { Admissible self job }
        ensures { Judged self job (handed self result) }
    {
        let ledger = self.ledger;
        let next = ledger.moved(ledger.clock, ledger.feeds, ledger.table.taken(job));
        Refusal::DoesNotFit.when(!room::fits(next))?;
        Ok(self.with(next))
    }

    // Asking for a job.
    #[inline(always)]
    pub fn ask(self, number: u32, work: u32, lead: u32) -> Answer
        ensures { Asked self number work lead result }
    {
        Answer::of(self, self.taken(number, work, lead))
    }

    #[inline(always)]
    fn taken(self, number: u32, work: u32, lead: u32) -> Result<Desk, Refusal>
        ensures { Asked self number work lead (handed self result) }
    {
        self.admit(self.request(number, work, lead)?)
    }

    // Lines 13, 1 and 19 of an ask with no date.
    fn undated_stops(self, number: u32) -> Verdict
        ensures { result ≡ first_of (undated_lines self number) }
    {
        Refusal::NotInOrder.when(!self.in_order())?;
        Refusal::NumberZero.when(number < Job::LOWEST)?;
        Refusal::NoShare.when(!self.share.is_share())
    }

    // How far ahead an export with no date is due: its time at the share, from the previous one's deadline on or from now.
    fn undated_lead(self, work: Length) -> Length
        requires { (in_order self ≡ true) × (is_share self.share ≡ true) × (work.0 < 2 ^ 32) }
        ensures { (result ≡ ticks (undated_lead self work.0)) × (result.0 < 2 ^ 48) }
    {
        let clock = self.ledger.clock;
        let time = self.share.time_for(work.and(self.ledger.charge));
        clock.max(self.previous).plus(time).ticks_since(clock)
    }

    // Asking for a job with no date: its deadline goes by the rule, then it is asked for as any other, and a yes is remembered.
    pub fn ask_undated(self, number: u32, work: u32) -> Answer
        ensures { AskedUndated self number work result }
    {
        Answer::of(self, self.taken_undated(number, work))
    }

    #[inline(always)]
    fn taken_undated(self, number: u32, work: u32) -> Result<Desk, Refusal>
        ensures { AskedUndated self number work (handed self result) }
    {
        self.undated_stops(number)?;
        let work = Length::of(work);
        let job = self.asked(number, work, self.undated_lead(work))?;
        Ok(self.admit(job)?.since(job.deadline))
    }

    // Lines 13 and 11 of a list.
    fn list_stops(self, size: usize) -> Verdict
        ensures { result ≡ first_of (list_lines self size) }
    {
        Refusal::NotInOrder.when(!self.in_order())?;
        Refusal::ShortBuffer.when(size < Job::NUMBERS * self.ledger.table.count)
    }

    // The live jobs into the front of a lent buffer, earliest deadline first, and how many they are.
    pub fn list(self, buffer: &mut [u64]) -> Result<usize, Refusal>
        ensures { (result ≡ counted_of self (length buffer.old)) × (buffer.new ≡ listed_of self buffer.old) }
    {
        self.list_stops(buffer.len())?;
        Ok(listing::list(self.ledger.table, buffer))
    }

    // Whom the next step would name; nobody at the clock's last instant and for a state not in order.
    fn runner(self) -> Who
        ensures { result ≡ runner_of self }
    {
        if !self.in_order() {
            return Who::Idle;
        }
        if Instant::LAST <= self.ledger.clock {
            return Who::Idle;
        }
        serving::foremost(self.ledger).who
    }

    // The label of the one that runs, where it stands in the list that holds it.
    pub fn label<'a>(self, job_labels: &'a [u8], feed_labels: &'a [u8]) -> &'a [u8]
        ensures { PartAt (label_of (runner_of self) job_labels.now feed_labels.now) job_labels.entry feed_labels.entry result }
    {
        listing::label(self.runner(), job_labels, feed_labels)
    }

    // The same place by value: which list holds it, from where, and how many bytes.
    pub fn place(self, job_labels: &[u8], feed_labels: &[u8]) -> Part
        ensures { result ≡ label_of (runner_of self) job_labels.now feed_labels.now }
    {
        listing::place(self.runner(), job_labels, feed_labels)
    }
}
