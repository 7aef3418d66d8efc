// The live jobs: what each still owes and by when, in a table in the order of their deadlines, and beside each the figure on the
// screen: what all live jobs due no later still owe together. Look-up by number, taking one more, taking one out, serving
// one, and the part of a state in order that concerns jobs.
// It must not know feeds, nor what fits, nor who is served.
#![tactic(auto)]

ghost use Rattle.std.specs.Prelude.{◌≡◌, true, not, [], ◌∷◌, ◌++◌, ℕ, ◌+◌, ◌*◌, ◌≤◌, ◌<◌, ◌^◌, get_or, take, drop, map};
ghost use Rattle.lists.specs.Lists.{every, Each};
ghost use Rattle.ticks.specs.Ticks.{most_charge, ticks};
ghost use Rattle.jobs.specs.Jobs.{most_jobs, numbers_a_job, no_job, job, job_in, unused_job, live, table_of, Tidy, found_in, distinct};
ghost use Rattle.jobs.specs.Jobs.{table_in, times, lacks, others};
ghost use Rattle.jobs.specs.Figures.{owes_by, owed_by, most_owed, Modest, showing, raised, lowered, figured, Figured, figure_agrees, agrees_beside};
ghost use Rattle.jobs.specs.Sorted.{before, rising, Sorted, place_of, insert};
ghost use Rattle.jobs.specs.Served.{Owing, owing_less, served};

use ticks::{Instant, Length};

// A customer's export that was promised: it still owes `owed` ticks before the deadline.
#[repr(C)]
#[derive(Clone, Copy, PartialEq, Eq)]
pub struct Job {
    pub number: u32,
    pub owed: Length,
    pub deadline: Instant,
    // What all live jobs due no later still owe together, itself included.
    pub figure: Length,
}

// The live jobs stand at the front, earliest deadline first, lower number first on equal ones; the places after them are all
// zero.
#[repr(C)]
#[derive(Clone, Copy)]
pub struct Table {
    pub count: usize,
    pub jobs: [Job; Job::MOST],
}

impl Job {
    // As many jobs as there are places.
    pub const MOST: usize = 64;
    // As many numbers as the list call writes of a job: its number, what it owes, its deadline and its figure.
    pub const NUMBERS: usize = 4;
    // The lowest number that a job may have; the highest is the highest of 32 bits.
    pub const LOWEST: u32 = 1;
    // A place that no job has.
    pub const NONE: Job = Job {
        number: 0,
        owed: Length::NONE,
        deadline: Instant::FIRST,
        figure: Length::NONE,
    };

    pub fn most() -> usize
        ensures { result ≡ most_jobs }
    {
        Job::MOST
    }

    pub fn numbers() -> usize
        ensures { result ≡ numbers_a_job }
    {
        Job::NUMBERS
    }

    pub fn none() -> Job
        ensures { result ≡ no_job }
    {
        Job::NONE
    }

    // A job as it is asked for: it owes all its work, and the charge; it has its figure from the table that takes it.
    pub fn of(number: u32, owed: Length, deadline: Instant) -> Job
        ensures { result ≡ job number owed deadline }
    {
        Job {
            number,
            owed,
            deadline,
            figure: Length::NONE,
        }
    }

    // It counts from its deadline on.
    #[tactic(auto, unfolding(crate::specs::Figures::owes_by))]
    pub fn owes_by(self, by: Instant) -> Length
        ensures { result ≡ ticks (owes_by by.0 self) }
    {
        if self.deadline <= by {
            self.owed
        } else {
            Length::NONE
        }
    }

    // The earlier deadline first, then the lower number.
    #[tactic(auto, unfolding(crate::specs::Sorted::before))]
    fn before(self, other: Job) -> bool
        ensures { result ≡ before self other }
    {
        (self.deadline, self.number) < (other.deadline, other.number)
    }

    // This job's figure beside that of the job after it, or where that one is due later beside what has been added up with this
    // one.
    #[tactic(auto, unfolding(crate::specs::Figures::agrees_beside))]
    fn agrees(self, after: Job, sum: Length) -> bool
        ensures { result ≡ agrees_beside self after sum.0 }
    {
        if self.deadline == after.deadline {
            self.figure == after.figure
        } else {
            self.figure == sum
        }
    }

    fn showing(self, figure: Length) -> Job
        ensures { result ≡ showing figure.0 self }
    {
        Job { figure, ..self }
    }

    // Another job is there too: this one shows it if it is due no later.
    fn raised(self, other: Job) -> Job
        requires { self.figure.0 + owes_by self.deadline.0 other < 2 ^ 64 }
        ensures { result ≡ raised other self }
    {
        self.showing(self.figure.and(other.owes_by(self.deadline)))
    }

    // Another job is there no more.
    fn lowered(self, other: Job) -> Job
        requires { owes_by self.deadline.0 other ≤ self.figure.0 }
        ensures { result ≡ lowered other self }
    {
        self.showing(self.figure.less(other.owes_by(self.deadline)))
    }

    // A live job that is in order at this instant, under this charge.
    #[tactic(auto, unfolding(crate::specs::Jobs::job_in, lists::specs::Lists::all_of))]
    pub fn within(self, charge: Length, clock: Instant) -> bool
        requires { charge.0 ≤ most_charge }
        ensures { result ≡ job_in charge clock self }
    {
        Job::LOWEST <= self.number
            && self.owed.suits_owed(charge)
            && clock < self.deadline
            && self.deadline.ticks_since(clock).suits_job()
            && self.deadline.within()
    }

    #[tactic(auto, unfolding(crate::specs::Jobs::unused_job, lists::specs::Lists::all_of))]
    pub fn is_none(self) -> bool
        ensures { result ≡ unused_job self }
    {
        self == Job::NONE
    }
}

impl Table {
    // As many marks as a byte has values.
    const MARKS: usize = 256;

    pub fn none() -> Table
        ensures { result ≡ table_of [] }
    {
        Table {
            count: 0,
            jobs: [Job::NONE; Job::MOST],
        }
    }

    fn all_within(self, charge: Length, clock: Instant) -> bool
        requires { (self.count ≤ most_jobs) × (charge.0 ≤ most_charge) }
        ensures { result ≡ every (job_in charge clock) (live self) }
    {
        self.jobs[..self.count]
            .iter()
            .all(|job| job.within(charge, clock))
    }

    // The places after the live jobs are all zero.
    fn rest_unused(self) -> bool
        requires { self.count ≤ most_jobs }
        ensures { result ≡ every unused_job (drop self.count self.jobs) }
    {
        self.jobs[self.count..].iter().all(|job| job.is_none())
    }

    // The place of the live job with this number.
    pub fn find(self, number: u32) -> Option<usize>
        requires { self.count ≤ most_jobs }
        ensures { result ≡ found_in number 0 (live self) }
    {
        self.jobs[..self.count]
            .iter()
            .position(|job| job.number == number)
    }

    // Whether a live job has this number.
    pub fn has(self, number: u32) -> bool
        requires { self.count ≤ most_jobs }
        ensures { result ≡ not (lacks number (live self)) }
    {
        self.jobs[..self.count]
            .iter()
            .any(|job| job.number == number)
    }

    // A mark for each number by its lowest byte, set as the jobs are passed: where none is set already, no number stands twice.
    fn no_mark_twice(self) -> bool
        requires { self.count ≤ most_jobs }
        ensures { result ≡ true → distinct (live self) ≡ true }
    {
        let mut marks = [false; Table::MARKS];
        for job in &self.jobs[..self.count] {
            let mark = job.number as usize % Table::MARKS;
            if marks[mark] {
                return false;
            }
            marks[mark] = true;
        }
        true
    }

    // Each number beside those behind it. Both loops stand here: a look from outside at each job in turn would copy the table
    // each time.
    fn numbers_differ(self) -> bool
        requires { self.count ≤ most_jobs }
        ensures { result ≡ distinct (live self) }
    {
        let mut live = &self.jobs[..self.count];
        while let [job, behind @ ..] = live {
            if behind.iter().any(|other| other.number == job.number) {
                return false;
            }
            live = behind;
        }
        true
    }

    // Only where two share a mark is each number looked at beside the others.
    fn no_number_twice(self) -> bool
        requires { self.count ≤ most_jobs }
        ensures { result ≡ distinct (live self) }
    {
        self.no_mark_twice() || self.numbers_differ()
    }

    // Each job stands before the next.
    fn rising(self) -> bool
        requires { self.count ≤ most_jobs }
        ensures { result ≡ rising (live self) }
    {
        self.jobs[..self.count].is_sorted_by(|job, next| job.before(*next))
    }

    // Each figure is the sum done afresh, in one pass: those due together show the same, and the last of them all that has been
    // added up.
    fn figures_agree(self) -> bool
        requires { (self.count ≤ most_jobs) × Each Modest (live self) × Each (λ j. 0 < j.deadline.0) (live self) × Sorted (live self) }
        ensures { result ≡ every (figure_agrees (live self)) (live self) }
    {
        let mut sum = Length::NONE;
        let mut last = Job::NONE;
        for job in &self.jobs[..self.count] {
            if !last.agrees(*job, sum) {
                return false;
            }
            sum = sum.and(job.owed);
            last = *job;
        }
        last.figure == sum
    }

    // What the live jobs due by an instant still owe together: what the last of them shows.
    pub fn owed_by(self, by: Instant) -> Length
        requires { (self.count ≤ most_jobs) × Sorted (live self) × Figured (live self) }
        ensures { result ≡ ticks (owed_by by.0 (live self)) }
    {
        self.jobs[..self.count]
            .iter()
            .rev()
            .find(|job| job.deadline <= by)
            .map_or(Length::NONE, |job| job.figure)
    }

    // Whether any table that is handed in is in order at this instant, under this charge. What each job owes is bounded
    // before anything is added up.
    #[tactic(auto, using(crate::proofs::Limits::ready_to_add_up), unfolding(crate::specs::Jobs::table_in, lists::specs::Lists::all_of))]
    pub fn in_order(self, charge: Length, clock: Instant) -> bool
        requires { charge.0 ≤ most_charge }
        ensures { result ≡ table_in charge clock self }
    {
        self.count <= Job::MOST
            && self.all_within(charge, clock)
            && self.no_number_twice()
            && self.rising()
            && self.figures_agree()
            && self.rest_unused()
    }

    // Those due no earlier than a job show it too.
    fn raised(self, job: Job) -> Table
        requires { Tidy self × Each (λ j. j.figure.0 + owes_by j.deadline.0 job < 2 ^ 64) (live self) }
        ensures { result ≡ table_of (map (raised job) (live self)) }
    {
        let mut jobs = self.jobs;
        for other in &mut jobs[..self.count] {
            *other = other.raised(job);
        }
        Table { jobs, ..self }
    }

    // Those due no earlier than a job show it no more.
    fn lowered(self, job: Job) -> Table
        requires { Tidy self × Each (λ j. owes_by j.deadline.0 job ≤ j.figure.0) (live self) }
        ensures { result ≡ table_of (map (lowered job) (live self)) }
    {
        let mut jobs = self.jobs;
        for other in &mut jobs[..self.count] {
            *other = other.lowered(job);
        }
        Table { jobs, ..self }
    }

    // Where a job has its place: before the first that it stands before.
    fn place_of(self, job: Job) -> usize
        requires { self.count ≤ most_jobs }
        ensures { result ≡ place_of job (live self) }
    {
        self.jobs[..self.count]
            .iter()
            .position(|other| job.before(*other))
            .unwrap_or(self.count)
    }

    // One more job at a place; those from there on move up. No figure changes.
    fn put(self, at: usize, job: Job) -> Table
        requires { Tidy self × (self.count < most_jobs) × (at ≤ self.count) }
        ensures { result ≡ table_of (take at (live self) ++ (job ∷ drop at (live self))) }
    {
        let mut table = self;
        table.jobs.copy_within(at..self.count, at + 1);
        table.jobs[at] = job;
        table.count = self.count + 1;
        table
    }

    // One more job, in its place. It shows what those due no later owe, and itself.
    pub fn taken(self, job: Job) -> Table
        requires { Tidy self × (self.count < most_jobs) × Sorted (live self) × Each Modest (live self) × Figured (live self) × Modest job }
        ensures { result ≡ table_of (figured (insert job (live self))) }
    {
        let at = self.place_of(job);
        let figure = self.owed_by(job.deadline).and(job.owed);
        self.raised(job).put(at, job.showing(figure))
    }

    // One job out; those behind it close up. No figure changes.
    pub fn without(self, at: usize) -> Table
        requires { Tidy self × (at < self.count) }
        ensures { result ≡ table_of (take at (live self) ++ drop (at + 1) (live self)) }
    {
        let last = self.count - 1;
        let mut table = self;
        table.jobs.copy_within(at + 1..self.count, at);
        table.jobs[last] = Job::NONE;
        table.count = last;
        table
    }

    // The job at a place has so many ticks fewer to get; it and those due no earlier show so many fewer.
    fn owing_less(self, at: usize, by: Length) -> Table
        requires { Tidy self × (at < self.count) × Figured (live self) × (by.0 ≤ (get_or (live self) at no_job).owed.0) }
        ensures { result ≡ table_of (figured (owing_less at by.0 (live self))) }
    {
        let job = self.jobs[at];
        let mut table = self.lowered(Job::of(job.number, by, job.deadline));
        table.jobs[at].owed = job.owed.less(by);
        table
    }

    // The job of this number is out, and with it all that it owed; those behind it close up.
    pub fn end(self, number: u32) -> Table
        requires { Tidy self × Figured (live self) × ((n : ℕ) → times n (live self) ≤ 1) }
        ensures { result ≡ table_of (figured (others number (live self))) }
    {
        match self.find(number) {
            Some(at) => self.owing_less(at, self.jobs[at].owed).without(at),
            None => self,
        }
    }

    // The job of this number has one tick less to get; it leaves with its last.
    pub fn serve(self, number: u32) -> Table
        requires { Tidy self × Each Owing (live self) × Figured (live self) × ((n : ℕ) → times n (live self) ≤ 1) }
        ensures { result ≡ table_of (figured (served number (live self))) }
    {
        match self.find(number) {
            Some(at) => {
                let table = self.owing_less(at, Length::of(1));
                if table.jobs[at].owed == Length::NONE {
                    table.without(at)
                } else {
                    table
                }
            }
            None => self,
        }
    }
}
