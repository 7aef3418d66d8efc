// Every call of the desk for C and Rust: states and answers by value, each refusal as its number.
// It must not know how any call is answered.
#![tactic(auto)]

ghost use Rattle.std.specs.Prelude.{◌≡◌, length};
ghost use Rattle.listing.specs.Labels.{label_of};
ghost use Rattle.desk.specs.Opening.{opened_of, opened_shared_of};
ghost use Rattle.desk.specs.Calls.{step_of, end_of, rest_of, counted_of, listed_of, runner_of};
ghost use Rattle.desk_c.specs.Flat.{flat_answer, flat_step, flat_count, flat_part, flat_why, AskedFlat, AskedMeshFlat, AskedUndatedFlat, WhyFlat};

use desk::Desk;
use listing::{Lent, Part};
use questions::Because;

pub mod wave;

// The state that a call hands back, and 0 for yes or the refusal's number.
#[repr(C)]
#[derive(Clone, Copy)]
pub struct Answer {
    pub desk: Desk,
    pub refusal: u32,
}

// The state that a step hands back and the refusal; whom it named, kind 0 idle, 1 a job by its number, 2 a feed by its
// position; and what that piece of work still owes. All 0 where the step is refused.
#[repr(C)]
#[derive(Clone, Copy)]
pub struct Stepped {
    pub desk: Desk,
    pub refusal: u32,
    pub kind: u32,
    pub number: u32,
    pub owes: u64,
}

// The refusal that an ask would give, 0 for yes. For 6 the earliest instant at which more is owed than there is time, what the
// live jobs, the feeds and the new job owe by then, and the margin, below zero; for 0 the earliest instant that has the
// smallest margin, and that margin. All other values 0.
#[repr(C)]
#[derive(Clone, Copy)]
pub struct Reason {
    pub refusal: u32,
    pub at: u64,
    pub jobs: u64,
    pub feeds: u64,
    pub job: u64,
    pub margin: i64,
}

// How many jobs the list call wrote, 0 where it is refused.
#[repr(C)]
#[derive(Clone, Copy)]
pub struct Listed {
    pub refusal: u32,
    pub count: u32,
}

// Where a label stands: list 1 the job labels, 2 the feed labels; list 1, from 0, size 0 where there is none.
#[repr(C)]
#[derive(Clone, Copy)]
pub struct Label {
    pub list: u32,
    pub from: usize,
    pub size: usize,
}

impl From<desk::Answer> for Answer {
    ghost from_gives = { λ answer flat. flat ≡ flat_answer answer };

    fn from(answer: desk::Answer) -> Answer {
        Answer {
            desk: answer.desk,
            refusal: answers::answer(answer.verdict),
        }
    }
}

impl From<desk::Stepped> for Stepped {
    ghost from_gives = { λ stepped flat. flat ≡ flat_step stepped };

    fn from(stepped: desk::Stepped) -> Stepped {
        Stepped {
            desk: stepped.desk,
            refusal: answers::answer(stepped.verdict),
            kind: stepped.who.kind(),
            number: stepped.who.name(),
            owes: stepped.owes.0,
        }
    }
}

impl From<Because> for Reason {
    ghost from_gives = { λ why flat. flat ≡ flat_why why };

    fn from(why: Because) -> Reason {
        let reason = why.reason;
        Reason {
            refusal: answers::answer(why.verdict),
            at: reason.at.0,
            jobs: reason.jobs.0,
            feeds: reason.feeds.0,
            job: reason.job.0,
            margin: reason.margin,
        }
    }
}

impl From<Part> for Label {
    ghost from_gives = { λ part flat. flat ≡ flat_part part };

    fn from(part: Part) -> Label {
        Label {
            list: match part.list {
                Lent::Jobs => 1,
                Lent::Feeds => 2,
            },
            from: part.from,
            size: part.size,
        }
    }
}

// Opening with a list of feeds, four numbers a feed, at an instant, under a charge.
#[unsafe(no_mangle)]
pub extern "C" fn desk_open(list: &[u32], start: u64, charge: u32) -> Answer
    ensures { result ≡ flat_answer (opened_of list.now start charge) }
{
    Desk::open(list, start, charge).into()
}

// The opening that carries a share p/q for exports with no date.
#[unsafe(no_mangle)]
pub extern "C" fn desk_open_shared(list: &[u32], start: u64, charge: u32, p: u32, q: u32) -> Answer
    ensures { result ≡ flat_answer (opened_shared_of list.now start charge p q) }
{
    Desk::open_shared(list, start, charge, p, q).into()
}

// Asking for a job.
#[unsafe(no_mangle)]
pub extern "C" fn desk_ask(desk: Desk, number: u32, work: u32, lead: u32) -> Answer
    ensures { AskedFlat desk number work lead result }
{
    desk.ask(number, work, lead).into()
}

// Asking with the mesh file itself: the front of the file, its length, and the job's number and lead.
#[unsafe(no_mangle)]
pub extern "C" fn desk_ask_mesh(
    desk: Desk,
    head: &[u8],
    size: u64,
    number: u32,
    lead: u32,
) -> Answer
    ensures { AskedMeshFlat desk head.now size number lead result }
{
    questions::ask_mesh(desk, head, size, number, lead).into()
}

// Asking for a job with no date: the rule gives it its deadline.
#[unsafe(no_mangle)]
pub extern "C" fn desk_ask_undated(desk: Desk, number: u32, work: u32) -> Answer
    ensures { AskedUndatedFlat desk number work result }
{
    desk.ask_undated(number, work).into()
}

// Telling the customer why: what an ask would answer, and what decides it.
#[unsafe(no_mangle)]
pub extern "C" fn desk_why(desk: Desk, number: u32, work: u32, lead: u32) -> Reason
    ensures { WhyFlat desk number work lead result }
{
    questions::why(desk, number, work, lead).into()
}

// One step of one tick.
#[unsafe(no_mangle)]
pub extern "C" fn desk_step(desk: Desk) -> Stepped
    ensures { result ≡ flat_step (step_of desk) }
{
    desk.step().into()
}

// Ending a job before its time.
#[unsafe(no_mangle)]
pub extern "C" fn desk_end(desk: Desk, number: u32) -> Answer
    ensures { result ≡ flat_answer (end_of desk number) }
{
    desk.end(number).into()
}

// Resting a feed's current piece.
#[unsafe(no_mangle)]
pub extern "C" fn desk_rest(desk: Desk, position: u32) -> Answer
    ensures { result ≡ flat_answer (rest_of desk position) }
{
    desk.rest(position).into()
}

// The live jobs into the front of a lent buffer.
#[unsafe(no_mangle)]
pub extern "C" fn desk_list(desk: Desk, buffer: &mut [u64]) -> Listed
    ensures { (result ≡ flat_count (counted_of desk (length buffer.old))) × (buffer.new ≡ listed_of desk buffer.old) }
{
    match desk.list(buffer) {
        Ok(count) => Listed {
            refusal: 0,
            count: count as u32,
        },
        Err(refusal) => Listed {
            refusal: refusal.number(),
            count: 0,
        },
    }
}

// Where the label of the one that runs stands in the lent lists.
#[unsafe(no_mangle)]
pub extern "C" fn desk_label(desk: Desk, jobs: &[u8], feeds: &[u8]) -> Label
    ensures { result ≡ flat_part (label_of (runner_of desk) jobs.now feeds.now) }
{
    desk.place(jobs, feeds).into()
}
