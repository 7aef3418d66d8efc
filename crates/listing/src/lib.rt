// What a caller reads off the desk into lists of its own: the live jobs, and the label of the one that runs.
// It must not know feeds, refusals, nor who the runner is.
#![tactic(auto)]

ghost use Rattle.std.specs.Prelude.{◌≡◌, ◌++◌, ◌+◌, ◌*◌, ◌≤◌, ◌<◌, length, take, drop};
ghost use Rattle.jobs.specs.Jobs.{numbers_a_job, live, Tidy};
ghost use Rattle.listing.specs.Words.{words_of, words};
ghost use Rattle.listing.specs.Labels.{big_endian, record_of, job_place, feed_place, label_of, PartAt};

use answers::Who;
use jobs::{Job, Table};

// One of the two lent lists.
#[derive(Clone, Copy)]
pub enum Lent {
    Jobs,
    Feeds,
}

// A part of one of the two lent lists: where it begins, and how many bytes it has.
#[derive(Clone, Copy)]
pub struct Part {
    pub list: Lent,
    pub from: usize,
    pub size: usize,
}

impl Part {
    // No label: the empty beginning of the job labels.
    pub const NOWHERE: Part = Part {
        list: Lent::Jobs,
        from: 0,
        size: 0,
    };
}

// A record of the job labels: the job's number in four bytes, then its label. The feed labels are labels alone.
const NUMBER: usize = 4;

const LABEL: usize = 8;

const RECORD: usize = NUMBER + LABEL;

// The numbers of a job, from one place of the buffer on.
fn put(buffer: &mut [u64], at: usize, job: Job)
    requires { at + numbers_a_job ≤ length buffer.old }
    ensures { buffer.new ≡ take at buffer.old ++ (words_of job ++ drop (at + numbers_a_job) buffer.old) }
{
    let numbers = [
        u64::from(job.number),
        job.owed.0,
        job.deadline.0,
        job.figure.0,
    ];
    buffer[at..at + Job::NUMBERS].copy_from_slice(&numbers);
}

// The live jobs into the front of the buffer, as they stand in the table; the rest of it is untouched.
pub fn list(table: Table, buffer: &mut [u64]) -> usize
    requires { Tidy table × (numbers_a_job * table.count ≤ length buffer.old) }
    ensures { (result ≡ length (live table)) × (buffer.new ≡ words (live table) ++ drop (numbers_a_job * table.count) buffer.old) }
{
    for (i, job) in table.jobs[..table.count].iter().enumerate() {
        put(buffer, Job::NUMBERS * i, *job);
    }
    table.count
}

// The number of a record.
fn number_of(bytes: &[u8; RECORD]) -> u32
    ensures { result ≡ big_endian bytes.now 0 }
{
    u32::from_be_bytes([bytes[0], bytes[1], bytes[2], bytes[3]])
}

// The label of the first whole record with this number stands behind the number.
fn job_place(number: u32, labels: &[u8]) -> Part
    ensures { result ≡ job_place (record_of labels.now number) }
{
    let (records, _) = labels.as_chunks::<RECORD>();
    let found = records
        .iter()
        .position(|record| number_of(record) == number);
    match found {
        Some(k) => Part {
            list: Lent::Jobs,
            from: RECORD * k + NUMBER,
            size: LABEL,
        },
        None => Part::NOWHERE,
    }
}

// The place of a position's label in so many bytes.
fn feed_place(position: u32, long: usize) -> Part
    ensures { result ≡ feed_place position long }
{
    let end = LABEL * position as usize;
    if position == 0 || long < end {
        return Part::NOWHERE;
    }
    Part {
        list: Lent::Feeds,
        from: end - LABEL,
        size: LABEL,
    }
}

// Where the runner's label stands; the empty beginning of the first list where there is none.
pub fn place(runner: Who, job_labels: &[u8], feed_labels: &[u8]) -> Part
    ensures { result ≡ label_of runner job_labels.now feed_labels.now }
{
    match runner {
        Who::Job(number) => job_place(number, job_labels),
        Who::Feed(position) => feed_place(position, feed_labels.len()),
        Who::Idle => Part::NOWHERE,
    }
}

// The runner's label itself, a part of the list that holds it.
pub fn label<'a>(runner: Who, job_labels: &'a [u8], feed_labels: &'a [u8]) -> &'a [u8]
    ensures { PartAt (label_of runner job_labels.now feed_labels.now) job_labels.entry feed_labels.entry result }
{
    let Part { list, from, size } = place(runner, job_labels, feed_labels);
    let labels = match list {
        Lent::Jobs => job_labels,
        Lent::Feeds => feed_labels,
    };
    &labels[from..from + size]
}
