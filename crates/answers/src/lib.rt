// What calls answer with: yes, or why not, one case for each number of the rules; and whom a tick goes to.
// It must not know the calls.
#![tactic(auto)]

ghost use Rattle.std.specs.Prelude.{◌≡◌, cond, Ok, Err};
ghost use Rattle.answers.specs.Answers.{number_of, answer_of, kind_of, name_of};

// Why a call is refused.
#[derive(Clone, Copy, PartialEq, Eq)]
pub enum Refusal {
    NumberZero = 1,
    Outside = 2,
    PastLast = 3,
    NumberLive = 4,
    Full = 5,
    DoesNotFit = 6,
    NothingThere = 7,
    TooManyFeeds = 8,
    RoundTooLong = 9,
    TooMuchLoad = 10,
    ShortBuffer = 11,
    NotWholeFeeds = 12,
    NotInOrder = 13,
    ShortFront = 15,
    LengthOff = 16,
    NoTriangles = 17,
    ChargeTooHigh = 18,
    NoShare = 19,
    NoWaveform = 20,
}

// A yes, or the refusal.
pub type Verdict = Result<(), Refusal>;

// Whom a tick goes to: a job by its number, a feed by its position, or nobody. Of two, the tick goes to the lesser.
#[derive(Clone, Copy, PartialEq, Eq, PartialOrd, Ord)]
pub enum Who {
    Job(u32),
    Feed(u32),
    Idle,
}

impl Refusal {
    // The number that the rules give it.
    pub fn number(self) -> u32
        ensures { result ≡ number_of self }
    {
        self as u32
    }

    // A line of the rules: refused where its condition holds.
    pub fn when(self, holds: bool) -> Verdict
        ensures { result ≡ cond holds (Err self) (Ok tt) }
    {
        if holds { Err(self) } else { Ok(()) }
    }
}

// 0 for a yes, else the refusal's number.
pub fn answer(verdict: Verdict) -> u32
    ensures { result ≡ answer_of verdict }
{
    match verdict {
        Ok(()) => 0,
        Err(refusal) => refusal.number(),
    }
}

impl Who {
    // 0 nobody, 1 a job, 2 a feed.
    pub fn kind(self) -> u32
        ensures { result ≡ kind_of self }
    {
        match self {
            Who::Idle => 0,
            Who::Job(_) => 1,
            Who::Feed(_) => 2,
        }
    }

    // The job's number or the feed's position; 0 for nobody.
    pub fn name(self) -> u32
        ensures { result ≡ name_of self }
    {
        match self {
            Who::Job(number) => number,
            Who::Feed(position) => position,
            Who::Idle => 0,
        }
    }
}
