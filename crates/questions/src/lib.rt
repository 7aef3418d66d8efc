// The counter's other questions: asking with the mesh file itself, and why a request is refused or how close it comes.
// It must not know how the desk decides: it asks it.
#![tactic(auto)]

ghost use Rattle.std.specs.Prelude.{◌≡◌};
ghost use Rattle.desk.specs.Asking.{Admissible};
ghost use Rattle.questions.specs.Meshes.{AskedMesh};
ghost use Rattle.questions.specs.Whys.{Told, Explained};

use answers::{Refusal, Verdict};
use desk::{Answer, Desk};
use jobs::Job;
use reasons::Reason;

// What the customer is told of a request: what an ask would answer; for 6 the earliest instant at which more is owed than
// there is time, who owes it and the margin there; for a yes the earliest instant that has the smallest margin, and that
// margin. Nothing beside another refusal.
#[derive(Clone, Copy)]
pub struct Because {
    pub verdict: Verdict,
    pub reason: Reason,
}

// Asking with the mesh file itself: the front of the file and its length tell the work.
pub fn ask_mesh(desk: Desk, head: &[u8], size: u64, number: u32, lead: u32) -> Answer
    ensures { AskedMesh desk head.now size number lead result }
{
    match mesh::read(head, size) {
        Ok(work) => desk.ask(number, work, lead),
        Err(_) if !desk.in_order() => Answer::of(desk, Err(Refusal::NotInOrder)),
        Err(refusal) => Answer::of(desk, Err(refusal)),
    }
}

// Line 6, told by the instant that decides it.
fn explain(desk: Desk, job: Job) -> Because
    requires { Admissible desk job }
    ensures { Told desk job result }
{
    let ledger = desk.ledger;
    let all = ledger.moved(ledger.clock, ledger.feeds, ledger.table.taken(job));
    let debt = reasons::tightest(all);
    let reason = reasons::reason_at(ledger, job, debt.at);
    if debt.at.ticks_since(ledger.clock) < debt.owed {
        return Because {
            verdict: Err(Refusal::DoesNotFit),
            reason,
        };
    }
    Because {
        verdict: Ok(()),
        reason: Reason::near(debt.at, reason.margin),
    }
}

// Telling the customer why: what an ask would answer, and what decides it. It changes nothing.
pub fn why(desk: Desk, number: u32, work: u32, lead: u32) -> Because
    ensures { Explained desk number work lead result }
{
    match desk.request(number, work, lead) {
        Ok(job) => explain(desk, job),
        Err(refusal) => Because {
            verdict: Err(refusal),
            reason: Reason::none(),
        },
    }
}
