// The state of a box, handed down whole: the clock, the charge, the feeds and the jobs. Whether it is in order, and the one
// way to make a state from another; in its specs how it is read as a book of the mathematics and written from one.
// It must not know refusals, nor the calls.
#![tactic(auto)]

ghost use Rattle.std.specs.Prelude.{◌≡◌};
ghost use Rattle.ledger.specs.State.{laid, empty, moved, in_order};

use feeds::Feeds;
use jobs::Table;
use ticks::{Instant, Length};

#[repr(C)]
#[derive(Clone, Copy)]
pub struct Ledger {
    pub clock: Instant,
    pub charge: Length,
    pub feeds: Feeds,
    pub table: Table,
}

impl Ledger {
    // A state with these feeds and no jobs.
    pub fn laid(clock: Instant, charge: Length, feeds: Feeds) -> Ledger
        ensures { result ≡ laid clock charge feeds }
    {
        Ledger {
            clock,
            charge,
            feeds,
            table: Table::none(),
        }
    }

    // The empty state: clock 0, charge 0, no feeds, no jobs.
    pub fn none() -> Ledger
        ensures { result ≡ empty }
    {
        Ledger::laid(Instant::FIRST, Length::NONE, Feeds::none())
    }

    // Whether any state that is handed in is in order.
    #[tactic(auto, unfolding(crate::specs::State::in_order, lists::specs::Lists::all_of))]
    pub fn in_order(self) -> bool
        ensures { result ≡ in_order self }
    {
        self.clock.within()
            && self.charge.suits_charge()
            && self.feeds.in_order(self.charge, self.clock)
            && self.table.in_order(self.charge, self.clock)
    }

    // The state at another instant, with other pieces and other jobs; everything else stays.
    pub fn moved(self, clock: Instant, feeds: Feeds, table: Table) -> Ledger
        ensures { result ≡ moved self clock feeds table }
    {
        Ledger {
            clock,
            feeds,
            table,
            ..self
        }
    }
}
