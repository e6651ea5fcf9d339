//! Walks back over the memory operations of a word: rules 1 and 2 of preserved program order
//! (manual, section 14.1).
ghost use Rattle.std.specs.Prelude.{ℕ, ◌≡◌, ◌≢◌, ◌↔◌, IsTrue, false};
ghost use Rattle.rv_event.specs.Operations.{IsLoad};
ghost use Rattle.rv_rows.specs.Bits.{has_bit};
ghost use Rattle.rv_hart.specs.Kept.{hart_at, IsAsked};
ghost use Rattle.rv_hart.specs.RuleRows.{IsLastOther, IsLeadingRow};

use crate::next::Next;
use rv_event::Event;
use rv_rows::Row;

impl Next<'_> {
    /// Rule 1: puts into an empty row, where the event is a store, the operations of its word back
    /// to the last store, which all earlier ones lead to.
    pub fn fill_overlapping(&self, row: &mut Row)
        requires asked { IsAsked self.now }
        requires empty { (s : ℕ) → has_bit row.old s ≡ false }
        ensures { IsLeadingRow (hart_at self.now) self.now.event.now 1 row.new }
    {
        if !self.event.is_store() {
            return;
        }
        let mut next = self.kept.words.last(self.event.word);
        'met: while let Some(number) = next {
            let number = number as usize;
            row.insert(number);
            let met = self.events.at(number);
            if met.is_store() {
                return;
            }
            let link = self.kept.words.link_at(number);
            next = link.previous;
        }
    }

    /// Rule 2: puts into an empty row, where the event is a load, the nearest run of loads of its
    /// word that returned one other version, which all earlier ones lead to.
    #[inline(always)]
    pub fn fill_different_reads(&self, row: &mut Row)
        requires asked { IsAsked self.now }
        requires empty { (s : ℕ) → has_bit row.old s ≡ false }
        ensures { IsLeadingRow (hart_at self.now) self.now.event.now 2 row.new }
    {
        if !self.event.is_load() {
            return;
        }
        let mut next = self.kept.words.last(self.event.word);
        'met: while let Some(number) = next {
            let met = self.events.at(number as usize);
            if is_other_read(met, self.event) {
                self.fill_run(number, row);
                return;
            }
            if met.is_store() {
                return;
            }
            let link = self.kept.words.link_at(number as usize);
            next = link.before_run;
        }
    }

    /// Puts into an empty row the loads of the event's word that returned what the one with this
    /// number did, from that one back to the next store or load of another version.
    #[inline(never)]
    fn fill_run(&self, number: u32, row: &mut Row)
        requires asked { IsAsked self.now }
        requires last { IsLastOther (hart_at self.now) self.now.event.now number }
        requires empty { (s : ℕ) → has_bit row.old s ≡ false }
        ensures { IsLeadingRow (hart_at self.now) self.now.event.now 2 row.new }
    {
        let version = self.events.at(number as usize).read;
        let mut next = Some(number);
        'run: while let Some(number) = next {
            let met = self.events.at(number as usize);
            if !met.is_load() || met.read != version {
                return;
            }
            row.insert(number as usize);
            if met.is_store() {
                return;
            }
            let behind = self.kept.words.link_at(number as usize);
            next = behind.previous;
        }
    }
}

/// Whether it is a load that returned another version than the event.
fn is_other_read(met: &Event, event: &Event) -> bool
    ensures { IsTrue result ↔ (IsLoad met.now × (met.now.read ≢ event.now.read)) }
{
    met.is_load() && met.read != event.read
}
