//! The row of a hart's next event, from the links into it: the rows of the events that a rule
//! links, joined.
ghost use Rattle.std.specs.Prelude.{ℕ, ◌≡◌, ◌↔◌, ◌⊎◌, ◌<◌, All, IsTrue, false};
ghost use Rattle.rv_rows.specs.Bits.{Has, has_bit};
ghost use Rattle.rv_hart.specs.Harts.{hart_with};
ghost use Rattle.rv_hart.specs.Kept.{hart_at, IsNext};
ghost use Rattle.rv_hart.specs.Linked.{IsLinked, HaveRows, HasOwn};
ghost use Rattle.rv_hart.specs.Rows.{IsBefore};
ghost use Rattle.rv_hart.specs.RuleLinks.{AreEnoughLinks};

use crate::next::Next;
use rv_event::{Link, Reason};
use rv_rows::{Row, Rows};

impl Next<'_> {
    /// Puts the row of the hart's next event into an empty one: the event and the events from which
    /// rules lead to it, where it is a memory operation. Where a link of the hart names no rule,
    /// and no other link leads to its event, the candidates are swept.
    pub fn fill_row(&self, links: &[Link], row: &mut Row)
        requires next { IsNext self.now }
        requires linked { AreEnoughLinks (hart_at self.now) self.now.event.now links.now }
        requires empty { (s : ℕ) → has_bit row.old s ≡ false }
        ensures { (s : ℕ) → Has row.new s
            ↔ IsBefore (hart_with (hart_at self.now) self.now.event.now) s self.now.event.now.id.seq }
    {
        if !self.event.is_memory() {
            return;
        }
        row.insert(self.event.id.seq as usize);
        join_linked(row, &self.kept.rows, links);
        if !has_own_links(row, self.kept.number, links) {
            self.add_swept(row);
        }
    }
}

/// Puts in the rows of the events that a rule links.
fn join_linked(row: &mut Row, rows: &Rows, links: &[Link])
    requires { HaveRows rows.now links.now }
    ensures { (s : ℕ) → Has row.new s ↔ (Has row.old s ⊎ IsLinked rows.now links.now s) }
{
    for link in links {
        if let Reason::Preserved(_rule) = link.reason {
            rows.join_into(link.id.seq as usize, row);
        }
    }
}

/// Whether the row has the event of each link of the hart with this number.
fn has_own_links(row: &Row, number: u8, links: &[Link]) -> bool
    ensures { IsTrue result ↔ All (HasOwn row.now number) links.now }
{
    for link in links {
        if link.id.hart == number && !has_number(row, link.id.seq as usize) {
            return false;
        }
    }
    true
}

/// Whether the row has the number, and it is below 4,096.
fn has_number(row: &Row, number: usize) -> bool
    ensures { IsTrue result ↔ ((number < 4096) × Has row.now number) }
{
    number < 4096 && row.has(number)
}
