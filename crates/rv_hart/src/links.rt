//! The links of a hart's next event, each with its lowest rule, and its row where links do not say
//! it: candidates and the sweep.
ghost use Rattle.std.specs.Prelude.{ℕ, ◌↔◌, ◌⊎◌, IfOk};
ghost use Rattle.rv_rows.specs.Bits.{Has};
ghost use Rattle.rv_hart.specs.Harts.{hart_with};
ghost use Rattle.rv_hart.specs.Kept.{hart_at, IsNext, IsAsked};
ghost use Rattle.rv_hart.specs.Rows.{IsBefore};
ghost use Rattle.rv_hart.specs.RuleLinks.{AreRuleLinks};

use crate::next::Next;
use rv_event::{Id, Link, NoMemory, Reason};
use rv_rows::{Row, take_highest};

/// How many links there is room for at once, those for other reasons included.
const USUAL_LINKS: usize = 8;

impl Next<'_> {
    /// The links of the hart's next event, in place of what the list had. What is no memory
    /// operation has none.
    ///
    /// # Errors
    /// `NoMemory` where the list could not grow; it is gone.
    pub fn before(&self, list: Vec<Link>) -> Result<Vec<Link>, NoMemory>
        requires next { IsNext self.now }
        ensures { IfOk result (λ links. AreRuleLinks (hart_at self.now) self.now.event.now links.items) }
    {
        let mut links = list;
        links.clear();
        if !self.event.is_memory() {
            return Ok(links);
        }
        links.reserve(USUAL_LINKS)?;
        let mut left = Row::new();
        let mut reads = Row::new();
        self.fill_different_reads(&mut reads);
        self.fill_candidates(&reads, &mut left);
        let mut top = self.kept.rows.len();
        'taken: while let Some(number) = take_highest(&mut left, &self.kept.rows, top) {
            top = number;
            let rule = self.lowest_rule(&reads, number);
            links.push(Link {
                id: Id {
                    hart: self.kept.number,
                    seq: number as u32,
                },
                reason: Reason::Preserved(rule),
            })?;
        }
        Ok(links)
    }

    /// Puts in the row of the hart's next event, a memory operation: it and the events from which
    /// rules lead to it.
    #[inline(never)]
    pub fn add_swept(&self, row: &mut Row)
        requires asked { IsAsked self.now }
        ensures { (s : ℕ) → Has row.new s
            ↔ (Has row.old s ⊎ IsBefore (hart_with (hart_at self.now) self.now.event.now) s self.now.event.now.id.seq) }
    {
        let mut reads = Row::new();
        self.fill_different_reads(&mut reads);
        let mut left = Row::new();
        self.fill_candidates(&reads, &mut left);
        row.insert(self.event.id.seq as usize);
        let mut top = self.kept.rows.len();
        'taken: while let Some(number) = take_highest(&mut left, &self.kept.rows, top) {
            top = number;
            self.kept.rows.join_into(number, row);
        }
    }
}
