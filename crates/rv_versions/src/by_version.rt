//! The accesses to one word, in the order of their versions.
//!
//! Where events come in commit order, an access goes to the end, and what is asked is nearly always
//! answered by the last accesses. So each function looks at these first, and searches only where
//! they do not answer: from the end back, so that it costs the less, the later the version is.
ghost use Rattle.std.specs.Prelude.{ℕ, ◌≡◌, ◌+◌, ◌<◌, ◌≤◌, ◌↔◌, [], List, length, Contains, Some, OnOk};
ghost use Rattle.std.specs.Prelude.{OnErr, IfSome, MatchOption};
ghost use Rattle.std.specs.List.{HoldsAt, AllWithin};
ghost use Rattle.rv_versions.specs.Accesses.{IsStart, IsLower, IsFirstFrom};
ghost use Rattle.rv_versions.specs.Indexes.{IsInserted, IsRemoved};
ghost use Rattle.rv_versions.specs.declared.accesses.Access.{Access};

use crate::accesses::Access;
use rv_event::NoMemory;
use std::alloc::Global;
use std::marker::Model;

/// How many of the last accesses are looked at before the search.
const NEAR: usize = 8;

/// The accesses to one word, in the order of their versions. Those of one version stand in the
/// order in which they came.
///
/// Contracts see the list. Its type keeps the order, and that no access stands in it twice.
#[derive(Drop)]
pub struct ByVersion {
    accesses: Vec<Access>,
}

impl Model for ByVersion {
    ghost use Rattle.std.specs.Prelude.{List};
    ghost use Rattle.rv_versions.specs.Accesses.{AreByVersion};
    ghost use Rattle.rv_versions.specs.declared.accesses.Access.{Access};

    ghost Value = { List Access };

    ghost view = { λ a. a.accesses.items };

    ghost invariant = { λ a. AreByVersion a.accesses.items };
}

impl ByVersion {
    /// No accesses. It takes no memory.
    pub fn new(alloc: Global) -> Self
        ensures { result ≡ [] }
    {
        ByVersion {
            accesses: Vec::new(alloc),
        }
    }

    /// Puts the access in, where there is one. It is not there yet.
    ///
    /// It costs a step where no version is higher, and else a search and the moving of what stands
    /// behind it.
    ///
    /// # Errors
    /// `NoMemory`; the accesses are then as they were.
    #[inline(always)]
    pub fn insert_posting(&mut self, posting: Option<Access>) -> Result<(), NoMemory>
        requires { (x : Access) → posting ≡ Some x → Contains self.old x → ⊥ }
        ensures inserted { OnOk result (IsInserted self.old posting self.new) }
        ensures unchanged { OnErr result (self.new ≡ self.old) }
    {
        if let Some(access) = posting {
            self.insert(access)?;
        }
        Ok(())
    }

    /// Takes the access out, where there is one and it is there. It takes no memory.
    ///
    /// It costs a step for each of its version that came later, and the moving of what stands
    /// behind it.
    pub fn remove_posting(&mut self, posting: Option<Access>)
        ensures { IsRemoved self.old posting self.new }
    {
        if let Some(access) = posting {
            self.remove(access);
        }
    }

    /// The access of the highest version below this one.
    #[inline(always)]
    pub fn lower(&self, version: u32) -> Option<Access>
        ensures found { IsLower self.now version result }
        ensures below { IfSome result (λ x. x.version < version) }
    {
        let end = self.start(u64::from(version));
        if end == 0 {
            return None;
        }
        Some(self.accesses[end - 1])
    }

    /// The access of the lowest version from this one on, but for those of one hart.
    ///
    /// It costs a step for each access that it passes on the way.
    #[inline(always)]
    pub fn first_from(&self, version: u64, aside: Option<u8>) -> Option<Access>
        ensures { IsFirstFrom self.now version aside result }
    {
        for place in self.start(version)..self.accesses.len() {
            let access = self.accesses[place];
            if aside != Some(access.hart) {
                return Some(access);
            }
        }
        None
    }

    /// The accesses of a version from the first on and below the second.
    ///
    /// Besides looking for the second version, it costs a step for each of them.
    #[inline(always)]
    pub fn between(&self, from: u64, to: u64) -> &[Access]
        ensures { (x : Access) → Contains result.now x ↔ (Contains self.now x × (from ≤ x.version) × (x.version < to)) }
    {
        let accesses = self.accesses.as_slice();
        if to <= from {
            return &accesses[0..0];
        }
        let end = self.start(to);
        &accesses[self.start_back(from, end)..end]
    }

    /// Puts an access in that is not there, behind all of its version or a lower one.
    ///
    /// # Errors
    /// `NoMemory`; the accesses are then as they were.
    fn insert(&mut self, access: Access) -> Result<(), NoMemory>
        requires { Contains self.old access → ⊥ }
        ensures inserted { OnOk result (IsInserted self.old (Some access) self.new) }
        ensures unchanged { OnErr result (self.new ≡ self.old) }
    {
        let place = self.start(u64::from(access.version) + 1);
        self.accesses.insert(place, access)?;
        Ok(())
    }

    /// Takes an access out, where it is there. It takes no memory.
    fn remove(&mut self, access: Access)
        ensures { IsRemoved self.old (Some access) self.new }
    {
        if let Some(place) = self.place_of(access) {
            self.accesses.remove(place);
        }
    }

    /// How many accesses are of a version below this one.
    #[inline(always)]
    fn start(&self, version: u64) -> usize
        ensures bound { result ≤ length self.now }
        ensures parted { IsStart self.now version result }
    {
        let count = self.accesses.len();
        match self.accesses.get(count.saturating_sub(NEAR)) {
            Some(near) if version <= u64::from(near.version) => self.start_far(version),
            _ => self.start_back(version, count),
        }
    }

    /// The same, by a search behind a place that is near.
    #[inline(never)]
    fn start_far(&self, version: u64) -> usize
        ensures bound { result ≤ length self.now }
        ensures parted { IsStart self.now version result }
    {
        let low = self.low_end(version);
        let rest = &self.accesses[low..];
        low + rest.partition_point(|x| u64::from(x.version) < version)
    }

    /// A place before which all are of a version below this one. Those that are not, and stand
    /// behind it, are at least half of what does, but for a few.
    fn low_end(&self, version: u64) -> usize
        ensures bound { result ≤ length self.now }
        ensures below { AllWithin (λ x. x.version < version) self.now 0 result }
    {
        let count = self.accesses.len();
        let mut step = 2 * NEAR;
        'back: while step < count {
            let place = count - step;
            if u64::from(self.accesses[place].version) < version {
                return place;
            }
            step *= 2;
        }
        0
    }

    /// The place from which on those before the end are of this version or a higher one.
    #[inline(always)]
    fn start_back(&self, version: u64, end: usize) -> usize
        requires { end ≤ length self.now }
        ensures bound { result ≤ end }
        ensures below { AllWithin (λ x. x.version < version) self.now 0 result }
        ensures from { AllWithin (λ x. version ≤ x.version) self.now result end }
    {
        for place in (0..end).rev() {
            if u64::from(self.accesses[place].version) < version {
                return place + 1;
            }
        }
        0
    }

    /// The place of an access, where it is there.
    fn place_of(&self, access: Access) -> Option<usize>
        ensures { MatchOption result (Contains self.now access → ⊥)
            (λ place. (place < length self.now) × HoldsAt (λ x. x ≡ access) self.now place) }
    {
        let end = self.start(u64::from(access.version) + 1);
        for place in (0..end).rev() {
            let other = self.accesses[place];
            if other == access {
                return Some(place);
            }
            if other.version < access.version {
                return None;
            }
        }
        None
    }
}
