//! What is found among the accesses to one word.
ghost use Rattle.std.specs.Prelude.{ℕ, ◌≡◌, ◌≤◌, List, Some, IfSome};
ghost use Rattle.std.specs.Option.{option_map};
ghost use Rattle.rv_event.specs.Log.{writer};
ghost use Rattle.rv_event.specs.declared.event.Event.{Event};
ghost use Rattle.rv_versions.specs.Accesses.{IsNearestBelow, IsNearestAbove};
ghost use Rattle.rv_versions.specs.Indexes.{AreOfWord};
ghost use Rattle.rv_versions.specs.Lookups.{IsForeignBelow, IsForeignLower, IsUnparted};

use super::{Access, Accesses};
use rv_event::Id;

impl Accesses {
    /// The store that wrote this version. Version 0, the initial value, has none.
    pub fn writer(&self, version: u32) -> Option<Id>
        ensures { (log : List Event) (word : ℕ) → AreOfWord log word self.now →
            result ≡ option_map (λ w. w.id) (writer log word version) }
    {
        if version == 0 {
            return None;
        }
        let from = u64::from(version);
        let Some(store) = self.stores.between(from, from + 1).first() else {
            return None;
        };
        Some(store.id())
    }

    /// The version of the next lower store, where there is a version; 0 where no store is lower.
    #[inline(always)]
    pub fn lower_store(&self, version: Option<u32>) -> u32
        ensures { (n : ℕ) → version ≡ Some n → IsNearestBelow self.now.stores n result }
    {
        let Some(version) = version else {
            return 0;
        };
        match self.stores.lower(version) {
            Some(store) => store.version,
            None => 0,
        }
    }

    /// The end of the versions from this one to the next higher store, where there is a version.
    /// One hart's stores may be left aside.
    #[inline(always)]
    pub fn higher_store(&self, version: Option<u32>, aside: Option<u8>) -> u64
        ensures { (n : ℕ) → version ≡ Some n → IsNearestAbove self.now.stores aside n result }
    {
        let Some(version) = version else {
            return 0;
        };
        match self.stores.first_from(u64::from(version) + 1, aside) {
            Some(store) => u64::from(store.version) + 1,
            None => 0,
        }
    }

    /// A version below which each SC of another hart than this one is parted from the given one: a
    /// store of another hart than the SC's stands between what the SC's LR returned and it.
    pub fn unparted_from(&self, version: Option<u32>, hart: u8) -> u32
        ensures unparted { (n : ℕ) → version ≡ Some n → IsUnparted self.now hart n result }
        ensures at_most { (n : ℕ) → version ≡ Some n → result ≤ n }
    {
        let Some(version) = version else {
            return 0;
        };
        if self.pairs.lower(version).is_none() {
            return 0;
        }
        let Some(first) = self.stores.lower(version) else {
            return 0;
        };
        if first.hart == hart {
            return first.version;
        }
        match self.foreign_lower_store(first.version, first.hart) {
            Some(second) => second.version,
            None => 0,
        }
    }

    /// The store of the highest version below this one that another hart wrote.
    fn foreign_lower_store(&self, version: u32, hart: u8) -> Option<Access>
        ensures found { (log : List Event) (word : ℕ) → AreOfWord log word self.now →
            IsForeignLower self.now.stores version hart result }
        ensures below { IfSome result (IsForeignBelow self.now.stores version hart) }
    {
        let mut bound = version;
        'stores: while let Some(store) = self.stores.lower(bound) {
            if store.hart != hart {
                return Some(store);
            }
            bound = store.version;
        }
        None
    }
}
