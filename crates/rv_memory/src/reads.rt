//! The versions that loads returned, by when they took their values.
ghost use Rattle.std.specs.Prelude.{◌≡◌, ◌++◌, [], IfSome, List, None, true};
ghost use Rattle.rv_log.specs.declared.record.Performed.{Performed};
ghost use Rattle.rv_memory.specs.Reads.{IsRead, IsWaiting};
ghost use Rattle.rv_memory.specs.Stores.{AreStores, IsOrder};

use crate::stores::Stores;

/// A load that took its value at a time.
#[derive(Clone, Copy, PartialEq, Eq, Debug)]
pub struct Load {
    /// Its hart.
    pub hart: u8,
    /// The address at which its word begins.
    pub address: u64,
    /// When it took its value.
    pub time: u64,
    /// The order of its hart's last earlier store to the word, if there is one.
    pub own: Option<u64>,
}

impl Stores {
    /// The version that a load returned, once no later store can change it: that of its hart's last
    /// earlier store to the word where that took effect after the load took its value, and was
    /// forwarded to it; else the one that the word had at that time. `ended`: no store comes after
    /// these.
    ///
    /// `None` while it may change: the own store has not taken effect, or more stores may take
    /// effect up to the load's time.
    pub fn read(&self, load: &Load, ended: bool) -> Option<u32>
        ensures read { (log more : List Performed) → AreStores log self.now → IsOrder (log ++ more)
            → (ended ≡ true → more ≡ []) → IfSome result (IsRead (log ++ more) load.now) }
        ensures waits { (log : List Performed) → AreStores log self.now → result ≡ None
            → IsWaiting log load.now ended }
    {
        if let Some(order) = load.own {
            let own = self.effect_of(load.hart, order)?;
            if own.time > load.time {
                return Some(own.version);
            }
        }
        if ended || self.latest() > load.time {
            Some(self.version_at(load.address, load.time))
        } else {
            None
        }
    }
}
