//! The versions of a row, as soon as the order of stores tells them.
ghost use Rattle.std.specs.Prelude.{◌≡◌, ◌++◌, [], IfSome, List, None, true};
ghost use Rattle.rv_log.specs.declared.record.Performed.{Performed};
ghost use Rattle.rv_memory.specs.Stores.{AreStores, IsOrder};
ghost use Rattle.rv_commits.specs.Awaited.{AreVersions, IsWaiting, awaited_by};

use crate::made::made_by;
use rv_event::Op;
use rv_log::Retired;
use rv_memory::{Load, Stores};

/// What the versions of a row come from.
#[derive(Clone, Copy, PartialEq, Eq, Debug)]
pub enum Awaited {
    /// Nothing: the row has none.
    Nothing,
    /// The effect of the store of this order.
    Store(u64),
    /// What a load returned.
    Load(Load),
    /// The effect of the AMO of this order: it returned the version before its own.
    Amo(u64),
    /// What a load returned that tells no time: the order of stores alone does not say.
    Value,
}

/// The versions of a row; 0 where it has none.
#[derive(Clone, Copy, PartialEq, Eq, Debug)]
pub struct Versions {
    /// The one that it returned.
    pub read: u32,
    /// The one that it wrote.
    pub wrote: u32,
}

/// The versions of a row of the hart, once no later store can change them. `ended`: no store comes
/// after these.
///
/// `None` while they are open: a store of the row, or one before it, has not taken effect, or more
/// stores may take effect up to a load's time.
pub fn versions_of(stores: &Stores, hart: u8, awaited: &Awaited, ended: bool) -> Option<Versions>
    ensures versions { (log more : List Performed) → AreStores log stores.now → IsOrder (log ++ more)
        → (ended ≡ true → more ≡ []) → IfSome result (AreVersions (log ++ more) hart awaited.now) }
    ensures waits { (log : List Performed) → AreStores log stores.now → result ≡ None
        → IsWaiting log hart awaited.now ended }
{
    match awaited {
        Awaited::Nothing => Some(Versions { read: 0, wrote: 0 }),
        Awaited::Store(order) => {
            let effect = stores.effect_of(hart, *order)?;
            Some(Versions {
                read: 0,
                wrote: effect.version,
            })
        }
        Awaited::Load(load) => {
            let read = stores.read(load, ended)?;
            Some(Versions { read, wrote: 0 })
        }
        Awaited::Amo(order) => {
            let wrote = stores.effect_of(hart, *order)?.version;
            Some(Versions {
                read: wrote.saturating_sub(1),
                wrote,
            })
        }
        Awaited::Value => None,
    }
}

/// What the versions of an instruction's row come from. `own` is its hart's last earlier store to
/// the word, if there is one.
pub fn awaited_by(instruction: &Retired, own: Option<u64>) -> Awaited
    ensures { result ≡ awaited_by instruction.now own }
{
    let Some(made) = made_by(instruction) else {
        return Awaited::Nothing;
    };
    match made.op {
        Op::Store | Op::Sc => Awaited::Store(instruction.order),
        Op::Amo => Awaited::Amo(instruction.order),
        Op::Load | Op::Lr => match instruction.time {
            Some(time) => Awaited::Load(Load {
                hart: instruction.hart,
                address: instruction.address,
                time,
                own,
            }),
            None => Awaited::Value,
        },
        _ => Awaited::Nothing,
    }
}
