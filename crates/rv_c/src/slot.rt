//! A place for a monitor, as C holds it: one pointer.
ghost use Rattle.std.specs.Prelude.{◌≡◌, Option, Some, None, IsSome};
ghost use Rattle.rv_monitor.specs.contracts.monitor.Monitor.{the_row};
ghost use Rattle.rv_monitor.specs.Watched.{Watched};
ghost use Rattle.rv_c.specs.Held.{held};

use crate::parts::Parts;
use rv_monitor::Monitor;
use std::alloc::{Allocator, Global};
use std::marker::Model;
use std::ptr::null_mut;

/// A place for a monitor.
#[repr(C)]
#[derive(Drop)]
pub struct Slot {
    at: *mut u8,
    alloc: Global,
    pub ghost value: { Option Watched },
}

impl Model for Slot {
    ghost also_owns = { λ h. held (⟦<Global as Allocator>⟧.dealloc_token h.alloc) the_row h.at h.value };
}

impl Slot {
    /// A place with nothing in it.
    pub fn empty(alloc: Global) -> Slot
        ensures { result.value ≡ None }
    {
        Slot {
            at: null_mut(),
            alloc,
        }
    }

    fn of_parts(parts: Parts<Monitor, Global>) -> Slot
        ensures { result.value ≡ Some parts.value }
    {
        let Parts { ptr, alloc } = parts;
        Slot {
            at: ptr as *mut u8,
            alloc,
        }
    }

    fn into_parts(self) -> Parts<Monitor, Global>
        requires { IsSome self.value }
        ensures { self.value ≡ Some result.value }
    {
        let Slot { at, alloc } = self;
        Parts {
            ptr: at as *mut Monitor,
            alloc,
        }
    }

    /// A place with the box in it.
    pub fn of(value: Box<Monitor>) -> Slot
        ensures { result.value ≡ Some value.value }
    {
        Slot::of_parts(Parts::of(value))
    }

    /// The box that is there.
    pub fn into_box(self) -> Box<Monitor>
        requires { IsSome self.value }
        ensures { self.value ≡ Some result.value }
    {
        self.into_parts().into_box()
    }
}
