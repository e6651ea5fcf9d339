//! What C calls: `include/rvmon.h` documents each call.
ghost use Rattle.std.specs.Prelude.{◌≡◌, None};
ghost use Rattle.rv_c.specs.Replies.{AreCounted, IsOffered, IsOpened, IsToldTo, code_of};
ghost use Rattle.rv_c.specs.declared.reply.Reply.{Reply};

use crate::calls::{Rvmon, close, count, offer, open, tell};
use crate::counts::RvmonCounts;
use crate::event::RvmonEvent;
use std::alloc::Global;

/// Opens a monitor: model 0 RVWMO, 1 Ztso.
#[unsafe(no_mangle)]
pub extern "C" fn rvmon_open(alloc: Global, monitor: &mut Rvmon, model: u8) -> u8
    ensures { (reply : Reply) × (result ≡ code_of reply)
        × IsOpened monitor.old.slot.value monitor.new.slot.value model reply }
{
    open(alloc, monitor, model).code()
}

/// Offers an event.
#[unsafe(no_mangle)]
pub extern "C" fn rvmon_offer(alloc: Global, monitor: &mut Rvmon, event: &RvmonEvent) -> u8
    ensures { (reply : Reply) × (result ≡ code_of reply)
        × IsOffered monitor.old.slot.value monitor.new.slot.value event.now reply }
{
    offer(alloc, monitor, event).code()
}

/// Counts the accepted events.
#[unsafe(no_mangle)]
pub extern "C" fn rvmon_counts(alloc: Global, monitor: &mut Rvmon, counts: &mut RvmonCounts) -> u8
    ensures kept { monitor.new.slot.value ≡ monitor.old.slot.value }
    ensures counted { (reply : Reply) × (result ≡ code_of reply)
        × AreCounted monitor.old.slot.value counts.old counts.new reply }
{
    count(alloc, monitor, counts).code()
}

/// Tells a text, and its length.
#[unsafe(no_mangle)]
pub extern "C" fn rvmon_text(
    alloc: Global,
    monitor: &mut Rvmon,
    form: u8,
    buffer: &mut [u8],
    size: &mut usize,
) -> u8
    ensures kept { monitor.new.slot.value ≡ monitor.old.slot.value }
    ensures told { (reply : Reply) × (result ≡ code_of reply)
        × IsToldTo monitor.old.slot.value form buffer.old buffer.new size.old size.new reply }
{
    tell(alloc, monitor, form, buffer, size).code()
}

/// Closes the monitor, if one is open, and gives its memory back.
#[unsafe(no_mangle)]
pub extern "C" fn rvmon_close(alloc: Global, monitor: &mut Rvmon)
    ensures { monitor.new.slot.value ≡ None }
{
    close(alloc, monitor);
}
