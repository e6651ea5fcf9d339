//! What the calls do.
ghost use Rattle.std.specs.Prelude.{◌≡◌, IfOk, MatchOption, None, Some, is_some, length, string_bytes};
ghost use Rattle.rv_c.specs.Replies.{AreCounted, IsOffered, IsOpened, IsTextIn, IsToldTo, IsWrittenTo};
ghost use Rattle.rv_c.specs.Replies.{model_of};

use crate::counts::RvmonCounts;
use crate::event::{RvmonEvent, entry_of};
use crate::form::{Form, form_of};
use crate::reply::{Reply, reply_of};
use crate::slot::Slot;
use rv_event::{MemoryModel, NoMemory};
use rv_monitor::Monitor;
use std::alloc::Global;
use std::mem::replace;

/// A monitor, as C holds it. All bytes zero: none is open.
#[repr(C)]
#[derive(Drop)]
pub struct Rvmon {
    is_open: bool,
    slot: Slot,
    ghost filled: { is_some slot.value ≡ is_open },
}

/// Takes the monitor out, if one is there.
fn take(alloc: Global, monitor: &mut Rvmon) -> Option<Box<Monitor>>
    ensures taken { MatchOption result
        (monitor.old.slot.value ≡ None) (λ b. monitor.old.slot.value ≡ Some b.value) }
    ensures empty { monitor.new.slot.value ≡ None }
{
    let empty = Rvmon {
        is_open: false,
        slot: Slot::empty(alloc),
    };
    let Rvmon { is_open, slot } = replace(monitor, empty);
    if is_open { Some(slot.into_box()) } else { None }
}

/// Puts a monitor in.
fn put(monitor: &mut Rvmon, value: Box<Monitor>)
    ensures { monitor.new.slot.value ≡ Some value.value }
{
    *monitor = Rvmon {
        is_open: true,
        slot: Slot::of(value),
    };
}

/// The model of a number: 0 RVWMO, 1 Ztso.
fn model_of(code: u8) -> Option<MemoryModel>
    ensures { result ≡ model_of code }
{
    match code {
        0 => Some(MemoryModel::Rvwmo),
        1 => Some(MemoryModel::Ztso),
        _ => None,
    }
}

/// Opens a monitor.
pub fn open(alloc: Global, monitor: &mut Rvmon, model: u8) -> Reply
    ensures { IsOpened monitor.old.slot.value monitor.new.slot.value model result }
{
    let Some(model) = model_of(model) else {
        return Reply::UnknownModel;
    };
    if monitor.is_open {
        return Reply::AlreadyOpen;
    }
    match Box::new(alloc, Monitor::new(alloc, model)) {
        Ok(made) => {
            put(monitor, made);
            Reply::Accepted
        }
        Err(_) => Reply::NoMemory,
    }
}

/// Offers an event.
pub fn offer(alloc: Global, monitor: &mut Rvmon, event: &RvmonEvent) -> Reply
    ensures { IsOffered monitor.old.slot.value monitor.new.slot.value event.now result }
{
    let entry = match entry_of(alloc, event) {
        Ok(entry) => entry,
        Err(reply) => return reply,
    };
    let Some(mut held) = take(alloc, monitor) else {
        return Reply::NotOpen;
    };
    let answer = held.offer(&entry);
    put(monitor, held);
    reply_of(answer)
}

/// Counts the accepted events.
pub fn count(alloc: Global, monitor: &mut Rvmon, counts: &mut RvmonCounts) -> Reply
    ensures kept { monitor.new.slot.value ≡ monitor.old.slot.value }
    ensures counted { AreCounted monitor.old.slot.value counts.old counts.new result }
{
    let Some(held) = take(alloc, monitor) else {
        return Reply::NotOpen;
    };
    *counts = RvmonCounts {
        events: held.accepted(),
        operations: held.operations(),
        waiting: held.waiting(),
    };
    put(monitor, held);
    Reply::Accepted
}

/// The text of a form.
fn text_in(monitor: &Monitor, form: Form) -> Result<String, NoMemory>
    ensures { IfOk result (λ text. IsTextIn monitor.now (Some form) (string_bytes text)) }
{
    match form {
        Form::Report => monitor.report(),
        Form::Json => monitor.json(),
        Form::Explained => monitor.explanation(),
    }
}

/// Writes a text where the buffer has room for it, and tells its size.
fn write_to(buffer: &mut [u8], size: &mut usize, text: &str) -> Reply
    ensures size { size.new ≡ length text.now }
    ensures room { IsWrittenTo text.now buffer.old buffer.new result }
{
    let bytes = text.as_bytes();
    *size = bytes.len();
    if buffer.len() < bytes.len() {
        return Reply::TooShort;
    }
    buffer[..bytes.len()].copy_from_slice(bytes);
    Reply::Accepted
}

/// Tells a text.
pub fn tell(
    alloc: Global,
    monitor: &mut Rvmon,
    form: u8,
    buffer: &mut [u8],
    size: &mut usize,
) -> Reply
    ensures kept { monitor.new.slot.value ≡ monitor.old.slot.value }
    ensures told { IsToldTo monitor.old.slot.value form buffer.old buffer.new size.old size.new result }
{
    let Some(form) = form_of(form) else {
        return Reply::UnknownForm;
    };
    let Some(held) = take(alloc, monitor) else {
        return Reply::NotOpen;
    };
    let text = text_in(&held, form);
    put(monitor, held);
    match text {
        Ok(text) => write_to(buffer, size, text.as_str()),
        Err(NoMemory) => Reply::NoMemory,
    }
}

/// Closes the monitor, if one is open.
pub fn close(alloc: Global, monitor: &mut Rvmon)
    ensures { monitor.new.slot.value ≡ None }
{
    drop(take(alloc, monitor));
}
