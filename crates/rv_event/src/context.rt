//! What the faults of an event ask of the log that it is to follow: the faults by the answers.
ghost use Rattle.std.specs.Prelude.{◌≡◌, ◌==◌, ◌&&◌, not, false, option_map, unwrap_or, List};
ghost use Rattle.std.specs.Option.{option_copied};
ghost use Rattle.rv_event.specs.Faults.{can_be_named, admits, hart_fault, zero_fault, deps_fault};
ghost use Rattle.rv_event.specs.Faults.{first_faults, fault_if, lowest};
ghost use Rattle.rv_event.specs.Contexts.{IsContext, is_bad_on, sequence_in, taken_in, reservation_in};
ghost use Rattle.rv_event.specs.Contexts.{full_in, faults_in};
ghost use Rattle.rv_event.specs.declared.event.Event.{Event};
ghost use Rattle.rv_event.specs.declared.fault.Fault.TheVariants.{Dependency};

use crate::event::{Dep, DepKind, Event, Id, Op};
use crate::fault::Fault;

/// What a log tells an event that is to follow it, as far as the event's faults ask.
///
/// Whoever keeps a log with indexes fills it by look-ups, and the reference implementation by
/// scans.
#[derive(Drop, Debug)]
pub struct Context {
    /// How many events of the event's hart the log has.
    pub count: u32,
    /// Whether one of the event's dependencies is bad: on no earlier event, on one that returns no
    /// value, or of a kind that the operation does not have.
    pub depends_badly: bool,
    /// The first store that wrote the version that the event writes.
    pub writer: Option<Id>,
    /// Whether the hart's last LR, SC or failed SC is an LR.
    pub reserved: bool,
}

/// Whether another event may depend on the operation.
fn is_nameable(op: Op) -> bool
    ensures { result ≡ can_be_named op }
{
    matches!(
        op,
        Op::Load | Op::Lr | Op::Sc | Op::ScFailed | Op::Amo | Op::Carrier
    )
}

/// Whether the operation may have a dependency of this kind.
fn does_admit(op: Op, kind: DepKind) -> bool
    ensures { result ≡ admits op kind }
{
    match kind {
        DepKind::Addr => matches!(
            op,
            Op::Load | Op::Lr | Op::Store | Op::Sc | Op::ScFailed | Op::Amo
        ),
        DepKind::DataOf => matches!(
            op,
            Op::Store | Op::Sc | Op::ScFailed | Op::Amo | Op::Carrier
        ),
        DepKind::Ctrl => matches!(op, Op::Branch),
    }
}

/// Whether the event named returns no value.
fn returns_no_value(named: Option<&Event>) -> bool
    ensures { result ≡ unwrap_or (option_map (λ m. not (can_be_named m.op)) (option_copied named.entry)) false }
{
    match named {
        Some(event) => !is_nameable(event.op),
        None => false,
    }
}

/// Whether the event's dependency is bad, where `named` is the event that it names, if there is
/// one.
pub fn is_bad_dependency(event: &Event, dep: Dep, named: Option<&Event>) -> bool
    ensures { result ≡ is_bad_on event.now dep (option_copied named.entry) }
{
    !(dep.seq < event.id.seq) || returns_no_value(named) || !does_admit(event.op, dep.kind)
}

fn find_hart_fault(event: &Event) -> Option<Fault>
    ensures { result ≡ hart_fault event.now }
{
    if event.id.hart > 15 {
        Some(Fault::Hart)
    } else {
        None
    }
}

fn find_sequence_fault(event: &Event, count: u32) -> Option<Fault>
    ensures { result ≡ sequence_in count event.now }
{
    if event.id.seq == count {
        None
    } else {
        Some(Fault::Sequence(count))
    }
}

fn find_zero_fault(event: &Event) -> Option<Fault>
    ensures { result ≡ zero_fault event.now }
{
    if event.is_store() && event.wrote == 0 {
        Some(Fault::VersionZero)
    } else {
        None
    }
}

fn find_taken_fault(event: &Event, writer: Option<Id>) -> Option<Fault>
    ensures { result ≡ taken_in writer event.now }
{
    if !event.is_store() {
        return None;
    }
    match writer {
        Some(store) => Some(Fault::VersionTaken(store)),
        None => None,
    }
}

fn find_reservation_fault(event: &Event, reserved: bool) -> Option<Fault>
    ensures { result ≡ reservation_in reserved event.now }
{
    if event.op == Op::Sc && !reserved {
        Some(Fault::NoReservation)
    } else {
        None
    }
}

/// The first fault by the context: those that look at events alone, up to a full hart.
///
/// `OtherSource` and `TooManyDeps` are left to the caller: they stand behind these.
pub fn first_fault(event: &Event, context: &Context) -> Option<Fault>
    ensures { (log : List Event) → IsContext log event.now context.now → result ≡ lowest (first_faults log event.now) }
{
    first_fault_in(event, context)
}

fn first_fault_in(event: &Event, context: &Context) -> Option<Fault>
    ensures { result ≡ lowest (faults_in context.now event.now) }
{
    if let Some(fault) = find_hart_fault(event) {
        return Some(fault);
    }
    if let Some(fault) = find_sequence_fault(event, context.count) {
        return Some(fault);
    }
    if context.depends_badly {
        return Some(Fault::Dependency);
    }
    if let Some(fault) = find_zero_fault(event) {
        return Some(fault);
    }
    if let Some(fault) = find_taken_fault(event, context.writer) {
        return Some(fault);
    }
    if let Some(fault) = find_reservation_fault(event, context.reserved) {
        return Some(fault);
    }
    find_full_fault(context.count)
}

fn find_full_fault(count: u32) -> Option<Fault>
    ensures { result ≡ full_in count }
{
    if count >= 4096 {
        Some(Fault::Full)
    } else {
        None
    }
}

/// The fault `TooManyDeps`, where the event has more than 8 dependencies.
#[inline(never)]
pub fn find_deps_fault(event: &Event) -> Option<Fault>
    ensures { result ≡ deps_fault event.now }
{
    if event.deps.as_slice().len() > 8 {
        Some(Fault::TooManyDeps)
    } else {
        None
    }
}
