//! The event that the reason of an edge stands on.
ghost use Rattle.std.specs.Prelude.{◌≡◌, ◌↔◌, IfNone, IfSome, IsTrue, All, Contains, Some};
ghost use Rattle.std.specs.Option.{option_copied};
ghost use Rattle.rv_event.specs.Carried.{AreCarrying};
ghost use Rattle.rv_event.specs.Log.{events, writer};
ghost use Rattle.rv_event.specs.Preserved.{IsDependentWrite};
ghost use Rattle.rv_event.specs.Relations.{DependsOn, Paired};
ghost use Rattle.rv_explain.specs.Latest.{IsLatest};
ghost use Rattle.rv_explain.specs.Witnesses.{IsDependentAddress, IsDependentBranch, IsFence, IsFirstOf};
ghost use Rattle.rv_explain.specs.Witnesses.{IsReservationIn, IsReservationOut, IsRuleWitness, IsWitness};

use crate::latest::latest_exclusive;
use rv_event::{
    DepKind, Entry, Event, Op, Reason, carriers_of, depends_by, does_order, does_return,
    find_writer, is_between, is_earlier, is_same,
};
use rv_rows::Row;

/// Whether m is a fence between the two that orders a before b.
fn is_fence(a: &Event, b: &Event, m: &Event) -> bool
    ensures { IsTrue result ↔ IsFence a.now b.now m.now }
{
    is_between(a, m, b) && does_order(m.op, a.op, b.op)
}

/// Whether the event depends on a, which is behind these carriers.
fn does_depend(log: &[Entry], kind: DepKind, event: &Event, a: &Event, carriers: &Row) -> bool
    requires { AreCarrying (events log.now) a.now carriers.now }
    ensures { IsTrue result ↔ DependsOn (events log.now) kind event.now a.now }
{
    depends_by(kind, event, a, carriers)
}

/// Whether m is a branch between the two that depends on a, which is behind these carriers.
fn is_dependent_branch(log: &[Entry], a: &Event, b: &Event, m: &Event, carriers: &Row) -> bool
    requires { AreCarrying (events log.now) a.now carriers.now }
    ensures { IsTrue result ↔ IsDependentBranch (events log.now) a.now b.now m.now }
{
    is_between(a, m, b) && m.op == Op::Branch && does_depend(log, DepKind::Ctrl, m, a, carriers)
}

/// Whether m is a store between the two whose address or data depends on a, which is behind these
/// carriers, and b returns what m wrote.
fn is_dependent_write(log: &[Entry], a: &Event, b: &Event, m: &Event, carriers: &Row) -> bool
    requires { AreCarrying (events log.now) a.now carriers.now }
    ensures { IsTrue result ↔ IsDependentWrite (events log.now) a.now b.now m.now }
{
    is_between(a, m, b)
        && m.is_store()
        && does_return(b, m)
        && (does_depend(log, DepKind::Addr, m, a, carriers)
            || does_depend(log, DepKind::DataOf, m, a, carriers))
}

/// Whether m is between the two, and its address depends on a, which is behind these carriers.
fn is_dependent_address(log: &[Entry], a: &Event, b: &Event, m: &Event, carriers: &Row) -> bool
    requires { AreCarrying (events log.now) a.now carriers.now }
    ensures { IsTrue result ↔ IsDependentAddress (events log.now) a.now b.now m.now }
{
    is_between(a, m, b) && does_depend(log, DepKind::Addr, m, a, carriers)
}

/// Whether the rule with this number stands on m.
fn is_rule_witness(log: &[Entry], rule: u8, a: &Event, b: &Event, m: &Event, carriers: &Row) -> bool
    requires { AreCarrying (events log.now) a.now carriers.now }
    ensures { IsTrue result ↔ IsRuleWitness (events log.now) a.now b.now m.now rule }
{
    match rule {
        4 => is_fence(a, b, m),
        11 => is_dependent_branch(log, a, b, m, carriers),
        12 => is_dependent_write(log, a, b, m, carriers),
        13 => is_dependent_address(log, a, b, m, carriers),
        _ => false,
    }
}

/// The first event on which the rule with this number stands: only rules 4 and 11 to 13 stand on a
/// third event.
fn find_rule_witness<'a>(log: &'a [Entry], rule: u8, a: &Event, b: &Event) -> Option<&'a Event>
    ensures some { IfSome (option_copied result)
        (IsFirstOf (λ m. IsRuleWitness (events log.now) a.now b.now m rule) (events log.now)) }
    ensures none { IfNone (option_copied result)
        (All (λ m. IsRuleWitness (events log.now) a.now b.now m rule → ⊥) (events log.now)) }
{
    if !matches!(rule, 4 | 11..=13) {
        return None;
    }
    let carriers = carriers_of(log, a);
    for entry in log {
        if is_rule_witness(log, rule, a, b, &entry.event, &carriers) {
            return Some(&entry.event);
        }
    }
    None
}

/// Whether the LR is paired with the SC, before which `latest` is the number of the last LR, SC or
/// failed SC.
fn is_pair(log: &[Entry], lr: &Event, sc: &Event, latest: Option<u32>) -> bool
    requires latest { IsLatest (events log.now) sc.now latest }
    requires of_log { Contains (events log.now) lr.now }
    ensures { IsTrue result ↔ Paired (events log.now) lr.now sc.now }
{
    lr.op == Op::Lr && sc.op == Op::Sc && is_earlier(lr, sc) && latest == Some(lr.id.seq)
}

/// Whether m is the LR that is paired with the SC b, and returned what a wrote.
fn is_reservation_in(log: &[Entry], a: &Event, b: &Event, m: &Event, latest: Option<u32>) -> bool
    requires latest { IsLatest (events log.now) b.now latest }
    requires of_log { Contains (events log.now) m.now }
    ensures { IsTrue result ↔ IsReservationIn (events log.now) a.now b.now m.now }
{
    is_pair(log, m, b, latest)
        && match find_writer(log, m.word, m.read) {
            Some(store) => is_same(store, a),
            None => false,
        }
}

/// Whether m is the LR that is paired with the SC a, of the word of b, and returned an older
/// version than b wrote.
fn is_reservation_out(log: &[Entry], a: &Event, b: &Event, m: &Event, latest: Option<u32>) -> bool
    requires latest { IsLatest (events log.now) a.now latest }
    requires of_log { Contains (events log.now) m.now }
    ensures { IsTrue result ↔ IsReservationOut (events log.now) a.now b.now m.now }
{
    is_pair(log, m, a, latest) && b.word == m.word && m.read < b.wrote
}

/// The first LR that returned what a wrote, and is paired with b.
fn find_reservation_in<'a>(log: &'a [Entry], a: &Event, b: &Event) -> Option<&'a Event>
    ensures some { IfSome (option_copied result)
        (IsFirstOf (IsReservationIn (events log.now) a.now b.now) (events log.now)) }
    ensures none { IfNone (option_copied result)
        (All (λ m. IsReservationIn (events log.now) a.now b.now m → ⊥) (events log.now)) }
{
    let latest = latest_exclusive(log, b);
    for entry in log {
        if is_reservation_in(log, a, b, &entry.event, latest) {
            return Some(&entry.event);
        }
    }
    None
}

/// The first LR that returned an older version than b wrote, and is paired with a.
fn find_reservation_out<'a>(log: &'a [Entry], a: &Event, b: &Event) -> Option<&'a Event>
    ensures some { IfSome (option_copied result)
        (IsFirstOf (IsReservationOut (events log.now) a.now b.now) (events log.now)) }
    ensures none { IfNone (option_copied result)
        (All (λ m. IsReservationOut (events log.now) a.now b.now m → ⊥) (events log.now)) }
{
    let latest = latest_exclusive(log, a);
    for entry in log {
        if is_reservation_out(log, a, b, &entry.event, latest) {
            return Some(&entry.event);
        }
    }
    None
}

/// The first event of the log that the reason stands on, where it orders a before b: the fence of
/// rule 4, the branch of rule 11, the store between of rule 12, the event between of rule 13, or
/// the LR of an atomic reason. `None` where there is none, and for every other reason.
///
/// It costs a few passes over the log for an atomic reason, one and what `carriers_of` costs for
/// these rules, and nothing for the other reasons.
pub fn find_witness<'a>(log: &'a [Entry], reason: Reason, a: &Event, b: &Event) -> Option<&'a Event>
    ensures some { IfSome (option_copied result)
        (IsFirstOf (IsWitness (events log.now) reason a.now b.now) (events log.now)) }
    ensures none { IfNone (option_copied result)
        (All (λ m. IsWitness (events log.now) reason a.now b.now m → ⊥) (events log.now)) }
{
    match reason {
        Reason::Preserved(rule) => find_rule_witness(log, rule, a, b),
        Reason::AtomicIn => find_reservation_in(log, a, b),
        Reason::AtomicOut => find_reservation_out(log, a, b),
        Reason::Coherence | Reason::ReadsFrom | Reason::FromRead => None,
    }
}
