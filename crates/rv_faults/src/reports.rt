//! Out of memory in reports: it is answered before a byte is written.
use crate::traces::{entries_of, litmus_tests};
use crate::writers::Failing;
use rv_event::{Entry, MemoryModel, NoMemory};
use rv_report::{Outcome, ReportFault, report, report_json, report_json_line};
use rv_run::replay;
use std::alloc::Global;
use std::process::Abort;

/// What the entries come to, also where one allocation is refused.
pub fn outcome_of(
    rt: &impl Abort,
    alloc: Global,
    model: MemoryModel,
    entries: &[Entry],
) -> Outcome {
    match replay(alloc, model, entries) {
        Ok(outcome) => outcome,
        Err(NoMemory) => replay(alloc, model, entries).expect(rt, "memory"),
    }
}

/// Writes the report by this call, and writes it again where memory is refused: then nothing was
/// written.
macro_rules! written_by {
    ($rt:ident, $call:ident, $alloc:ident, $outcome:ident) => {{
        let mut writer = Failing::after(usize::MAX);
        match $call($alloc, &mut writer, $outcome) {
            Ok(()) => {}
            Err(ReportFault::Write) => panic!($rt; "a writer failed that never fails"),
            Err(ReportFault::NoMemory) => {
                assert!($rt; writer.taken().is_empty());
                assert!($rt; $call($alloc, &mut writer, $outcome).is_ok());
            }
        }
        writer
    }};
}

/// Makes the reports of the outcome, and makes each again where memory is refused.
fn assert_reports(rt: &impl Abort, alloc: Global, outcome: &Outcome) {
    let writer = written_by!(rt, report, alloc, outcome);
    assert!(rt; writer.taken().last() == Some(&b'\n'));
    let writer = written_by!(rt, report_json_line, alloc, outcome);
    assert!(rt; writer.taken().last() == Some(&b'\n'));
    if report_json(alloc, outcome).is_err() {
        assert!(rt; report_json(alloc, outcome).is_ok());
    }
}

#[test]
fn a_report_writes_nothing_if_memory_ran_out(rt: HostRuntime) {
    for one in &litmus_tests(&rt, rt.alloc()) {
        let entries = entries_of(&rt, rt.alloc(), one.rows);
        let outcome = outcome_of(&rt, rt.alloc(), one.model, entries.as_slice());
        assert_reports(&rt, rt.alloc(), &outcome);
    }
}
