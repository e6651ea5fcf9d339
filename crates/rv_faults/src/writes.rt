//! Each write of a report fails once: what was written before it is a beginning of the text.
use crate::traces::{entries_of, litmus_tests};
use crate::writers::Failing;
use rv_report::{Outcome, ReportFault, report, report_json_line};
use rv_run::replay;
use std::alloc::Global;
use std::process::Abort;

/// The form of a report.
#[derive(Clone, Copy)]
enum Form {
    Text,
    Json,
}

/// Writes the report in this form.
fn write_as(
    alloc: Global,
    form: Form,
    writer: &mut Failing,
    outcome: &Outcome,
) -> Result<(), ReportFault> {
    match form {
        Form::Text => report(alloc, writer, outcome),
        Form::Json => report_json_line(alloc, writer, outcome),
    }
}

/// The whole report in this form, by a writer that does not fail.
fn whole(rt: &impl Abort, alloc: Global, form: Form, outcome: &Outcome) -> Vec<u8> {
    let mut writer = Failing::after(usize::MAX);
    assert!(rt; write_as(alloc, form, &mut writer, outcome).is_ok());
    Vec::from_slice(alloc, writer.taken()).expect(rt, "memory")
}

/// Fails each write in turn, and wants as many bytes of the text as calls that did not fail, until
/// none fails.
fn assert_cut(rt: &impl Abort, alloc: Global, form: Form, outcome: &Outcome) {
    let text = whole(rt, alloc, form, outcome);
    assert!(rt; text.last() == Some(&b'\n'));
    for calls in 0..10_000 {
        let mut writer = Failing::after(calls);
        let result = write_as(alloc, form, &mut writer, outcome);
        if result.is_ok() {
            assert_eq!(rt; calls, text.len());
            assert!(rt; writer.taken() == text.as_slice());
            return;
        }
        assert!(rt; matches!(result, Err(ReportFault::Write)));
        assert!(rt; calls < text.len() && writer.taken() == &text.as_slice()[..calls]);
    }
    panic!(rt; "no end")
}

#[test]
fn each_write_of_a_report_fails(rt: HostRuntime) {
    for one in &litmus_tests(&rt, rt.alloc()) {
        let entries = entries_of(&rt, rt.alloc(), one.rows);
        let outcome = replay(rt.alloc(), one.model, entries.as_slice()).expect(&rt, "memory");
        assert_cut(&rt, rt.alloc(), Form::Text, &outcome);
        assert_cut(&rt, rt.alloc(), Form::Json, &outcome);
    }
}

#[test]
fn a_report_is_known_byte_by_byte(rt: HostRuntime) {
    let outcome = Outcome::Allowed {
        events: 4,
        operations: 4,
        waiting: 0,
    };
    let text = whole(&rt, rt.alloc(), Form::Text, &outcome);
    let wanted = "allowed: 4 events, 4 operations, 0 waiting loads\n";
    assert_eq!(rt; str::from_utf8(text.as_slice()).ok(), Some(wanted));
    let text = whole(&rt, rt.alloc(), Form::Json, &outcome);
    let wanted = "{\"events\":4,\"operations\":4,\"outcome\":\"allowed\",\"waiting\":0}\n";
    assert_eq!(rt; str::from_utf8(text.as_slice()).ok(), Some(wanted));
}
