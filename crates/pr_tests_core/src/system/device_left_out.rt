//! Scripts without device 5.

use crate::system::two_letters::statements_of;
use pr_basic::Statement;
use pr_system::without_device;
use std::process::Abort;

/// The name of a row, a script, and the same without device 5.
static ROWS: [(&str, &[u8], &[u8]); 5] = [
    (
        "without_five_keeps_four",
        b"OPEN 4,4\nOPEN 5,5\nPRINT#4,\"A\"\nPRINT#5,\"B\"\nCLOSE 5\nPRINT#4,\"C\"",
        b"OPEN 4,4\nPRINT#4,\"A\"\nPRINT#4,\"C\"",
    ),
    (
        "without_a_file_opened_twice",
        b"OPEN 1,5\nCLOSE 1\nOPEN 1,4\nPRINT#1,\"A\"\nCLOSE 1",
        b"OPEN 1,4\nPRINT#1,\"A\"\nCLOSE 1",
    ),
    (
        "without_a_refused_open",
        b"OPEN 1,4\nOPEN 1,5\nPRINT#1,\"A\"",
        b"OPEN 1,4\nPRINT#1,\"A\"",
    ),
    (
        "without_a_refused_open, and without a CMD",
        b"OPEN 5,5\nCMD 5,\"A\"\nPRINT \"B\"",
        b"PRINT \"B\"",
    ),
    (
        "kept_status_without_the_other_printer",
        b"OPEN 4,4\nOPEN 5,5\nPRINT#5,\"A\"\nPRINT#4,\"B\"",
        b"OPEN 4,4\nPRINT#4,\"B\"",
    ),
];

/// Those, for a caller whose proof does not read them.
fn rows() -> &'static [(&'static str, &'static [u8], &'static [u8])] {
    &ROWS
}

/// The statements as text.
fn shown(rt: &(impl Abort + AllocGlobal), statements: &[Statement]) -> String {
    format!(in rt.alloc(); "{statements:?}").expect(rt, "memory")
}

/// What a script leaves without device 5.
fn without_five(rt: &(impl Abort + AllocGlobal), script: &[u8]) -> String {
    let statements = statements_of(rt, script);
    let rest = without_device(rt.alloc(), &statements, 5).expect(rt, "memory");
    shown(rt, &rest)
}

#[test]
fn without_device_five(rt: HostRuntime) {
    for &(name, script, wanted) in rows() {
        let wanted = shown(&rt, &statements_of(&rt, wanted));
        assert!(rt; without_five(&rt, script) == wanted, "{name}");
    }
}
