//! The statements of scripts, and readings of which memory is refused. What the statements do is in
//! tests/rows/statements_of_scripts.case.

use pr_basic::{FaultAt, ScriptFault, Statement, read_script, read_script_at};
use pr_refusals::most_refusals;
use std::process::Abort;

/// Scripts, and their statements as text.
static READ: [(&str, &str); 22] = [
    // accepted_scripts
    (
        "PRINT;",
        "[Print { line: Line { bytes: [], ends: false } }]",
    ),
    (
        "PRINT ;\"A\"",
        "[Print { line: Line { bytes: [65], ends: true } }]",
    ),
    (
        "CMD 4",
        "[Cmd { file: 4, line: Line { bytes: [], ends: true } }]",
    ),
    (
        "CMD 4,;",
        "[Cmd { file: 4, line: Line { bytes: [], ends: false } }]",
    ),
    (
        "PRINT\"A\r\n",
        "[Print { line: Line { bytes: [65], ends: true } }]",
    ),
    ("::", "[]"),
    ("REM :PRINT", "[Rem]"),
    (
        "63999 PRINT",
        "[Print { line: Line { bytes: [], ends: true } }]",
    ),
    // choices_of_the_grammar
    (
        "PrInT Chr$(65)",
        "[Print { line: Line { bytes: [65], ends: true } }]",
    ),
    (
        "PRINT CHR$ ( 65 ) ;",
        "[Print { line: Line { bytes: [65], ends: false } }]",
    ),
    (
        "\tPRINT\t\"A\"\t",
        "[Print { line: Line { bytes: [65], ends: true } }]",
    ),
    (
        "CMD 4,\"\"",
        "[Cmd { file: 4, line: Line { bytes: [], ends: true } }]",
    ),
    (
        "CMD 4,\"",
        "[Cmd { file: 4, line: Line { bytes: [], ends: true } }]",
    ),
    (
        "PRINT#0004,CHR$(007)",
        "[PrintTo { file: 4, line: Line { bytes: [7], ends: true } }]",
    ),
    ("", "[]"),
    ("10", "[]"),
    ("\r", "[]"),
    ("\n\n \t\n", "[]"),
    ("REMARK", "[Rem]"),
    // files_devices_and_secondary_addresses
    // lower_case_keywords_on_one_line
    (
        "10 open4,4:print#4,\"a\"chr$(66)\"c",
        "[OpenFile { file: 4, device: Device { number: 4 }, second: None }, \
        PrintTo { file: 4, line: Line { bytes: [97, 66, 99], ends: true } }]",
    ),
    (
        "REM :PRINT\nOPEN 0,4",
        "[Rem, OpenFile { file: 0, device: Device { number: 4 }, second: None }]",
    ),
    (
        "OPEN 1,30,15:CMD 2:PRINT#3\nPRINT\r\n\nCLOSE 255:REM",
        "[OpenFile { file: 1, device: Device { number: 30 }, second: Some(Second { number: 15 }) }, \
        Cmd { file: 2, line: Line { bytes: [], ends: true } }, \
        PrintTo { file: 3, line: Line { bytes: [], ends: true } }, \
        Print { line: Line { bytes: [], ends: true } }, CloseFile { file: 255 }, Rem]",
    ),
];

/// Those, for a caller whose proof does not read them.
fn read_rows() -> &'static [(&'static str, &'static str)] {
    &READ
}

/// Whether a script is read as the statements of this text.
fn is_read_as(rt: &(impl Abort + AllocGlobal), script: &str, wanted: &str) -> bool {
    let statements = read_script(rt.alloc(), script.as_bytes()).expect(rt, "a script");
    let told = format!(in rt.alloc(); "{statements:?}").expect(rt, "memory");
    told.as_str() == wanted
}

#[test]
fn statements_of_scripts(rt: HostRuntime) {
    for &(script, wanted) in read_rows() {
        assert!(rt; is_read_as(&rt, script, wanted), "{script}");
    }
}

/// How many bytes some statements print.
fn printed_count(statements: &[Statement]) -> usize {
    let mut count: usize = 0;
    for statement in statements {
        let printed = match statement {
            Statement::Print { line } => line.bytes.len(),
            Statement::Cmd { file: _, line } => line.bytes.len(),
            Statement::PrintTo { file: _, line } => line.bytes.len(),
            _ => 0,
        };
        count = count.saturating_add(printed);
    }
    count
}

const SCRIPT: &[u8] = b"OPEN 4,4\nPRINT#4,\"A\"CHR$(66)\"C\"\nPRINT \"D\":CMD 4,\"E\":REM\nCLOSE 4";

/// Whether a reading of the script is whole, or was refused memory at a place of the text.
fn is_well(told: &Result<Vec<Statement>, FaultAt>) -> bool {
    match told {
        Ok(statements) => statements.len() == 6 && printed_count(statements) == 5,
        Err(told) => told.fault == ScriptFault::NoMemory && told.place <= SCRIPT.len(),
    }
}

/// `make test` runs this with each allocation refused in turn: at most one reading is then refused, and
/// with no growth refused none is.
#[test]
fn refused_memory_is_told(rt: HostRuntime) {
    let mut refused: usize = 0;
    for round in 0..4 {
        let told = if round % 2 == 0 {
            read_script_at(rt.alloc(), SCRIPT)
        } else {
            read_script(rt.alloc(), SCRIPT).map_err(|fault| FaultAt { fault, place: 0 })
        };
        assert!(rt; is_well(&told), "reading {round}");
        refused = refused.saturating_add(usize::from(told.is_err()));
    }
    assert!(rt; refused <= most_refusals(&rt), "{refused} refusals");
}
