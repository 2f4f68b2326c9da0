//! What is asked of a command line and shows in no output of the program. All else is in tests/rows (names_of_signals,
//! outputs_of_decode, outputs_of_pages, rates_of_recordings, starts_before_moment_0, found_formats and others).

use pr_basic::StatusMode;
use pr_bus::Delays;
use pr_cli::read_job;
use pr_options::{Job, explains, read_delays};
use pr_wire::Kind;
use std::alloc::Global;

/// The first delays of the computer and of printers 4 and 5: before an attention, and from ATN's
/// pull to the answer.
fn first_delays(delays: &mut Delays) -> [u16; 3] {
    [
        delays.computer.next(Kind::Bb),
        delays.four.next(Kind::At),
        delays.five.next(Kind::At),
    ]
}

/// Whether words ask for a run with these first delays that handles the status so.
fn asks_for_run<'a>(
    alloc: Global,
    words: &'a [&'a str],
    wanted: [u16; 3],
    status: StatusMode,
) -> bool {
    match read_job(alloc, words) {
        Ok(Job::Pages(_form, _present, mut delays, mode, _output)) => {
            first_delays(&mut delays) == wanted && mode == status
        }
        Ok(Job::Bus(_form, _present, mut delays, mode, _format)) => {
            first_delays(&mut delays) == wanted && mode == status
        }
        _ => false,
    }
}

/// Pages do not show the delays of their run, and without printers no run shows if a status is kept.
#[test]
fn delays_and_status_of_runs(rt: HostRuntime) {
    const ROWS: [(&[&str], [u16; 3], StatusMode); 4] = [
        (
            &["print1525", "pages", "--delays", "1/2/3", "--present", "4"],
            [101, 3, 4],
            StatusMode::Each,
        ),
        (
            &[
                "print1525",
                "pages",
                "--present",
                "both",
                "--delays=",
                "--as=svg",
            ],
            [100, 100, 100],
            StatusMode::Each,
        ),
        (
            &["print1525", "pages", "--present", "4", "--as", "text"],
            [100, 100, 100],
            StatusMode::Each,
        ),
        (
            &["print1525", "bus", "--present", "none", "--status", "kept"],
            [100, 100, 100],
            StatusMode::Kept,
        ),
    ];
    for (words, wanted, status) in ROWS {
        assert!(&rt;
            asks_for_run(rt.alloc(), words, wanted, status),
            "{words:?}"
        );
    }
}

/// Past a list's end a delay is the typical one, 100 in each case.
#[test]
fn option_texts(rt: HostRuntime) {
    const ROWS: [(&str, [u16; 3], [u16; 3]); 6] = [
        ("", [100, 100, 100], [100, 100, 100]),
        ("/", [100, 100, 100], [100, 100, 100]),
        ("//", [100, 100, 100], [100, 100, 100]),
        ("//5", [100, 100, 6], [100, 100, 100]),
        ("1,65535/0", [101, 1, 100], [763, 100, 100]),
        ("00007/999,1000/8", [107, 1000, 9], [100, 1, 100]),
    ];
    for (text, first, second) in ROWS {
        let is_well = match read_delays(rt.alloc(), text) {
            Ok(mut delays) => {
                first_delays(&mut delays) == first && first_delays(&mut delays) == second
            }
            Err(_fault) => false,
        };
        assert!(rt; is_well, "{text}");
    }
}

#[test]
fn explanations(rt: HostRuntime) {
    const ROWS: [(&[&str], bool); 4] = [
        (&["print1525", "pages", "--explain"], true),
        (&["--explain"], true),
        (&[], false),
        (
            &[
                "print1525",
                "pages",
                "explain",
                "--explain=",
                "--Explain",
                "--explai",
            ],
            false,
        ),
    ];
    for (words, wanted) in ROWS {
        assert!(rt; explains(words) == wanted, "{words:?}");
    }
}
