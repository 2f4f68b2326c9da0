//! Worked tables, as logic analysers export them (samples by hand).

ghost use Rattle.std.specs.Prelude.{◌≤◌, length};

use pr_capture::{CaptureFault, CsvReader, Probes, Signals, csv_is_read_back};
use pr_wire::{Edge, NoMemory, read_trace, write_trace};
use std::alloc::Global;
use std::process::Abort;
use std::test::Fail;

/// The names that are looked for where none are given.
pub const NAMES: Signals<'static> = Signals {
    atn: b"ATN",
    clock: b"CLOCK",
    line: b"DATA",
    probes: Probes {
        atn: false,
        clock: false,
        line: false,
        threshold: None,
    },
};

/// The samples of a text that comes in two blocks, as a trace text.
pub fn read(
    alloc: Global,
    signals: Signals<'_>,
    text: &[u8],
    cut: usize,
) -> Result<Vec<u8>, CaptureFault>
    requires { cut ≤ length text.now }
{
    let mut reader = CsvReader::new(alloc, signals, None);
    let mut samples = Vec::new(alloc);
    let mut at = 0;
    for _step in 0..text.len() {
        let end = if at < cut { cut } else { text.len() };
        if at == end {
            break;
        }
        let (len, sample) = reader.take_front(&text[at..end])?;
        if let Some(sample) = sample {
            samples.push(sample)?;
        }
        at += len;
    }
    if let Some(sample) = reader.finish()? {
        samples.push(sample)?;
    }
    let trace = write_trace(alloc, samples.as_slice())?;
    Ok(trace)
}

/// A text has these samples, wherever it is cut into two blocks.
fn says(rt: &(impl Abort + AllocGlobal), signals: Signals<'_>, text: &str, wanted: &str) {
    for cut in 0..text.len() {
        let is_said = match read(rt.alloc(), signals, text.as_bytes(), cut) {
            Ok(trace) => trace.as_slice() == wanted.as_bytes(),
            Err(_fault) => false,
        };
        assert!(rt; is_said, "{text} cut at {cut}");
    }
}

/// Custom names, and inverted probes.
const OWN: Signals<'static> = Signals {
    atn: b"Channel 0",
    clock: b"Channel 1",
    line: b"Channel 2",
    probes: Probes {
        atn: true,
        clock: true,
        line: true,
        threshold: None,
    },
};

/// Whose signals, a table, and its samples: other columns, lines without a word, quoted names, spaces, both
/// ends of lines, CLK beside CLOCK, and whole microseconds of seconds.
const TABLES: [(Signals<'static>, &str, &str); 22] = [
    (
        NAMES,
        "Time [s],ATN,CLOCK,DATA\n0.000000000,1,1,1\n0.000100000,0,0,1\n0.000200000,0,0,0\n",
        "0 111\n100 001\n200 000\n",
    ),
    (
        NAMES,
        "; made by hand, ATN\r\n\r\n\"Time(s)\", \"Data\", \"a,b\", \"Clk\", \"atn\"\r\n 0 , 1 , 0 , 0 , 1\r\n# a remark\r\n 2.5 , 0 , 1 , 1 , 0",
        "0 101\n2500000 010\n",
    ),
    (
        OWN,
        "t,channel 1,channel 0,channel 10,CHANNEL 2\n0,0,1,1,0\n",
        "0 011\n",
    ),
    (NAMES, "t,CLK,CLOCK,DATA,ATN\n0,0,1,1,1\n", "0 111\n"),
    (NAMES, "t,ATN,CLOCK,DATA\n0,1,1,1\n", "0 111\n"),
    (NAMES, "t,ATN,CLOCK,DATA\n7.,1,1,1\n", "7000000 111\n"),
    (NAMES, "t,ATN,CLOCK,DATA\n0.0000019,1,1,1\n", "1 111\n"),
    (NAMES, "t,ATN,CLOCK,DATA\n0.1,1,1,1\n", "100000 111\n"),
    (
        NAMES,
        "t,ATN,CLOCK,DATA\n12.345678901,1,1,1\n",
        "12345678 111\n",
    ),
    (
        NAMES,
        "t,ATN,CLOCK,DATA\n18446744073709.551615,1,1,1\n",
        "18446744073709551615 111\n",
    ),
    (
        NAMES,
        "Time (ms),ATN,CLOCK,DATA\n0,1,1,1\n1.5,1,1,0\n20e-1,1,1,1\n",
        "0 111\n1500 110\n2000 111\n",
    ),
    (
        NAMES,
        "t/ns;ATN;CLOCK;DATA\n999;1;1;1\n1000;1;1;0\n",
        "0 111\n1 110\n",
    ),
    (
        NAMES,
        "\u{feff}Time[\u{b5}s]\tATN\tCLOCK\tDATA\n+7\t1.0\tL\tH\n",
        "7 101\n",
    ),
    (
        NAMES,
        "picoseconds,ATN,CLOCK,DATA\n1999999,1,1,1\n2e6,0.0,1.0,1\n",
        "1 111\n2 011\n",
    ),
    (
        NAMES,
        "Time [s],ATN,CLOCK,DATA\n-0.0005,1,1,1\n-0.0004999,0,1,1\n0.000001,1,1,1\n",
        "0 111\n0 011\n501 111\n",
    ),
    (
        NAMES,
        "Time [s],ATN,CLOCK,DATA\n5e-05,1,1,1\n1.5E+1,0,1,1\n",
        "50 111\n15000000 011\n",
    ),
    (
        NAMES,
        "; Samplerate: 4 MHz\nATN,CLOCK,DATA\n1,1,1\n1,1,0\n\n1,1,1\n1,1,1\n0,1,1\n",
        "0 111\n0 110\n0 111\n0 111\n1 011\n",
    ),
    (
        NAMES,
        "META samplerate: 500000\nDATA,CLOCK,ATN\n1,1,1\n1,1,0\n",
        "0 111\n2 011\n",
    ),
    (
        NAMES,
        "; Sample rate: 1.5 kHz\nSample,ATN,CLOCK,DATA\n0,1,1,1\n1,1,1,0\n2,1,1,1\n3,1,0,1\n",
        "0 111\n666 110\n1333 111\n2000 101\n",
    ),
    (
        NAMES,
        "; Samplerate: 4 MHz\nTime,ATN,CLOCK,DATA\n250,1,1,1\n25250,0,1,1\n",
        "0 111\n25 011\n",
    ),
    (
        NAMES,
        "; Sample rate: 24 MHz\nTime(s), ATN, CLOCK, DATA\n0.000000125, 1, 1, 1\n0.00002, 0, 1, 1\n",
        "0 111\n20 011\n",
    ),
    (
        NAMES,
        "nanoseconds,ATN,CLOCK,DATA\n 1e4 ,1,1,1\n",
        "10 111\n",
    ),
];

#[test]
fn tables_say_samples(rt: HostRuntime) {
    for &(signals, text, wanted) in &TABLES {
        says(&rt, signals, text, wanted);
    }
}

/// Adds the row of an edge: its seconds, with six decimals, and its levels.
fn push_row(table: &mut String, edge: Edge) -> Result<(), NoMemory> {
    let seconds = edge.time / 1_000_000;
    let micros = edge.time % 1_000_000;
    let atn = u8::from(edge.levels.atn);
    let clock = u8::from(edge.levels.clock);
    let line = u8::from(edge.levels.line);
    write!(table, "{seconds:014}.{micros:06},{atn},{clock},{line}\n")
}

/// The edges of a trace as a table with a row for each.
fn written(alloc: Global, edges: &[Edge]) -> Result<String, NoMemory> {
    let mut table = String::new(alloc);
    write!(table, "Time [s],ATN,CLOCK,DATA\n")?;
    for edge in edges {
        push_row(&mut table, *edge)?;
    }
    Ok(table)
}

/// Traces with edges at the same second, over a second, and at the last moment.
const TRACES: [&str; 3] = [
    "0 111\n100 001\n200 000\n",
    "0 111\n999999 011\n1000000 001\n60000000 101\n",
    "18446744073709551614 000\n18446744073709551615 010\n",
];

/// A law that is proved of every trace, played with a writer of tables: the table's samples are the trace's edges.
#[test]
fn tables_of_traces_are_read_back(rt: HostRuntime) -> Result<(), Fail> {
    csv_is_read_back();
    for &trace in &TRACES {
        let edges = read_trace(rt.alloc(), trace.as_bytes())?;
        let table = written(rt.alloc(), edges.as_slice())?;
        says(&rt, NAMES, table.as_str(), trace);
    }
    Ok(())
}
