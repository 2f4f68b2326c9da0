//! The formats of traces: how one is written, and how an input says one.

use crate::signals::Signals;

/// How the trace of a run is written (profile).
#[derive(Clone, Copy, Debug, PartialEq, Eq)]
pub enum OutputFormat {
    /// The trace text, a line for each edge.
    Text,
    /// A Value Change Dump, for viewers of waves and for sigrok.
    Vcd,
}

/// The format of a trace that is checked (profile).
#[derive(Clone, Copy, Debug, PartialEq, Eq)]
pub enum InputFormat {
    /// The trace text, as `print1525 bus` writes it.
    Text,
    /// A Value Change Dump.
    Vcd,
    /// A table of comma separated values, as logic analysers export them.
    Csv,
}

/// The trace that is checked, and how to read it.
#[derive(Clone, Copy)]
pub struct TraceInput<'a> {
    pub source: InputFormat,
    /// Which signals of a recording are the lines of the bus. With [`InputFormat::Text`] they are those of
    /// no option.
    pub signals: Signals<'a>,
    /// The moment of the recording at which the trace starts, in microseconds. With [`InputFormat::Text`]
    /// it is 0.
    pub start: u64,
    /// The longest pulse of a line that is left out of a recording, as by [`PulseFilter`](crate::PulseFilter), in
    /// microseconds; none is left out with 0. With [`InputFormat::Text`] it is 0.
    pub pulse: u64,
    /// The rate of samples at which a table without times is read, in samples a second, whatever its
    /// remarks say; None where none is given. It counts with [`InputFormat::Csv`] alone, and not in a table
    /// with times.
    pub rate: Option<u64>,
}
