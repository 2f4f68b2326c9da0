//! Worked Value Change Dumps, as simulators and logic analysers write them (dumps by hand, but for that of
//! sigrok-cli).

ghost use Rattle.std.specs.Prelude.{◌≤◌, length};

use crate::samples::edges_from;
use crate::tables::NAMES;
use pr_capture::{CaptureFault, Probes, Signals, VcdReader, write_vcd};
use pr_wire::{Edge, read_trace, write_trace};
use std::alloc::Global;
use std::process::Abort;
use std::test::Fail;

/// The samples of a text that comes in two blocks.
fn samples(
    alloc: Global,
    signals: Signals<'_>,
    text: &[u8],
    cut: usize,
) -> Result<Vec<Edge>, CaptureFault>
    requires { cut ≤ length text.now }
{
    let mut reader = VcdReader::new(alloc, signals);
    let mut samples = Vec::new(alloc);
    let mut at = 0;
    for _step in 0..text.len() {
        let end = if at < cut { cut } else { text.len() };
        if at == end {
            break;
        }
        let (len, sample) = reader.take_front(&text[at..end])?;
        if let Some(sample) = sample {
            samples.push(sample)?;
        }
        at += len;
    }
    if let Some(sample) = reader.finish()? {
        samples.push(sample)?;
    }
    Ok(samples)
}

/// The edges of a text that comes in two blocks, as a trace text.
pub fn read(
    alloc: Global,
    signals: Signals<'_>,
    text: &[u8],
    cut: usize,
) -> Result<Vec<u8>, CaptureFault>
    requires { cut ≤ length text.now }
{
    let samples = samples(alloc, signals, text, cut)?;
    let edges = edges_from(alloc, 0, &samples)?;
    let trace = write_trace(alloc, &edges)?;
    Ok(trace)
}

/// A text has these edges, wherever it is cut into two blocks.
fn says(rt: &(impl Abort + AllocGlobal), signals: Signals<'_>, text: &str, wanted: &str) {
    for cut in 0..text.len() {
        let is_said = match read(rt.alloc(), signals, text.as_bytes(), cut) {
            Ok(trace) => trace.as_slice() == wanted.as_bytes(),
            Err(_fault) => false,
        };
        assert!(rt; is_said, "{text} cut at {cut}");
    }
}

/// The usual names, with inverted levels.
const INVERTED: Signals<'static> = Signals {
    atn: b"ATN",
    clock: b"CLOCK",
    line: b"DATA",
    probes: Probes {
        atn: true,
        clock: true,
        line: true,
        threshold: None,
    },
};

/// Custom names, and inverted probes.
const OWN: Signals<'static> = Signals {
    atn: b"D0",
    clock: b"D1",
    line: b"D2",
    probes: Probes {
        atn: true,
        clock: true,
        line: true,
        threshold: None,
    },
};

/// Of a simulator: scopes, other signals, a section of first levels, one of them twice.
const OF_A_SIMULATOR: &str =
    "$date\n\tToday\n$end\n$version\n\tSimulator\n$end\n$timescale\n\t1ns\n$end\n$scope module bench $end\n$var wire 8 ! DATA [7:0] $end\n$var wire 1 \" atn $end\n$var reg 1 # Clock $end\n$attrbegin misc 07 name $end\n$scope module device $end\n$var wire 1 % DATA $end\n$var wire 1 $ DATA2 $end\n$var real 64 r ATN $end\n$upscope $end\n$upscope $end\n$enddefinitions $end\n#0\n$dumpvars\nbx !\nx$\nr0.5 r\n1%\n1#\n1\"\n$end\n#1000\n0\"\nb10100 !\n#1999\n0#\n$comment at 2 us\n0%\n$end\n#2000\n0%\nr1.5e-3 r\n#3000\nU$\nb0 $\n1#\n";

/// Of a logic analyser: all on few lines, both ends of lines, a vector of one bit, no end of the last line.
const OF_AN_ANALYSER: &str =
    "$timescale 1 us $end\r\n$var wire 1 ! ATN $end $var wire 1 \" CLK $end\r\n$var wire 1 # DATA $end $enddefinitions $end\r\n#5 1! 1\" 1#\r\n#105 0! 0\"\r\n$comment off $end #205 b0 # B1 \"";

/// What sigrok-cli 0.7.2 wrote of five samples at 100 kHz, with the line that it puts in front.
const OF_SIGROK_CLI: &str =
    "META samplerate: 100000\n$date Mon Nov 23 16:13:32 2026 $end\n$version libsigrok 0.5.2 $end\n$comment\n  Acquisition with 3/3 channels at 100 kHz\n$end\n$timescale 10 us $end\n$scope module libsigrok $end\n$var wire 1 ! ATN $end\n$var wire 1 \" CLOCK $end\n$var wire 1 # DATA $end\n$upscope $end\n$enddefinitions $end\n#0 1! 1\" 1#\n#1 0! 0\"\n#2 0#\n#3 1\"\n#4 1! 1#\n#5\n";

/// Levels that are not known before all three are: x in the section of first levels, z for a tristate line,
/// and a level that is lost again. With inverted levels they are not known either.
const NOT_KNOWN_YET: &str =
    "$timescale 1 us $end $var wire 1 a ATN $end $var wire 1 c CLOCK $end $var wire 1 d DATA $end $enddefinitions $end\n#0 $dumpvars xa Xc bx d $end\n#3 1a 1c\n#4 zc\n#5 0d bZ a\n#6 1c\n#7 0a\n#8 1d\n";

/// CLOCK comes before CLK wherever they are.
const CLK_AND_CLOCK: &str =
    "$timescale 1 us $end $var wire 1 k clk $end $var wire 1 a ATN $end $var wire 1 c Clock $end $var wire 1 d DATA $end $enddefinitions $end 1a 1d 1k 0c #3 1c";

/// Two signals called CLK are no matter where one is called CLOCK, nor is a signal that is in two scopes.
const CLK_TWICE: &str =
    "$timescale 1 us $end $var wire 1 k clk $end $var wire 1 a ATN $end $var wire 1 c CLK $end $var wire 1 b CLOCK $end $scope module m $end $var wire 1 a ATN $end $upscope $end $var wire 1 d DATA $end $enddefinitions $end 1a 1d 1k 0c 1b #3 1c";

/// Names of two words, as Saleae's and DSView's software has them.
const NAMES_OF_TWO_WORDS: &str =
    "$timescale 1 ns $end\n$var wire 1 ! Channel 0 $end\n$var wire 1 \" Channel 1 $end\n$var wire 1 # Channel  2 $end\n$var wire 1 $ Channel 10 $end\n$enddefinitions $end\n#0 0! 0\" 0# 1$\n#5000 1!\n";

/// Signals by their scopes, and levels that a simulator of VHDL writes.
const SIGNALS_OF_SCOPES: &str =
    "$timescale 1 ns $end $scope module top $end $scope module bus $end $var wire 1 ! ATN $end $var wire 1 \" IEC [0] $end $upscope $end $scope module other $end $var wire 1 # ATN $end $upscope $end $var wire 1 $ DATA $end $upscope $end $enddefinitions $end #0 H! L\" 1# h$ #3000 l!";

/// Recording ends before the dump does.
const SWITCHED_OFF: &str =
    "$timescale 1 us $end $var wire 1 a ATN $end $var wire 1 c CLOCK $end $var wire 1 d DATA $end $enddefinitions $end #0 1a 1c 1d #4 0a #9 $dumpoff xa xc xd $end #20";

/// Names with white space.
const CHANNELS: Signals<'static> = Signals {
    atn: b"Channel 0",
    clock: b"channel 1",
    line: b"Channel2",
    probes: Probes {
        atn: true,
        clock: true,
        line: true,
        threshold: None,
    },
};

/// Names with scopes, and one with the place of a bit.
const SCOPES: Signals<'static> = Signals {
    atn: b"bus.ATN",
    clock: b"IEC[0]",
    line: b"top.DATA",
    probes: Probes {
        atn: false,
        clock: false,
        line: false,
        threshold: None,
    },
};

/// Signals that are no wires whatever their name: numbers, texts and events.
const KINDS_WITHOUT_LEVELS: &str =
    "$timescale 1 us $end $var real 1 r ATN $end $var realtime 1 t CLOCK $end $var string 1 s DATA $end $var event 1 e ATN $end $var reg 1 a ATN $end $var tri 1 c CLOCK $end $var logic 1 d DATA $end $enddefinitions $end r0 r r5 t stext s 1e 1a 1c 1d #2 1e r1.5 t 0c";

const OWN_NAMES: &str =
    "$timescale 1 us $end $var wire 1 ! d2 $end $var wire 1 ' D1 $end $var wire 1 ( D10 $end $var wire 1 ) D0 $end $enddefinitions $end 0! 1' 0( 0) #9 1(";

/// A dump that is blank after its header says no edges.
const BLANK: &str =
    "$timescale 1 us $end $var wire 1 a ATN $end $var wire 1 c CLOCK $end $var wire 1 d DATA $end $enddefinitions $end #0 xa $dumpoff $end";

/// Whose signals, a dump, and its edges.
const DUMPS: [(Signals<'static>, &str, &str); 13] = [
    (NAMES, OF_A_SIMULATOR, "0 111\n1 001\n2 000\n3 010\n"),
    (NAMES, OF_AN_ANALYSER, "5 111\n105 001\n205 010\n"),
    (
        NAMES,
        OF_SIGROK_CLI,
        "0 111\n10 001\n20 000\n30 010\n40 111\n",
    ),
    (NAMES, NOT_KNOWN_YET, "7 010\n8 011\n"),
    (INVERTED, NOT_KNOWN_YET, "7 101\n8 100\n"),
    (NAMES, CLK_AND_CLOCK, "0 101\n3 111\n"),
    (NAMES, CLK_TWICE, "0 111\n"),
    (NAMES, KINDS_WITHOUT_LEVELS, "0 111\n2 101\n"),
    (OWN, OWN_NAMES, "0 101\n"),
    (NAMES, BLANK, ""),
    (CHANNELS, NAMES_OF_TWO_WORDS, "0 111\n5 011\n"),
    (SCOPES, SIGNALS_OF_SCOPES, "0 101\n3 001\n"),
    (NAMES, SWITCHED_OFF, "0 111\n4 011\n"),
];

#[test]
fn dumps_say_edges(rt: HostRuntime) {
    for &(signals, text, wanted) in &DUMPS {
        says(&rt, signals, text, wanted);
    }
}

/// The edges of a trace text are read again as they were written.
fn is_read_again(rt: &(impl Abort + AllocGlobal), trace: &str) -> Result<(), Fail> {
    let edges = read_trace(rt.alloc(), trace.as_bytes())?;
    let text = write_vcd(rt.alloc(), edges.as_slice())?;
    let again = read(rt.alloc(), NAMES, text.as_slice(), text.len() / 2)?;
    assert!(rt; again.as_slice() == trace.as_bytes(), "{trace}");
    Ok(())
}

/// What is written of edges is read as these edges.
#[test]
fn written_dumps_are_read(rt: HostRuntime) -> Result<(), Fail> {
    for trace in [
        "",
        "0 111\n",
        "7 010\n8 110\n9 100\n10 101\n11 010\n",
        "0 000\n18446744073709550615 111\n",
    ] {
        is_read_again(&rt, trace)?;
    }
    Ok(())
}
