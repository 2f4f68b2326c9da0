//! What the help of the program and of its subcommands says, in lines of at most 80
//! columns.

/// What the help of a command says besides its subcommands and options.
#[derive(Clone, Copy)]
pub struct HelpText {
    /// What it does, in a line.
    pub about: &'static str,
    /// How it is called. A command line that clap refuses shows this too.
    pub usage: &'static str,
    /// What follows the options.
    pub more: &'static str,
}

/// The program.
pub const PROGRAM: HelpText = HelpText {
    about: "\
Runs the output statements of Commodore 64 BASIC and shows what two VIC-1525
printers put on paper and what happens on the serial bus",
    usage: "print1525 <COMMAND> [OPTIONS] [FILE]",
    more: "\
Every command reads FILE, or standard input, and writes the file of --output,
or standard output. `print1525 help COMMAND` has its input, output and options.
PRINT1525_EXPLAIN=1 in the environment asks for the same as --explain.

Exit status:
  0  done
  1  a BASIC error stopped the run; what was printed until then is written
     (decode --strict: something of the recording is left out)
  2  the input or the command line is refused, with a line on standard error
  3  memory ran out, or a file cannot be opened, read or written

Example:
  print1525 pages --as text listing.bas",
};

/// The subcommand `pages`.
pub const PAGES: HelpText = HelpText {
    about: "Writes the pages of a script",
    usage: "print1525 pages [OPTIONS] [FILE]",
    more: "\
Input: a script of BASIC, statements on lines or separated by `:`. Line numbers
are ignored; statements run in file order.
  OPEN file,device[,secondary]  file 1 to 255, device 4 to 30, secondary 0 to 15
  CMD file[,list]               output goes to the file from now on
  PRINT#file[,list]             prints to the file
  PRINT [list]                  prints to the file of CMD, or on the screen
  CLOSE file
  REM remark
A list has strings, CHR$(n) and `;`. Variables, loops and `+` are refused.
With --from prg the script is a saved program, whose strings have any byte but
0 and 34; with --from petcat it is petcat's text of one, with names as {down};
with --from magazine it is in capitals, with names as {CLR} and {5 SPACES}.
With --from basic the input is a whole program, which is run: what it prints is
the script, and --as script writes it. What is not certain is refused.
Without --from a FILE named *.prg, *.p00, *.t64, *.petcat or *.txt is read so,
one named *.bas as a script, or as a program if it reads as one alone, and any
other by what its first bytes show.

Output: the marks on the paper of printers 4 and 5, the status of each
statement, the bytes on the screen, and the BASIC error that stopped the run.
A file named *.svg, *.png, *.pdf or *.txt is written so without --as. --device,
--top and --characters go with svg, png and pdf, --sheet with svg and png,
--holes with png and pdf, --scale with png, --paper with pdf; a sheet past the
end is refused. A file of characters has 256 of them: a line such as `upper 65`,
then seven lines of six signs, # for a dot and . for none; first upper 32 to 95
and 160 to 223, then the same of lower. With --as bytes the bytes that printer 4
hears are written, or those of --device, for `raw`.

Exit status: 0 done, 1 stopped by a BASIC error, 2 refused, 3 memory ran out
or a file cannot be opened, read or written.

Example:
  print1525 pages --present 4 listing.bas -o page.svg
  print1525 pages --as text listing.prg",
};

/// The subcommand `bus`.
pub const BUS: HelpText = HelpText {
    about: "Writes the trace of the serial bus during a script's run",
    usage: "print1525 bus [OPTIONS] [FILE]",
    more: "\
Input: a script of BASIC, see `print1525 pages --help`.

Output: a line for each edge, a time in microseconds and the levels of ATN,
CLOCK and DATA (1 released, 0 pulled), as in `100 001`; or a Value Change Dump
for GTKWave, PulseView and sigrok-cli, also for a file named *.vcd.

A delay number is microseconds above the minimum delay; larger values wrap
around. After the end of a list every delay is the typical one.

Exit status: 0 done, 1 stopped by a BASIC error, 2 refused, 3 memory ran out
or a file cannot be opened, read or written.

Example:
  print1525 bus listing.bas -o session.vcd
  print1525 bus --present 4 --delays 900/9 listing.bas | print1525 check",
};

/// The subcommand `check`.
pub const CHECK: HelpText = HelpText {
    about: "Writes the frames of a trace, if its timing is lawful",
    usage: "print1525 check [OPTIONS] [FILE]",
    more: "\
Input: a trace as `print1525 bus` writes it, or a recording of one. Only this
project's timing profile is lawful; use `print1525 decode` for real hardware.
A table has a row of names, then a row for each sample: its time, in the unit
of the column's name or in seconds, and a level, 0 or 1, of each signal. Without
--from the ending of FILE says the format, *.vcd, *.csv or *.trace, or its first
bytes do, as for `print1525 decode`; standard input is a trace text.

--names, --invert, --from-time and --glitch go with --from vcd or csv, --rate
and --threshold with csv.
Case and blanks around a name do not matter. Where no signal is called CLOCK,
CLK is taken. After --invert any word but ATN, CLOCK, DATA or some of them, as
in ATN,DATA, is the FILE. A table without a column of times has the rate of
--rate, or of a remark such as `; Samplerate: 4 MHz`.

Output: a line for each frame, `command 36`, `data 72` or `data 13 eoi`, then
`lawful`. A story has the time when the talker offers each byte, the time when
a listener acknowledges it, the byte and its meaning. JSON, also for a file
named *.json, has the lines of `print1525 decode --as json`. A trace that is
not lawful is refused at its first fault; edges count from 0, lines from 1.

Exit status: 0 lawful, 2 refused, 3 memory ran out or a file cannot be opened,
read or written.

Example:
  print1525 check --names D0,D1,D2 --explain analyser.csv",
};

/// The subcommand `decode`.
pub const DECODE: HelpText = HelpText {
    about: "Writes what any recording of a serial bus says",
    usage: "print1525 decode [OPTIONS] [FILE]",
    more: "\
Input: a recording of any serial bus, whoever drives it and wherever it begins,
in a format of `print1525 check`. Without --from the ending of FILE says which,
or the first bytes do: `$` begins a dump, also after sigrok-cli's line
`META samplerate: ..`; that line, `;` or `#` begins a table, or it has a comma,
a semicolon or a tab in its first line. Otherwise it is a trace text, or with
--names, --invert, --from-time, --glitch, --rate or --threshold a table.

Output: a line for each byte, as in a story of `print1525 check`;
unacknowledged and incomplete bytes (glitches); how many there are; and a
verdict: damage, whether the recording has this project's timing, and, if not,
whether it is within the bounds of the Programmer's Reference Guide.
--intervals adds the intervals outside the bounds, and a table of all
intervals. With --bounds guide they and the verdict are by the Guide alone, for
real hardware. Both go with the list alone; json has a line for each byte with
all its intervals.
Or the pages that printers 4 and 5 print of the bytes; or with --as bytes the
bytes that printer 4 hears, or the one of --device, for `print1525 raw`. Notes
on standard error say what they leave out of the recording. If it begins after
LISTEN, --listening 4 prints its first bytes, with the character set of --set.
A recording that cannot be read is refused at its first fault, after the lines
of what comes before it.

Exit status: 0 read to its end, 1 with --strict where something is left out, 2
refused, 3 memory ran out or a file cannot be opened, read or written.

Example:
  print1525 decode --intervals --bounds guide session.vcd
  print1525 decode --as bytes session.vcd | print1525 raw --as text",
};

/// The subcommand `raw`.
pub const RAW: HelpText = HelpText {
    about: "Writes the page of the bytes that a printer gets",
    usage: "print1525 raw [OPTIONS] [FILE]",
    more: "\
Input: bytes as a printer gets them, such as an emulator's raw printer output.

Output: the page that they print, under the heading of printer 4. A file named
*.svg, *.png, *.pdf or *.txt is written so without --as.

Exit status: 0 done, 2 refused, 3 memory ran out or a file cannot be opened,
read or written.

Example:
  print1525 raw --set lower --as text printer.out",
};
