//! Whole runs. What the program shows of them is in tests/rows.

mod device_left_out;
mod growths;
mod runs;
mod two_letters;
