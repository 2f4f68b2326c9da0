//! The calls of the program's library over readers and writers in memory.

mod calls;
mod faults;
mod limits;
mod pictures;
mod readers;
mod slow;
