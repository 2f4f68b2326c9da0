//! Words of faults that no message of the program has.

use pr_jobs::ShapesFault;
use pr_options::{DelayFault, JobFault};
use std::fmt::Display;
use std::process::Abort;

/// A fault is reported so.
fn tells(rt: &(impl Abort + AllocGlobal), fault: &impl Display, wanted: &str) {
    let is_well = match format!(in rt.alloc(); "{fault}") {
        Ok(text) => text.as_str() == wanted,
        Err(_refused) => false,
    };
    assert!(rt; is_well, "{wanted}");
}

/// Of a file of characters (texts_of_faults), of an option alone, and of words: the program reports lack of memory in its
/// own words.
#[test]
fn fault_texts(rt: HostRuntime) {
    tells(&rt, &ShapesFault::ReadFailed, "read failed");
    tells(&rt, &ShapesFault::NoMemory, "out of memory");
    tells(&rt, &DelayFault::BadDelays, "bad --delays");
    tells(&rt, &DelayFault::NoMemory, "out of memory");
    tells(&rt, &JobFault::NoMemory, "out of memory");
    assert!(&rt; JobFault::NoMemory.values().is_none());
}
