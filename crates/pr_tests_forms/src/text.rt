//! A text that the tests put together.

use std::process::Abort;

/// Texts in one.
pub fn joined(rt: &(impl Abort + AllocGlobal), parts: &[&str]) -> String {
    let mut text = String::new(rt.alloc());
    for part in parts {
        text.push_str(part).expect(rt, "memory");
    }
    text
}
