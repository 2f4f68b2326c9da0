//! The text of the fault that no case of the program shows.

use pr_basic::ScriptFault;

#[test]
fn text_of_refused_memory(rt: HostRuntime) {
    let fault = ScriptFault::NoMemory;
    let told = format!(in rt.alloc(); "{fault}").expect(&rt, "memory");
    assert!(rt; told.as_str() == "out of memory");
}
