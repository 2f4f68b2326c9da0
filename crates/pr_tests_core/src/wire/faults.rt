//! The texts of the faults that no case of the program shows.

use pr_wire::{TraceFault, WaveFault};

#[test]
fn texts_of_refused_memory(rt: HostRuntime) {
    let (trace, wave) = (TraceFault::NoMemory, WaveFault::NoMemory);
    let told = format!(in rt.alloc(); "{trace}, {wave}").expect(&rt, "memory");
    assert!(rt; told.as_str() == "out of memory, out of memory");
}
