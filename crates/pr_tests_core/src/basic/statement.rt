//! Copies of statements, and numbers at their bounds.

use pr_basic::{Device, Line, Second, Statement};

#[test]
fn a_copy_prints_the_same(rt: HostRuntime) {
    let bytes = b"HI".to_vec(rt.alloc()).expect(&rt, "memory");
    let line = Line { bytes, ends: false };
    let statement = Statement::PrintTo { file: 4, line };
    let copy = statement.copy(rt.alloc()).expect(&rt, "memory");
    let told = format!(in rt.alloc(); "{copy:?}").expect(&rt, "memory");
    let wanted = "PrintTo { file: 4, line: Line { bytes: [72, 73], ends: false } }";
    assert!(rt; told.as_str() == wanted);
}

/// Numbers, and whether each is a device's and a secondary address.
const BOUNDS: [(u8, bool, bool); 8] = [
    (0, false, true),
    (3, false, true),
    (4, true, true),
    (15, true, true),
    (16, true, false),
    (30, true, false),
    (31, false, false),
    (255, false, false),
];

/// Whether a device of this number can be made, and has it, exactly if it is wanted.
fn is_device(number: u8, wanted: bool) -> bool {
    match Device::new(number) {
        Some(device) => wanted && device.get() == number,
        None => !wanted,
    }
}

/// The same for a secondary address.
fn is_second(number: u8, wanted: bool) -> bool {
    match Second::new(number) {
        Some(second) => wanted && second.get() == number,
        None => !wanted,
    }
}

#[test]
fn devices_and_secondary_addresses_at_their_bounds(rt: HostRuntime) {
    for (number, device, second) in BOUNDS {
        assert!(rt;
            is_device(number, device) && is_second(number, second),
            "number {number}"
        );
    }
}
