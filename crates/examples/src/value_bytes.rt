// A value's bytes, and bytes as a value.
use crate::hex::unhex;
use std::process::Abort;
use values::{Value, read_value, write_value};

// The value has these bytes, and these bytes are the value.
fn check_value(rt: &impl Abort, value: Value, digits: &[u8]) {
    let mut bytes = [0; 32];
    assert_eq!(rt; unhex(digits, &mut bytes), 32);
    let mut out = [255; 32];
    write_value(&mut out, value);
    assert_eq!(rt; out, bytes);
    assert!(rt; read_value(&bytes) == value);
    assert_eq!(rt; value.to_le_bytes(), bytes);
    assert!(rt; Value::from_le_bytes(bytes) == value);
}

#[test]
fn value_bytes(rt: HostRuntime) {
    check_value(
        &rt,
        Value::zero(),
        b"0000000000000000000000000000000000000000000000000000000000000000",
    );
    check_value(
        &rt,
        Value::from([1, 0, 0, 0]),
        b"0100000000000000000000000000000000000000000000000000000000000000",
    );
    check_value(
        &rt,
        Value::from([u64::MAX, 0, 0, 0]),
        b"ffffffffffffffff000000000000000000000000000000000000000000000000",
    );
    check_value(
        &rt,
        Value::from([0, 1, 0, 0]),
        b"0000000000000000010000000000000000000000000000000000000000000000",
    );
    let all = Value::from([u64::MAX, u64::MAX, u64::MAX, u64::MAX]);
    check_value(
        &rt,
        all,
        b"ffffffffffffffffffffffffffffffffffffffffffffffffffffffffffffffff",
    );
}
