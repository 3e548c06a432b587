// A member that is not opened, by each reason, and memory that holds none: nothing changes.
use crate::refused::opened;
use limits::Limit;
use member::{NotOpen, OpenError, call, open};
use std::process::Abort;
use std::test::Fail;

// This limit is the first that is out of range.
fn no_limits(rt: &impl Abort, members: u64, periods: u64, steps: u64, blocks: u64, first: Limit) {
    let mut memory = [7; 472];
    assert_eq!(rt;
        open(&mut memory, members, periods, steps, blocks, 0),
        Err(OpenError::OutOfRange(first))
    );
    assert!(rt; memory == [7; 472], "nothing changes");
}

#[test]
fn limits_out_of_range(rt: HostRuntime) {
    no_limits(&rt, 0, 2, 2, 2, Limit::Members);
    no_limits(&rt, 65, 2, 2, 2, Limit::Members);
    no_limits(&rt, 4, 0, 2, 2, Limit::Periods);
    no_limits(&rt, 4, 33, 2, 2, Limit::Periods);
    no_limits(&rt, 4, 2, 0, 2, Limit::Steps);
    no_limits(&rt, 4, 2, 9, 2, Limit::Steps);
    no_limits(&rt, 4, 2, 2, 0, Limit::Blocks);
    no_limits(&rt, 4, 2, 2, 257, Limit::Blocks);
}

#[test]
fn not_member(rt: HostRuntime) {
    let mut memory = [7; 472];
    assert_eq!(rt; open(&mut memory, 4, 2, 2, 2, 4), Err(OpenError::NotMember));
    assert!(rt; memory == [7; 472], "nothing changes");
}

// With one number less than limits ask for, and with far too little for the greatest limits.
#[test]
fn too_short(rt: HostRuntime) {
    let mut memory = [7; 471];
    assert_eq!(rt;
        open(&mut memory, 4, 2, 2, 2, 3),
        Err(OpenError::TooShort(472))
    );
    assert_eq!(rt;
        open(&mut memory, 64, 32, 8, 256, 63),
        Err(OpenError::TooShort(296256))
    );
    assert!(rt; memory == [7; 471], "nothing changes");
}

// What goes beyond the memory asked for is left alone.
#[test]
fn rest_stays(rt: HostRuntime) {
    let mut memory = [7; 480];
    assert_eq!(rt; open(&mut memory, 4, 2, 2, 2, 3), Ok(()));
    assert!(rt; call(&mut memory, &[3]).is_ok());
    assert!(rt; memory[472..480] == [7; 8]);
}

// Whatever the bytes are.
#[test]
fn no_member_in_zeros(rt: HostRuntime) {
    let mut memory = [0; 472];
    assert_eq!(rt; call(&mut memory, &[3]), Err(NotOpen));
    assert_eq!(rt; call(&mut memory, &[]), Err(NotOpen));
    assert!(rt; memory == [0; 472], "nothing changes");
}

// A member's memory with its last number cut off, and none at all.
#[test]
fn no_member_in_a_part(rt: HostRuntime) -> Result<(), Fail> {
    let mut memory = opened()?;
    let before = memory;
    assert_eq!(rt; call(&mut memory[0..471], &[3]), Err(NotOpen));
    assert_eq!(rt; call(&mut memory[0..0], &[3]), Err(NotOpen));
    assert!(rt; memory == before, "nothing changes");
    Ok(())
}
