// The line that says a network's limits, and why another says none.
use limits::Limit;
use text::{NetworkError, read_network};

// The memory that the limits of the line ask for, or why it says none.
fn read(line: &[u8]) -> Result<u64, NetworkError> {
    read_network(line).map(|limits| limits.memory())
}

fn not_number(limit: Limit) -> Result<u64, NetworkError> {
    Err(NetworkError::NotNumber(limit))
}

fn out_of_range(limit: Limit) -> Result<u64, NetworkError> {
    Err(NetworkError::OutOfRange(limit))
}

#[test]
fn lines_that_say_limits(rt: HostRuntime) {
    // 64 + 8 * members * periods * (2 * steps + 2) + 8 * periods + 4 * blocks
    assert_eq!(rt; read(b"network 4 4 4 4"), Ok(1392));
    assert_eq!(rt; read(b"network 1 1 1 1"), Ok(108));
    assert_eq!(rt; read(b"network 64 32 8 256"), Ok(296256));
}

#[test]
fn lines_that_say_none(rt: HostRuntime) {
    assert_eq!(rt; read(b""), Err(NetworkError::NotNetwork));
    assert_eq!(rt; read(b"hello"), Err(NetworkError::NotNetwork));
    assert_eq!(rt; read(b"network 4 4 4"), Err(NetworkError::NotNetwork));
    assert_eq!(rt; read(b"network 4 4 4 4 4"), Err(NetworkError::NotNetwork));
    assert_eq!(rt; read(b"network 4 4 4 4 "), Err(NetworkError::NotNetwork));
    assert_eq!(rt; read(b"network  4 4 4 4"), Err(NetworkError::NotNetwork));
    assert_eq!(rt; read(b"Network 4 4 4 4"), Err(NetworkError::NotNetwork));
}

#[test]
fn words_that_are_no_numbers(rt: HostRuntime) {
    assert_eq!(rt; read(b"network 04 4 4 4"), not_number(Limit::Members));
    assert_eq!(rt; read(b"network 4 +4 4 4"), not_number(Limit::Periods));
    assert_eq!(rt; read(b"network 4 4  4"), not_number(Limit::Steps));
    assert_eq!(rt; read(b"network 4 4 4 4\r"), not_number(Limit::Blocks));
    assert_eq!(rt;
        read(b"network 4 4 4 18446744073709551616"),
        not_number(Limit::Blocks)
    );
    assert_eq!(rt;
        read(b"network 99999999999999999999999999999999999999 4 4 4"),
        not_number(Limit::Members)
    );
    // the first word that is none, before any limit
    assert_eq!(rt; read(b"network 0 x 4 4"), not_number(Limit::Periods));
}

#[test]
fn limits_out_of_range(rt: HostRuntime) {
    assert_eq!(rt; read(b"network 0 4 4 4"), out_of_range(Limit::Members));
    assert_eq!(rt; read(b"network 65 4 4 4"), out_of_range(Limit::Members));
    assert_eq!(rt; read(b"network 4 0 4 4"), out_of_range(Limit::Periods));
    assert_eq!(rt; read(b"network 4 33 4 4"), out_of_range(Limit::Periods));
    assert_eq!(rt; read(b"network 4 4 0 4"), out_of_range(Limit::Steps));
    assert_eq!(rt; read(b"network 4 4 9 4"), out_of_range(Limit::Steps));
    assert_eq!(rt; read(b"network 4 4 4 0"), out_of_range(Limit::Blocks));
    assert_eq!(rt; read(b"network 4 4 4 257"), out_of_range(Limit::Blocks));
    assert_eq!(rt;
        read(b"network 4 4 4 18446744073709551615"),
        out_of_range(Limit::Blocks)
    );
}
