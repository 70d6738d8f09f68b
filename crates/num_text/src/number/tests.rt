use super::*;
use std::alloc::{AllocError, Global};
use std::test::Fail;

const NOT: Result<i64, NumberError> = Err(NumberError::NotNumber);

const FRACTION: Result<i64, NumberError> = Err(NumberError::Fraction);

const WIDE: Result<i64, NumberError> = Err(NumberError::TooWide);

#[test]
fn worked_texts(rt: HostRuntime) {
    let cases: [(&[u8], Result<i64, NumberError>); 16] = [
        (b"1e2", Ok(100)),
        (b"3.0", Ok(3)),
        (b"+4", Ok(4)),
        (b"100e-2", Ok(1)),
        (b"-0", Ok(0)),
        (b"0e999999999999", Ok(0)),
        (b"12.50E+1", Ok(125)),
        (b"-2.0000000000e+00", Ok(-2)),
        (b".5", FRACTION),
        (b"1e-1", FRACTION),
        (b"1e", NOT),
        (b".", NOT),
        (b"", NOT),
        (b"1.2.3", NOT),
        (b"--1", NOT),
        (b"1e2.0", NOT),
    ];
    for (text, want) in cases {
        assert_eq!(rt; read_number(text), want);
    }
}

#[test]
fn ends_of_the_range(rt: HostRuntime) {
    let cases: [(&[u8], Result<i64, NumberError>); 9] = [
        (b"9223372036854775807", Ok(i64::MAX)),
        (b"-9223372036854775807", Ok(-i64::MAX)),
        (b"9223372036854775808", WIDE),
        (b"-9223372036854775808", WIDE),
        (b"922337203685477580.7e1", Ok(i64::MAX)),
        (b"92233720368547758070000.00e-4", Ok(i64::MAX)),
        (b"0.9223372036854775808e19", WIDE),
        (b"1e19", WIDE),
        (b"1e99999999999999999999", WIDE),
    ];
    for (text, want) in cases {
        assert_eq!(rt; read_number(text), want);
    }
}

// A text of some zeros between two others.
fn with_zeros(
    alloc: Global,
    front: &[u8],
    zeros: usize,
    back: &[u8],
) -> Result<Vec<u8>, AllocError> {
    let mut text = Vec::from_slice(alloc, front)?;
    for _ in 0..zeros {
        text.push(b'0')?;
    }
    text.extend_from_slice(back)?;
    Ok(text)
}

#[test]
fn many_zeros(rt: HostRuntime) -> Result<(), Fail> {
    let cases: [(&[u8], usize, &[u8], Result<i64, NumberError>); 6] = [
        (b"", 10_000, b"7.0", Ok(7)),
        (b"7.", 10_000, b"", Ok(7)),
        (b"7.", 10_000, b"1", FRACTION),
        (b"7", 10_000, b"e-10000", Ok(7)),
        (b"0.", 10_000, b"7e10001", Ok(7)),
        (b"7e-1", 1_000_000, b"", FRACTION),
    ];
    for (front, zeros, back, want) in cases {
        let text = with_zeros(rt.alloc(), front, zeros, back)?;
        assert_eq!(rt; read_number(&text), want);
    }
    Ok(())
}
