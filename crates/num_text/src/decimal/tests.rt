use super::*;
use crate::read_number;
use std::test::Fail;

#[test]
fn written_texts(rt: HostRuntime) -> Result<(), Fail> {
    let cases: [(i64, &[u8]); 7] = [
        (0, b"x=0"),
        (7, b"x=7"),
        (-10, b"x=-10"),
        (100, b"x=100"),
        (i64::MAX, b"x=9223372036854775807"),
        (-i64::MAX, b"x=-9223372036854775807"),
        (i64::MIN, b"x=-9223372036854775808"),
    ];
    for (value, want) in cases {
        let mut out = Vec::from_slice(rt.alloc(), b"x=")?;
        write_number(&mut out, value)?;
        assert_eq!(rt; out.as_slice(), want);
        if value > i64::MIN {
            assert_eq!(rt; read_number(&want[2..]), Ok(value));
        }
    }
    Ok(())
}
