// The two desks on small files, one table per kind.
use super::*;
use std::process::Abort;
use std::test::Fail;

fn expect_texts(rt: &impl Abort, desk: &MemoryDesk, texts: [&str; 3]) {
    let [file, printed, warned] = texts;
    assert_eq!(rt; desk.file("out").unwrap_or(b"none"), file.as_bytes());
    assert_eq!(rt; desk.printed(), printed.as_bytes());
    assert_eq!(rt; desk.warned(), warned.as_bytes());
}

#[test]
fn a_memory_desk_gives_back_what_was_written(rt: HostRuntime) -> Result<(), Fail> {
    let alloc = rt.alloc();
    let mut desk = MemoryDesk::new(alloc);
    desk.add_file("in", b"rows")?;
    desk.add_file("in", b"columns")?;
    assert_eq!(rt;
        desk.fetch(alloc, "in", 7)?.as_slice(),
        b"columns".as_slice()
    );
    assert_eq!(rt; desk.fetch(alloc, "in", 6).err(), Some(FetchError::TooLong));
    assert_eq!(rt; desk.faults(), (0, 0));
    assert_eq!(rt; desk.fetch(alloc, "out", 7).err(), Some(FetchError::Failed));
    assert_eq!(rt; desk.faults(), (1, 0));
    desk.put("out", b"first")?;
    desk.put("out", b"log")?;
    desk.print(b"re")?;
    desk.print(b"port")?;
    desk.warn(b"careful")?;
    expect_texts(&rt, &desk, ["log", "report", "careful"]);
    assert_eq!(rt; desk.fetch(alloc, "out", 3)?.as_slice(), b"log".as_slice());
    assert_eq!(rt; desk.file("in").unwrap_or(b"none"), b"columns".as_slice());
    assert_eq!(rt; desk.faults(), (1, 0));
    Ok(())
}

#[test]
fn a_memory_desk_fails_at_the_listed_call(rt: HostRuntime) -> Result<(), Fail> {
    let alloc = rt.alloc();
    // The calls are a fetch, a put, a print and a warning.
    let table: [(u64, usize, [&str; 3], (u64, u64)); 6] = [
        (0, 0, ["log", "report", "careful"], (0, 0)),
        (1, 9, ["log", "report", "careful"], (1, 0)),
        (2, 2, ["lo", "report", "careful"], (0, 1)),
        (3, 0, ["log", "", "careful"], (0, 1)),
        (4, 9, ["log", "report", "careful"], (0, 1)),
        (5, 0, ["log", "report", "careful"], (0, 0)),
    ];
    for (call, kept, texts, faults) in table {
        let mut desk = MemoryDesk::new(alloc);
        desk.add_file("in", b"rows")?;
        desk.fail(call, 1)?;
        desk.fail(call, kept)?;
        let fetched = desk.fetch(alloc, "in", 9).err();
        let put = desk.put("out", b"log").err();
        let printed = desk.print(b"report").err();
        let warned = desk.warn(b"careful").err();
        let failed = [put, printed, warned];
        assert_eq!(rt;
            fetched == Some(FetchError::Failed),
            call == 1,
            "at call {call}"
        );
        for (answer, number) in failed.iter().zip([2, 3, 4]) {
            assert_eq!(rt;
                *answer == Some(DeskError::Failed),
                call == number,
                "at call {call}"
            );
        }
        expect_texts(&rt, &desk, texts);
        assert_eq!(rt; desk.faults(), faults, "at call {call}");
    }
    Ok(())
}

// A crate above knows a desk by its trait alone.
fn copied<D: Desk>(alloc: Global, desk: &mut D, from: &str) -> Result<(), Fail> {
    let bytes = desk.fetch(alloc, from, 9)?;
    desk.put("out", &bytes)?;
    desk.print(&bytes)?;
    desk.warn(&bytes)?;
    Ok(())
}

#[test]
fn a_quiet_desk_has_no_faults(rt: HostRuntime) -> Result<(), Fail> {
    let alloc = rt.alloc();
    let mut desk = QuietDesk::new(alloc);
    desk.add_file("in", b"rows")?;
    copied(alloc, &mut desk, "missing")?;
    assert_eq!(rt; desk.file("out").unwrap_or(b"none"), b"".as_slice());
    copied(alloc, &mut desk, "in")?;
    assert_eq!(rt; desk.file("out").unwrap_or(b"none"), b"rows".as_slice());
    assert_eq!(rt; desk.fetch(alloc, "in", 3).err(), Some(FetchError::TooLong));
    assert_eq!(rt; desk.file("missing").is_none(), true);
    assert_eq!(rt; desk.printed(), b"rows".as_slice());
    assert_eq!(rt; desk.warned(), b"rows".as_slice());
    assert_eq!(rt; desk.faults(), (0, 0));
    Ok(())
}
