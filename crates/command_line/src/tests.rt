// Command lines and what they are read as.
use super::*;
use std::alloc::{AllocError, Global};
use std::test::Fail;

const PLAIN: Command<'static> = Command::Solve {
    model: "m",
    changes: None,
    workers: 1,
    nodes: 100_001,
    log: None,
};

const FULL: Command<'static> = Command::Solve {
    model: "m",
    changes: Some("c"),
    workers: 64,
    nodes: 7,
    log: Some("l"),
};

const CHECK: Command<'static> = Command::Check {
    model: "m",
    changes: Some("c"),
    log: "l",
};

const GEN: Command<'static> = Command::Gen {
    seed: u64::MAX,
    columns: 1000,
    rows: 0,
    scenarios: 64,
};

fn words_of(alloc: Global, words: &[&str]) -> Result<Vec<String>, AllocError> {
    let mut all = Vec::new(alloc);
    for word in words {
        all.push(String::from_str(alloc, word)?)?;
    }
    Ok(all)
}

#[test]
fn reads_command_lines(rt: HostRuntime) -> Result<(), Fail> {
    let cases: [(&[&str], Result<Command<'_>, UsageError>); 12] = [
        (&["solve", "m", "-"], Ok(PLAIN)),
        (
            &[
                "solve",
                "m",
                "c",
                "--log",
                "l",
                "--nodes",
                "7",
                "--workers",
                "064",
            ],
            Ok(FULL),
        ),
        (&["check", "m", "c", "l"], Ok(CHECK)),
        (&["gen", "18446744073709551615", "1000", "0", "64"], Ok(GEN)),
        (
            &["gen", "18446744073709551616", "1", "0", "0"],
            Err(UsageError),
        ),
        (&["solve", "m", "-", "--workers", "0"], Err(UsageError)),
        (&["solve", "m", "-", "--workers=2"], Err(UsageError)),
        (
            &["solve", "m", "-", "--nodes", "1", "--nodes", "1"],
            Err(UsageError),
        ),
        (&["solve", "-m", "-"], Err(UsageError)),
        (&["solve", "m"], Err(UsageError)),
        (&["check", "m", "-", "l", "--log"], Err(UsageError)),
        (&[], Err(UsageError)),
    ];
    for (words, want) in cases {
        let words = words_of(rt.alloc(), words)?;
        assert_eq!(rt; read_words(&words), want);
    }
    Ok(())
}
