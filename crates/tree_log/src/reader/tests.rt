// What no clause says: that a log is read at all, and the answers to worked texts.

use super::read_log;
use crate::{LogError, LogKind};
use num_text::Lines;
use std::alloc::{AllocError, Global};
use std::process::Abort;
use std::test::Fail;

// A line of this text may be changed.
const FOUR: &[u8] =
    b"scenlog 1\nsize 4 2 1 1\nclaim optimal -7 1 2\nclaim optimal -4 0 2\nclaim optimal -10 2 0\nclaim infeasible\nleaf\nsteps 2 0 0 U 0 1 U\nvector 2 1 0 -3\nvector 1 1 0 -2\nverdicts b0 b0 b1 e\nend\n";

const PARITY: &[u8] =
    b"scenlog 1\nsize 1 3 1 3\nclaim infeasible\nsplit 1 0 0\nstay 0\nsteps 0\nvector 1 0\nverdicts b0\nleaf\nsteps 2 0 1 L 0 2 L\nverdicts m0\nleaf\nsteps 2 0 1 U 0 2 U\nverdicts m0\nend\n";

const WIDE: &[u8] =
    b"scenlog 1\nsize 3 2 3 4\nclaim limit none -1152921504606846976\nclaim limit 1152921504606846976 -2 1000000 -1000000\nclaim infeasible\nsplit 1 1 -1000000\nstay 0 2\nsteps 1 2 1 L\nvector 1048576 2 0 -1099511627776 2 1099511627776\nverdicts f9 b0 p\nrest\nrest\nrest\nend\n";

const BARE: &[u8] = b"scenlog 1\nsize 1 0 1 1\nclaim optimal 0\nleaf\nsteps 0\nverdicts p\nend\n";

// The answer to a text: how many claims and nodes its log has, or why it is none.
fn answer(rt: &impl Abort, alloc: Global, text: &[u8]) -> Result<(usize, usize), LogError> {
    assert!(rt; text.len() <= 1_073_741_824);
    let log = read_log(alloc, text)?;
    Ok((log.answers.len(), log.tree.len()))
}

#[test]
fn reads_worked_logs(rt: HostRuntime) -> Result<(), Fail> {
    let rows = [(FOUR, 4, 1), (PARITY, 1, 3), (WIDE, 3, 4), (BARE, 1, 1)];
    for (text, claims, nodes) in rows {
        let read = answer(&rt, rt.alloc(), text);
        assert_eq!(rt; read, Ok((claims, nodes)), "at {claims}");
    }
    Ok(())
}

// A text whose line `number`, counted from 1, is this one.
fn with_line(alloc: Global, text: &[u8], number: usize, new: &[u8]) -> Result<Vec<u8>, AllocError> {
    let mut changed = Vec::new(alloc);
    let mut k: usize = 0;
    for old in Lines::new(text) {
        k = k.saturating_add(1);
        let line = if k == number { new } else { old };
        changed.extend_from_slice(line)?;
        changed.push(b'\n')?;
    }
    Ok(changed)
}

#[test]
fn refuses_changed_lines(rt: HostRuntime) -> Result<(), Fail> {
    let rows = [
        (FOUR, 1, "scenlog 3", 1),
        (FOUR, 1, "scenlog 1 ", 1),
        (FOUR, 1, " scenlog 1", 1),
        (FOUR, 1, "scenlog  1", 1),
        (FOUR, 1, "scenlog 1\r", 1),
        (FOUR, 1, "", 1),
        (FOUR, 2, "size 4 2 1 2", 12),
        (FOUR, 2, "size 4 2 1 100002", 2),
        (FOUR, 2, "size 4 2 1 100001", 12),
        (FOUR, 2, "size 65 2 1 1", 2),
        (FOUR, 2, "size 0 2 1 1", 2),
        (FOUR, 2, "size 4 1001 1 1", 2),
        (FOUR, 2, "size 4 2 1 0", 2),
        (FOUR, 2, "size 04 2 1 1", 2),
        (FOUR, 2, "size 3 2 1 1", 6),
        (FOUR, 2, "size 5 2 1 1", 7),
        (FOUR, 2, "size 4 3 1 1", 3),
        (FOUR, 2, "size 4 2 0 1", 8),
        (FOUR, 3, "claim optimal -7 1", 3),
        (FOUR, 3, "claim optimal -7 1 2 0", 3),
        (FOUR, 3, "claim optimal -0 1 2", 3),
        (FOUR, 3, "claim optimal +7 1 2", 3),
        (FOUR, 3, "claim optimal 7.0 1 2", 3),
        (FOUR, 3, "claim optimal 1152921504606846977 1 2", 3),
        (FOUR, 3, "claim optimal -7 1 1000001", 3),
        (FOUR, 3, "claim limit none", 3),
        (FOUR, 3, "claim limit -7 1 2", 3),
        (FOUR, 3, "claim limit none -8 1 2", 3),
        (FOUR, 6, "claim infeasible ", 6),
        (FOUR, 6, "claim", 6),
        (FOUR, 7, "root", 7),
        (FOUR, 7, "split 1 0 0", 7),
        (FOUR, 7, "rest", 8),
        (FOUR, 8, "steps 3 0 0 U 0 1 U", 8),
        (FOUR, 8, "steps 2 0 0 U 0 1", 8),
        (FOUR, 8, "steps 2 0 0 U 0 2 U", 8),
        (FOUR, 8, "steps 2 1 0 U 0 1 U", 8),
        (FOUR, 8, "steps 2 0 0 V 0 1 U", 8),
        (FOUR, 8, "steps", 8),
        (FOUR, 9, "vector 2 1 0 -03", 9),
        (FOUR, 9, "vector 2 1 0 0", 9),
        (FOUR, 9, "vector 2 2 0 -3", 9),
        (FOUR, 9, "vector 2 2 0 -3 0 -3", 9),
        (FOUR, 9, "vector 1048577 1 0 -3", 9),
        (FOUR, 9, "vector 2 1 1 -3", 9),
        (FOUR, 9, "vector 2 1 0 1099511627777", 9),
        (FOUR, 11, "vector 1 1 0 -2", 11),
        (FOUR, 11, "verdicts", 11),
        (FOUR, 11, "verdicts b0 b0 b1 e e", 11),
        (FOUR, 11, "verdicts b0 b0 b1 x", 11),
        (FOUR, 11, "verdicts b10 b0 b1 e", 11),
        (FOUR, 11, "verdicts m1 b0 b1 e", 11),
        (FOUR, 11, "verdicts b b0 b1 e", 11),
        (FOUR, 12, "end end", 12),
        (FOUR, 12, "END", 12),
        (PARITY, 4, "split 2 0 0", 4),
        (PARITY, 4, "split 0 0 0", 4),
        (PARITY, 4, "split 1 3 0", 4),
        (PARITY, 4, "split 1 0 1000001", 4),
        (PARITY, 4, "split 1 0 0 0", 4),
        (PARITY, 5, "stay", 5),
        (PARITY, 5, "stay 1", 5),
        (PARITY, 5, "stay 0 0", 5),
        (WIDE, 7, "stay 2 0", 7),
        (WIDE, 9, "vector 1 2 2 1 0 1", 9),
    ];
    let spelling = LogKind::Spelling;
    for (text, number, new, line) in rows {
        let changed = with_line(rt.alloc(), text, number, new.as_bytes())?;
        let wanted = Err(LogError::Line {
            line,
            kind: spelling,
        });
        assert_eq!(rt; answer(&rt, rt.alloc(), &changed), wanted, "at {new}");
    }
    Ok(())
}

#[test]
fn asks_for_the_end(rt: HostRuntime) -> Result<(), Fail> {
    let bytes = FOUR;
    let mut feeds: u32 = 0;
    for end in 0..bytes.len() {
        if end > 0 && bytes[end - 1] == b'\n' {
            feeds = feeds.saturating_add(1);
        }
        let wanted = Err(LogError::Line {
            line: feeds.saturating_add(1),
            kind: LogKind::NoEnd,
        });
        assert_eq!(rt; answer(&rt, rt.alloc(), &bytes[..end]), wanted, "at {end}");
    }
    Ok(())
}

#[test]
fn looks_behind_the_end(rt: HostRuntime) -> Result<(), Fail> {
    let rows = [
        ("end\n", 13, LogKind::Spelling),
        ("\n", 13, LogKind::Spelling),
        (" ", 13, LogKind::NoEnd),
        ("end", 13, LogKind::NoEnd),
    ];
    for (more, line, kind) in rows {
        let mut text = FOUR.to_vec(rt.alloc())?;
        text.extend_from_slice(more.as_bytes())?;
        let wanted = Err(LogError::Line { line, kind });
        assert_eq!(rt; answer(&rt, rt.alloc(), &text), wanted, "at {more}");
    }
    Ok(())
}
