ghost use Rattle.std.specs.Prelude.{◌≡◌, length, count_by};
ghost use Rattle.num_text.specs.Lines.{lines_of};
ghost use Rattle.num_text.specs.Words as words;

use super::*;
use std::alloc::{AllocError, Global};
use std::test::Fail;

// A caller knows which lines come.
fn line_count(text: &[u8]) -> usize
    ensures { result ≡ length (lines_of text.now) }
{
    Lines::new(text).count()
}

// A caller knows what a chain over the lines gives.
fn read_count(text: &[u8]) -> usize
    ensures { result ≡ count_by words.is_read (lines_of text.now) }
{
    Lines::new(text).filter(|line| is_read(*line)).count()
}

// The lines, each with a bar behind it.
fn barred_lines(alloc: Global, text: &[u8]) -> Result<Vec<u8>, AllocError> {
    let mut out = Vec::new(alloc);
    for line in Lines::new(text) {
        out.extend_from_slice(line)?;
        out.push(b'|')?;
    }
    Ok(out)
}

#[test]
fn lines_of_texts(rt: HostRuntime) -> Result<(), Fail> {
    let cases: [(&[u8], &[u8], usize); 5] = [
        (b"", b"", 0),
        (b"a", b"a|", 1),
        (b"a\n", b"a|", 1),
        (b"\nb", b"|b|", 2),
        (b"a\r\n\nb\n\n", b"a\r||b||", 4),
    ];
    for (text, want, count) in cases {
        let out = barred_lines(rt.alloc(), text)?;
        assert_eq!(rt; out.as_slice(), want);
        assert_eq!(rt; line_count(text), count);
    }
    Ok(())
}

#[test]
fn fields_replace_the_old_ones(rt: HostRuntime) -> Result<(), Fail> {
    let mut fields = Vec::new(rt.alloc());
    read_fields(b"one two three", &mut fields)?;
    read_fields(b"\t UP  b x\r", &mut fields)?;
    let want: [&[u8]; 3] = [b"UP", b"b", b"x"];
    assert_eq!(rt; fields.len(), 3);
    for (field, wanted) in fields.iter().zip(want.iter()) {
        assert_eq!(rt; *field, *wanted);
    }
    Ok(())
}

#[test]
fn lines_that_are_read(rt: HostRuntime) {
    let cases: [(&[u8], bool, bool); 5] = [
        (b"", false, false),
        (b" \t\r", false, false),
        (b"ROWS", true, true),
        (b" x", true, true),
        (b"* note", true, false),
    ];
    for (line, has, is) in cases {
        assert_eq!(rt; has_fields(line), has);
        assert_eq!(rt; is_read(line), is);
    }
    assert_eq!(rt; read_count(b"* a\n\n b\nc"), 2);
    assert!(rt; is_blank(b'\t') && !is_blank(b'\n'));
}
