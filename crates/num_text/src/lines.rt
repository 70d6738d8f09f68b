// Lines and fields of a text.
ghost use Rattle.std.specs.Prelude.{◌≡◌, ℕ, List, ◌<◌, ◌≤◌, ◌∷◌, length, map, OnOk, not, position};
ghost use Rattle.std.specs.List.{list_any};
ghost use Rattle.std.specs.Iterator.{YieldsFirstRef, item_count};
ghost use Rattle.num_text.specs.Lines as lines;
ghost use Rattle.num_text.specs.Words as words;

use std::alloc::AllocError;
use std::marker;

/// Whether a byte parts fields: space, tab or carriage return.
pub fn is_blank(byte: u8) -> bool
    ensures { result ≡ lines.is_blank byte }
{
    byte == b' ' || byte == b'\t' || byte == b'\r'
}

fn is_line_feed(byte: u8) -> bool
    ensures { result ≡ lines.is_line_feed byte }
{
    byte == b'\n'
}

fn first_line_feed(bytes: &[u8]) -> Option<usize>
    ensures { result ≡ position lines.is_line_feed bytes.now }
{
    bytes.iter().position(|b| is_line_feed(*b))
}

// The first line, and the text behind its line feed.
fn split_line(bytes: &[u8]) -> (&[u8], &[u8])
    requires { 0 < length bytes.now }
    ensures { lines.lines_of bytes.now ≡ result.0.now ∷ lines.lines_of result.1.now }
{
    match first_line_feed(bytes) {
        Some(end) => (&bytes[..end], &bytes[end + 1..]),
        None => (bytes, &[]),
    }
}

/// Replaces the content of `fields` by the fields of a line: its longest runs of bytes that aren't
/// blank. Where memory is wanting, the content is left open.
pub fn read_fields<'a>(line: &'a [u8], fields: &mut Vec<&'a [u8]>) -> Result<(), AllocError>
    ensures { OnOk result (map (λ f. f.now) fields.new.items ≡ lines.fields_of line.now) }
{
    fields.clear();
    for piece in line.split(|b| is_blank(*b)) {
        if !piece.is_empty() {
            fields.push(piece)?;
        }
    }
    Ok(())
}

// Whether a byte of the line isn't blank.
fn has_text(line: &[u8]) -> bool
    ensures { result ≡ list_any (λ b. not (lines.is_blank b)) line.now }
{
    line.iter().any(|b| !is_blank(*b))
}

/// Whether a line has a field.
pub fn has_fields(line: &[u8]) -> bool
    ensures { result ≡ lines.is_nonempty (lines.fields_of line.now) }
{
    has_text(line)
}

/// Whether a line is read: it has a field and doesn't begin with `*`.
pub fn is_read(line: &[u8]) -> bool
    ensures { result ≡ words.is_read line.now }
{
    match line {
        [] => false,
        [b'*', ..] => false,
        [_, ..] => has_fields(line),
    }
}

/// The lines of a text, each without its line feed. Bytes behind the last line feed are a line
/// where there are any. A contract sees the lines that are still to come, and the iterator gives
/// them in order.
#[derive(Drop)]
pub struct Lines<'a> {
    rest: &'a [u8],
}

impl<'a> marker::Model for Lines<'a> {
    ghost Value = { List (List ℕ) };

    ghost view = { λ s. lines.lines_of s.rest.now };
}

impl<'a> Lines<'a> {
    pub fn new(bytes: &'a [u8]) -> Lines<'a>
        ensures lines { result ≡ lines.lines_of bytes.now }
        ensures bound { length result ≤ length bytes.now }
    {
        Lines { rest: bytes }
    }
}

impl<'a> Iterator for Lines<'a> {
    type Item = &'a [u8];

    ghost next_gives = { YieldsFirstRef (λ s. s) };

    ghost remaining = { item_count (λ s. s) };

    fn next(&mut self) -> Option<&'a [u8]> {
        if self.rest.is_empty() {
            return None;
        }
        let (line, rest) = split_line(self.rest);
        self.rest = rest;
        Some(line)
    }
}

#[cfg(test)]
mod tests;
