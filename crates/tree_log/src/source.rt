// The lines of a text and the words of a line.
ghost use Rattle.std.specs.Prelude.{◌≡◌, ◌<◌, ◌∷◌, ◌++◌, ℕ, List, [], length, position, option_map, IfSome, IfNone};
ghost use Rattle.std.specs.Iterator.{YieldsFirstRef, item_count};
ghost use Rattle.tree_log.specs.Logs.{whole_lines};
ghost use Rattle.tree_log.specs.LineWords as spec;
ghost use Rattle.tree_log.specs.Reads.{Reads};
ghost use Rattle.num_text.specs.Lines.{is_line_feed};

use crate::fault::Fault;
use std::marker::Model;

fn first_line_feed(bytes: &[u8]) -> Option<usize>
    ensures { result ≡ position is_line_feed bytes.now }
{
    bytes.iter().position(|b| *b == b'\n')
}

fn first_space(bytes: &[u8]) -> Option<usize>
    ensures { result ≡ position spec.is_space bytes.now }
{
    bytes.iter().position(|b| *b == b' ')
}

/// The first line that ends with a line feed, without it, and the bytes behind it.
pub(crate) fn cut_line(bytes: &[u8]) -> Option<(&[u8], &[u8])>
    ensures some { IfSome result (λ cut. whole_lines bytes.now ≡ cut.0.now ∷ whole_lines cut.1.now) }
    ensures text { IfSome result (λ cut. bytes.now ≡ cut.0.now ++ 10 ∷ cut.1.now) }
    ensures shorter { IfSome result (λ cut. length cut.1.now < length bytes.now) }
    ensures none { IfNone result (whole_lines bytes.now ≡ []) }
{
    let end = first_line_feed(bytes)?;
    Some((&bytes[..end], &bytes[end + 1..]))
}

/// The words of a line, parted by one space each. A contract sees those that are still to come.
#[derive(Drop)]
pub(crate) struct Words<'a> {
    rest: Option<&'a [u8]>,
}

impl<'a> Model for Words<'a> {
    ghost use Rattle.std.specs.Prelude.{ℕ, List, option_map};
    ghost use Rattle.tree_log.specs.LineWords.{words_left};

    ghost Value = { List (List ℕ) };

    ghost view = { λ w. words_left (option_map (λ b. b.now) w.rest) };
}

// The bytes before the first space, and those behind it where there is one.
fn split_word(bytes: &[u8]) -> (&[u8], Option<&[u8]>)
    ensures { spec.words_of bytes.now ≡ result.0.now ∷ spec.words_left (option_map (λ b. b.now) result.1) }
{
    match first_space(bytes) {
        Some(end) => (&bytes[..end], Some(&bytes[end + 1..])),
        None => (bytes, None),
    }
}

impl<'a> Words<'a> {
    pub(crate) fn new(line: &'a [u8]) -> Words<'a>
        ensures { result ≡ spec.words_of line.now }
    {
        Words { rest: Some(line) }
    }
}

impl<'a> Iterator for Words<'a> {
    type Item = &'a [u8];

    ghost next_gives = { YieldsFirstRef (λ s. s) };

    ghost remaining = { item_count (λ s. s) };

    fn next(&mut self) -> Option<&'a [u8]> {
        let bytes = self.rest?;
        let (word, rest) = split_word(bytes);
        self.rest = rest;
        Some(word)
    }
}

/// The words behind the first one, where it is this one.
pub(crate) fn behind<'a>(word: &[u8], mut words: Words<'a>) -> Result<Words<'a>, Fault>
    ensures { Reads (spec.behind word.now words.entry) result }
{
    let first = words.next().ok_or(Fault::Spelling)?;
    if first == word {
        Ok(words)
    } else {
        Err(Fault::Spelling)
    }
}

/// Whether no words are left.
pub(crate) fn expect_end(mut words: Words<'_>) -> Result<(), Fault>
    ensures { Reads (spec.none_left words.entry) result }
{
    match words.next() {
        None => Ok(()),
        Some(_) => Err(Fault::Spelling),
    }
}
