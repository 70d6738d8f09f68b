// The sections of a text, and the order in which their headers may stand.
ghost use Rattle.std.specs.Prelude.{◌≡◌, ◌∷◌, ◌++◌, [], List, ℕ, IfOk, IfErr, IfSome, IfNone, OnOk, option_map, is_none, ◌<◌, ◌&&◌, length, if◌then◌else◌, true, false, map, codes, bytes_eq};
ghost use Rattle.std.specs.List.{list_any, list_all};
ghost use Rattle.mps_reader.specs.MpsLines.{Line, headers_of, is_one_of, last_of};
ghost use Rattle.mps_reader.specs.MpsRules.{may_follow, header_kind, direction_kind, direction_words, is_direction, is_maximum};
ghost use Rattle.mps_reader.specs.Sections.{word_of, words_of};
ghost use Rattle.mps_reader.specs.Faults.{IsFault};
ghost use Rattle.mps_reader.specs.TakenLines.{IsHeaderWith, IsDataWith};
ghost use Rattle.mps_reader.specs.Openings.{HeadersAgree, direction_of, GivesDirection, RefusesDirection, header_words};

use crate::MpsKind;
use crate::fault::Fault;
use int_model::Direction;
use std::alloc::Global;

#[derive(Clone, Copy, Debug, PartialEq, Eq)]
pub(crate) enum Section {
    Name,
    ObjSense,
    Rows,
    Columns,
    Rhs,
    Ranges,
    Bounds,
    EndData,
}

// Whether two sections are the same.
fn is_same(one: Section, other: Section) -> bool
    ensures { result ≡ bytes_eq (word_of one) (word_of other) }
{
    one == other
}

// The section that a word names.
fn section_named(word: &[u8]) -> Option<Section>
    ensures some { IfSome result (λ section. word_of section ≡ word.now) }
    ensures none { IfNone result ((before : List (List ℕ)) → may_follow before word.now ≡ false) }
{
    match word {
        b"NAME" => Some(Section::Name),
        b"OBJSENSE" => Some(Section::ObjSense),
        b"ROWS" => Some(Section::Rows),
        b"COLUMNS" => Some(Section::Columns),
        b"RHS" => Some(Section::Rhs),
        b"RANGES" => Some(Section::Ranges),
        b"BOUNDS" => Some(Section::Bounds),
        b"ENDATA" => Some(Section::EndData),
        _ => None,
    }
}

// Whether a word names the direction Max.
fn names_maximum(word: &[u8]) -> bool
    ensures { result ≡ is_maximum word.now }
{
    word == b"MAX".as_slice() || word == b"MAXIMIZE".as_slice()
}

// Whether a word names the direction Min.
fn names_minimum(word: &[u8]) -> bool
    ensures { result ≡ is_one_of (codes "MIN" ∷ codes "MINIMIZE" ∷ []) word.now }
{
    word == b"MIN".as_slice() || word == b"MINIMIZE".as_slice()
}

// The direction that a word names.
fn direction_named(word: &[u8]) -> Result<Direction, MpsKind>
    ensures ok { IfOk result (λ direction. (is_direction word.now ≡ true) × (direction ≡ (if is_maximum word.now then Direction.Max else Direction.Min))) }
    ensures err { IfErr result (λ kind. (kind ≡ MpsKind.Fields) × (is_direction word.now ≡ false)) }
{
    if names_maximum(word) {
        Ok(Direction::Max)
    } else if names_minimum(word) {
        Ok(Direction::Min)
    } else {
        Err(MpsKind::Fields)
    }
}

/// The headers so far, in their order, and the direction that OBJSENSE has given.
#[derive(Drop)]
pub(crate) struct Headers {
    seen: Vec<Section>,
    direction: Option<Direction>,
}

impl Headers {
    pub(crate) fn new(alloc: Global) -> Self
        ensures { HeadersAgree result [] }
    {
        Headers {
            seen: Vec::new(alloc),
            direction: None,
        }
    }

    /// The section that the next data line belongs to.
    pub(crate) fn last(&self) -> Option<Section>
        ensures { option_map word_of result ≡ last_of (words_of self.now.seen.items) }
    {
        self.seen.last().copied()
    }

    // Whether the header of this section has stood.
    fn has(&self, section: Section) -> bool
        ensures { result ≡ list_any (λ s. bytes_eq (word_of section) (word_of s)) self.now.seen.items }
    {
        self.seen.iter().any(|seen| is_same(section, *seen))
    }

    // Whether only headers of NAME have stood.
    fn has_only_name(&self) -> bool
        ensures { result ≡ list_all (λ s. bytes_eq (codes "NAME") (word_of s)) self.now.seen.items }
    {
        self.seen.iter().all(|seen| is_same(Section::Name, *seen))
    }

    // Whether only headers that may stand before ROWS have stood.
    fn is_before_rows(&self) -> bool
        ensures { result ≡ list_all (λ s. is_one_of (codes "NAME" ∷ codes "OBJSENSE" ∷ []) (word_of s)) self.now.seen.items }
    {
        self.seen
            .iter()
            .all(|seen| matches!(*seen, Section::Name | Section::ObjSense))
    }

    #[tactic(auto, using(crate::proofs::HeaderLemmas::by_words))]
    fn may_come(&self, next: Section) -> bool
        ensures { result ≡ may_follow (words_of self.now.seen.items) (word_of next) }
    {
        match next {
            Section::Name => self.seen.is_empty(),
            Section::ObjSense => self.has_only_name(),
            Section::Rows => self.is_before_rows(),
            Section::Columns => self.last() == Some(Section::Rows),
            Section::Rhs | Section::Ranges | Section::Bounds => {
                self.has(Section::Columns) && !self.has(next)
            }
            Section::EndData => self.has(Section::Columns),
        }
    }

    // Whether OBJSENSE has stood without a value.
    fn lacks_direction(&self) -> bool
        ensures { result ≡ (list_any (λ s. bytes_eq (codes "OBJSENSE") (word_of s)) self.now.seen.items && is_none self.now.direction) }
    {
        self.has(Section::ObjSense) && self.direction.is_none()
    }

    // The section of a header, where it may come.
    fn next_section(&self, word: &[u8]) -> Result<Section, MpsKind>
        ensures ok { IfOk result (λ section. (word_of section ≡ word.now) × (may_follow (words_of self.now.seen.items) word.now ≡ true)) }
        ensures err { IfErr result (λ kind. (kind ≡ MpsKind.Section) × (may_follow (words_of self.now.seen.items) word.now ≡ false)) }
    {
        let section = section_named(word).ok_or(MpsKind::Section)?;
        if !self.may_come(section) {
            return Err(MpsKind::Section);
        }
        Ok(section)
    }

    // The direction behind a header with these further fields.
    fn direction_after(
        &self,
        section: Section,
        rest: &[&[u8]],
    ) -> Result<Option<Direction>, MpsKind>
        ensures ok { IfOk result (λ d. GivesDirection self.now.direction (header_words (word_of section) (map (λ f. f.now) rest.now)) d) }
        ensures err { IfErr result (λ kind. (kind ≡ MpsKind.Fields) × RefusesDirection (header_words (word_of section) (map (λ f. f.now) rest.now))) }
    {
        match (section, rest) {
            (Section::ObjSense, [value, ..]) => Ok(Some(direction_named(*value)?)),
            _ => Ok(self.direction),
        }
    }

    /// The direction that the text gives, Min where it gives none.
    pub(crate) fn direction(&self) -> Direction
        ensures { (words : List (List ℕ)) → self.now.direction ≡ direction_of words → result ≡ (if list_any is_maximum words then Direction.Max else Direction.Min) }
    {
        self.direction.unwrap_or(Direction::Min)
    }

    /// Notes a header by its fields.
    pub(crate) fn enter(&mut self, fields: &[&[u8]]) -> Result<Section, Fault>
        requires { 0 < length fields.now }
        ensures ok { IfOk result (λ section. (earlier : List Line) (l : Line) → HeadersAgree self.old earlier → IsHeaderWith l (map (λ f. f.now) fields.now) → (header_kind earlier l ≡ None) × (word_of section ≡ l.section) × HeadersAgree self.new (earlier ++ l ∷ [])) }
        ensures err { IfErr result (λ fault. (earlier : List Line) (l : Line) → HeadersAgree self.old earlier → IsHeaderWith l (map (λ f. f.now) fields.now) → IsFault fault (header_kind earlier l)) }
    {
        let [word, rest @ ..] = fields else {
            return Err(Fault::Refused(MpsKind::Section));
        };
        if self.lacks_direction() {
            return Err(Fault::Refused(MpsKind::Section));
        }
        let section = self.next_section(*word)?;
        let direction = self.direction_after(section, rest)?;
        self.seen.push(section)?;
        self.direction = direction;
        Ok(section)
    }

    /// Takes a data line of OBJSENSE.
    pub(crate) fn take_direction(&mut self, fields: &[&[u8]]) -> Result<(), MpsKind>
        requires { 0 < length fields.now }
        ensures ok { OnOk result ((earlier : List Line) (l : Line) → HeadersAgree self.old earlier → IsDataWith (codes "OBJSENSE") l (map (λ f. f.now) fields.now) → last_of (headers_of earlier) ≡ Some (codes "OBJSENSE") → (direction_kind earlier l ≡ None) × HeadersAgree self.new (earlier ++ l ∷ [])) }
        ensures err { IfErr result (λ kind. (earlier : List Line) (l : Line) → HeadersAgree self.old earlier → IsDataWith (codes "OBJSENSE") l (map (λ f. f.now) fields.now) → direction_kind earlier l ≡ Some kind) }
    {
        if self.direction.is_some() {
            return Err(MpsKind::Section);
        }
        let [value, ..] = fields else {
            return Err(MpsKind::Section);
        };
        self.direction = Some(direction_named(*value)?);
        Ok(())
    }
}
