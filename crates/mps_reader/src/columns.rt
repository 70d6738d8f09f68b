// The section COLUMNS: markers of integer parts, and each column's numbers for its rows.
ghost use Rattle.std.specs.Prelude.{◌≡◌, ◌≤◌, ◌<◌, ◌+◌, ◌∷◌, ◌++◌, ◌⊎◌, [], IfOk, IfErr, IfSome, OnOk, pos, ◌≢◌, if◌then◌else◌, All, length, map, option_map, unsigned_abs, List, codes, bytes_eq, true, false, vec_len};
ghost use Rattle.mps_reader.specs.MpsLines.{Line, field, is_marker, is_one_of};
ghost use Rattle.mps_reader.specs.MpsRules.{marker_kind, column_kind};
ghost use Rattle.mps_reader.specs.Faults.{IsFault};
ghost use Rattle.mps_reader.specs.ColumnNumbers.{new_column_kind, number_for_kind, makes_term, is_unread, is_column};
ghost use Rattle.mps_reader.specs.MpsModels.{number_or_zero};
ghost use Rattle.mps_reader.specs.MpsLines.{begins_column};
ghost use Rattle.mps_reader.specs.Tables.{texts_of, IsAlong};
ghost use Rattle.mps_reader.specs.ColumnStates.{ColumnsReady, is_name, name_kind};
ghost use Rattle.mps_reader.specs.ColumnSteps.{IsColumnLine, IsColumnPushed, AddsColumn, TakesTerms, RefusesTerms, HasSameSides, HasSameBounds, ColumnReady, ColumnThen};
ghost use Rattle.mps_reader.specs.TakenLines.{IsDataWith};

use crate::MpsKind;
use crate::bounds::Bounds;
use crate::fault::{Fault, name_of, number_within};
use crate::named::Named;
use crate::row_draft::{RowDraft, RowRole};
use crate::rows::Rows;
use int_model::Name;
use std::alloc::Global;

/// A column of the text, as far as it has been read.
#[derive(Drop)]
pub(crate) struct ColumnDraft {
    pub(crate) name: Name,
    /// Whether the column began in an integer part.
    pub(crate) is_marked: bool,
    pub(crate) bounds: Bounds,
}

#[derive(Drop)]
pub(crate) struct Columns<'a> {
    pub(crate) table: Named<'a, ColumnDraft>,
    in_integer_part: bool,
    /// The column that the next line may continue.
    current: Option<&'a [u8]>,
    entries: usize,
    ghost few: { vec_len table.items ≤ 1000 },
}

const MAX_COLUMNS: usize = 1_000;

const MAX_ENTRIES: usize = 100_000;

const MAX_ENTRY: u64 = 1_000_000_000;

// Whether a marker's word begins an integer part, or ends one.
fn begins_part(word: &[u8]) -> Result<bool, MpsKind>
    ensures ok { IfOk result (λ begins. (is_one_of (codes "'INTORG'" ∷ codes "'INTEND'" ∷ []) word.now ≡ true) × (begins ≡ bytes_eq word.now (codes "'INTORG'"))) }
    ensures err { IfErr result (λ kind. (kind ≡ MpsKind.Fields) × (is_one_of (codes "'INTORG'" ∷ codes "'INTEND'" ∷ []) word.now ≡ false)) }
{
    if word == b"'INTORG'".as_slice() {
        Ok(true)
    } else if word == b"'INTEND'".as_slice() {
        Ok(false)
    } else {
        Err(MpsKind::Fields)
    }
}

impl<'a> Columns<'a> {
    pub(crate) fn new(alloc: Global) -> Self
        ensures items { result.table.items.items ≡ [] }
        ensures names { result.table.names.keys ≡ [] }
        ensures part { result.in_integer_part ≡ false }
        ensures current { result.current ≡ None }
        ensures entries { result.entries ≡ 0 }
    {
        Columns {
            table: Named::new(alloc),
            in_integer_part: false,
            current: None,
            entries: 0,
        }
    }

    /// The columns, in order.
    pub(crate) fn into_items(self) -> Vec<ColumnDraft>
        ensures items { result ≡ self.entry.table.items }
        ensures few { length result.items ≤ 1000 }
    {
        let Columns {
            table,
            in_integer_part: _,
            current: _,
            entries: _,
        } = self;
        table.into_items()
    }

    /// Takes a line of the section.
    pub(crate) fn take_line(
        &mut self,
        alloc: Global,
        rows: &mut Rows<'a>,
        fields: &[&'a [u8]],
    ) -> Result<(), Fault>
        requires { All (λ f. 0 < length f.now) fields.now }
        ensures ok { OnOk result ((earlier : List Line) (l : Line) → IsDataWith (codes "COLUMNS") l (map (λ f. f.now) fields.now) → ColumnReady rows.old.table.names.keys rows.old.table.items.items self.old.table.names.keys (option_map (λ c. c.now) self.old.current) self.old.in_integer_part self.old.entries earlier → ColumnThen rows.old.table.names.keys rows.new.table.items.items self.old.table.names.keys self.old.table.items.items self.old.in_integer_part self.new.table.names.keys self.new.table.items.items (option_map (λ c. c.now) self.new.current) self.new.in_integer_part self.new.entries earlier l) }
        ensures sides { IsAlong HasSameSides rows.old.table.items.items rows.new.table.items.items }
        ensures names { rows.new.table.names ≡ rows.old.table.names }
        ensures kept { rows.new.kept ≡ rows.old.kept }
        ensures objective { rows.new.has_objective ≡ rows.old.has_objective }
        ensures err { IfErr result (λ fault. (earlier : List Line) (l : Line) → IsDataWith (codes "COLUMNS") l (map (λ f. f.now) fields.now) → ColumnReady rows.old.table.names.keys rows.old.table.items.items self.old.table.names.keys (option_map (λ c. c.now) self.old.current) self.old.in_integer_part self.old.entries earlier → IsFault fault (column_kind earlier l)) }
    {
        if names_marker(fields) {
            return Ok(self.take_marker(fields)?);
        }
        match fields {
            [column, row, number] => {
                let column = self.column_named(alloc, *column)?;
                self.take_pair(rows, column, *row, *number)
            }
            [column, row, number, second_row, second_number] => {
                let column = self.column_named(alloc, *column)?;
                self.take_two(rows, column, *row, *number, *second_row, *second_number)
            }
            _ => Err(Fault::Refused(MpsKind::Fields)),
        }
    }

    // A marker begins or ends an integer part, and ends the column before it.
    fn take_marker(&mut self, fields: &[&'a [u8]]) -> Result<(), MpsKind>
        ensures table { self.new.table ≡ self.old.table }
        ensures current { OnOk result (self.new.current ≡ None) }
        ensures entries { self.new.entries ≡ self.old.entries }
        ensures ok { OnOk result ((l : Line) → l.fields ≡ map (λ f. f.now) fields.now → (marker_kind l ≡ None) × (self.new.in_integer_part ≡ bytes_eq (field 2 l) (codes "'INTORG'"))) }
        ensures err { IfErr result (λ kind. (l : Line) → l.fields ≡ map (λ f. f.now) fields.now → marker_kind l ≡ Some kind) }
    {
        let [_, _, word] = fields else {
            return Err(MpsKind::Fields);
        };
        self.in_integer_part = begins_part(*word)?;
        self.current = None;
        Ok(())
    }

    // Whether a line that names this column continues the current one.
    fn continues(&self, field: &[u8]) -> bool
        ensures { result ≡ is_name (option_map (λ c. c.now) self.now.current) field.now }
    {
        match self.current {
            Some(current) => current == field,
            None => false,
        }
    }

    // The number of the column that a line names: the current one, or a new one.
    fn column_named(&mut self, alloc: Global, field: &'a [u8]) -> Result<u32, Fault>
        requires { 0 < length field.now }
        ensures within { IfOk result (λ k. k < vec_len self.new.table.items) }
        ensures size { IfOk result (λ k. length (texts_of self.new.table.names.keys) ≡ k + 1) }
        ensures good { OnOk result ((earlier : List Line) (l : Line) → IsColumnLine l field.entry.now → ColumnsReady (texts_of self.old.table.names.keys) (option_map (λ c. c.now) self.old.current) self.old.in_integer_part earlier → name_kind earlier l ≡ None) }
        ensures ready { OnOk result ((earlier : List Line) (l : Line) → IsColumnLine l field.entry.now → ColumnsReady (texts_of self.old.table.names.keys) (option_map (λ c. c.now) self.old.current) self.old.in_integer_part earlier → ColumnsReady (texts_of self.new.table.names.keys) (option_map (λ c. c.now) self.new.current) self.new.in_integer_part (earlier ++ l ∷ [])) }
        ensures added { OnOk result ((earlier : List Line) (l : Line) → IsColumnLine l field.entry.now → ColumnsReady (texts_of self.old.table.names.keys) (option_map (λ c. c.now) self.old.current) self.old.in_integer_part earlier → AddsColumn (begins_column earlier l) (texts_of self.old.table.names.keys) self.old.table.items.items (texts_of self.new.table.names.keys) self.new.table.items.items self.old.in_integer_part field.entry.now) }
        ensures entries { self.new.entries ≡ self.old.entries }
        ensures err { IfErr result (λ fault. (earlier : List Line) (l : Line) → IsColumnLine l field.entry.now → ColumnsReady (texts_of self.old.table.names.keys) (option_map (λ c. c.now) self.old.current) self.old.in_integer_part earlier → IsFault fault (name_kind earlier l)) }
    {
        let count = self.table.items.len();
        if self.continues(field) && count > 0 {
            return Ok((count - 1) as u32);
        }
        self.begin_column(alloc, field)
    }

    // The number of a new column.
    fn begin_column(&mut self, alloc: Global, field: &'a [u8]) -> Result<u32, Fault>
        requires { 0 < length field.now }
        ensures within { IfOk result (λ k. k < vec_len self.new.table.items) }
        ensures last { IfOk result (λ k. k + 1 ≡ vec_len self.new.table.items) }
        ensures current { OnOk result (option_map (λ c. c.now) self.new.current ≡ Some field.entry.now) }
        ensures part { self.new.in_integer_part ≡ self.old.in_integer_part }
        ensures entries { self.new.entries ≡ self.old.entries }
        ensures pushed { OnOk result (IsColumnPushed (texts_of self.old.table.names.keys) self.old.table.items.items (texts_of self.new.table.names.keys) self.new.table.items.items self.old.in_integer_part field.entry.now) }
        ensures err { IfErr result (λ fault. IsFault fault (new_column_kind (texts_of self.old.table.names.keys) (length self.old.table.items.items) field.entry.now)) }
    {
        let count = self.table.items.len();
        let name = name_of(alloc, field)?;
        if self.table.find(field).is_some() {
            return Err(Fault::Refused(MpsKind::Duplicate));
        }
        if count >= MAX_COLUMNS {
            return Err(Fault::Refused(MpsKind::TooMany));
        }
        let draft = ColumnDraft {
            name,
            is_marked: self.in_integer_part,
            bounds: Bounds::new(),
        };
        self.table.push(field, draft)?;
        self.current = Some(field);
        Ok(count as u32)
    }

    // A number of a column for a row.
    fn take_pair(
        &mut self,
        rows: &mut Rows<'a>,
        column: u32,
        row: &[u8],
        number: &[u8],
    ) -> Result<(), Fault>
        requires { column < vec_len self.old.table.items }
        ensures ok { OnOk result (TakesTerms rows.old.table.names.keys column rows.old.table.items.items self.old.entries rows.new.table.items.items self.new.entries (row.now ∷ number.now ∷ [])) }
        ensures sides { IsAlong HasSameSides rows.old.table.items.items rows.new.table.items.items }
        ensures names { rows.new.table.names ≡ rows.old.table.names }
        ensures kept { rows.new.kept ≡ rows.old.kept }
        ensures objective { rows.new.has_objective ≡ rows.old.has_objective }
        ensures columns { IsAlong HasSameBounds self.old.table.items.items self.new.table.items.items }
        ensures same { vec_len self.new.table.items ≡ vec_len self.old.table.items }
        ensures called { self.new.table.names ≡ self.old.table.names }
        ensures current { self.new.current ≡ self.old.current }
        ensures part { self.new.in_integer_part ≡ self.old.in_integer_part }
        ensures err { IfErr result (λ fault. RefusesTerms rows.old.table.names.keys column rows.old.table.items.items self.old.entries (row.now ∷ number.now ∷ []) fault) }
    {
        let index = rows.table.find(row).ok_or(MpsKind::UnknownRow)?;
        let table = &mut rows.table;
        let draft = &mut table.items[index];
        let Some(value) = value_for(draft, column, self.entries, number)? else {
            return Ok(());
        };
        draft.last_column = Some(column);
        if value != 0 {
            self.entries = entries_with(self.entries, draft.role);
            draft.terms.push((column, value))?;
        }
        Ok(())
    }

    // Two numbers of a column, one after the other.
    fn take_two(
        &mut self,
        rows: &mut Rows<'a>,
        column: u32,
        row: &[u8],
        number: &[u8],
        second_row: &[u8],
        second_number: &[u8],
    ) -> Result<(), Fault>
        requires { column < vec_len self.old.table.items }
        ensures ok { OnOk result (TakesTerms rows.old.table.names.keys column rows.old.table.items.items self.old.entries rows.new.table.items.items self.new.entries (row.now ∷ number.now ∷ second_row.now ∷ second_number.now ∷ [])) }
        ensures sides { IsAlong HasSameSides rows.old.table.items.items rows.new.table.items.items }
        ensures names { rows.new.table.names ≡ rows.old.table.names }
        ensures kept { rows.new.kept ≡ rows.old.kept }
        ensures objective { rows.new.has_objective ≡ rows.old.has_objective }
        ensures columns { IsAlong HasSameBounds self.old.table.items.items self.new.table.items.items }
        ensures called { self.new.table.names ≡ self.old.table.names }
        ensures current { self.new.current ≡ self.old.current }
        ensures part { self.new.in_integer_part ≡ self.old.in_integer_part }
        ensures err { IfErr result (λ fault. RefusesTerms rows.old.table.names.keys column rows.old.table.items.items self.old.entries (row.now ∷ number.now ∷ second_row.now ∷ second_number.now ∷ []) fault) }
    {
        self.take_pair(rows, column, row, number)?;
        self.take_pair(rows, column, second_row, second_number)
    }
}

// How many terms the rows have behind one more of a row of this role.
fn entries_with(entries: usize, role: RowRole) -> usize
    requires { makes_term role ≡ true → entries < 100000 }
    ensures { result ≡ entries + (if makes_term role then 1 else 0) }
{
    match role {
        RowRole::Kept(_) => entries + 1,
        RowRole::Objective | RowRole::Dropped => entries,
    }
}

// Whether a line is a marker.
fn names_marker(fields: &[&[u8]]) -> bool
    ensures { (l : Line) → l.fields ≡ map (λ f. f.now) fields.now → is_marker l ≡ result }
{
    match fields {
        [_, word, ..] => *word == b"'MARKER'".as_slice(),
        _ => false,
    }
}

// The number that a column gives for a row, None where the row's numbers are not read. `entries` counts the terms
// of the rows so far.
fn value_for(
    draft: &RowDraft,
    column: u32,
    entries: usize,
    number: &[u8],
) -> Result<Option<i64>, MpsKind>
    ensures ok { IfOk result (λ value. (number_for_kind draft.now.role (is_column draft.now.last_column column) entries number.now ≡ None) × (value ≡ (if is_unread draft.now.role then None else Some (number_or_zero number.now)))) }
    ensures limit { IfOk result (λ value. IfSome value (λ z. unsigned_abs z ≤ 1000000000)) }
    ensures few { IfOk result (λ value. IfSome value (λ z. z ≢ pos 0 → makes_term draft.now.role ≡ true → entries < 100000)) }
    ensures err { IfErr result (λ kind. number_for_kind draft.now.role (is_column draft.now.last_column column) entries number.now ≡ Some kind) }
{
    if matches!(draft.role, RowRole::Dropped) {
        return Ok(None);
    }
    if draft.last_column == Some(column) {
        return Err(MpsKind::Duplicate);
    }
    let value = number_within(number, MAX_ENTRY)?;
    if matches!(draft.role, RowRole::Kept(_)) {
        if value != 0 && entries >= MAX_ENTRIES {
            return Err(MpsKind::TooMany);
        }
    }
    Ok(Some(value))
}
