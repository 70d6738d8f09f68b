// The sections RHS and RANGES: numbers for rows, perhaps behind the name of a set.
ghost use Rattle.std.specs.Prelude.{◌≡◌, ◌≤◌, ◌∷◌, [], List, IfOk, IfErr, OnOk, is_some, map, unsigned_abs};
ghost use Rattle.mps_reader.specs.MpsLines.{Line};
ghost use Rattle.mps_reader.specs.TakenLines.{IsDataWith};
ghost use Rattle.mps_reader.specs.Tables.{IsAlong};
ghost use Rattle.mps_reader.specs.RowStates.{entry_with, word_of_side, side_line_kind};
ghost use Rattle.mps_reader.specs.SideSteps.{TakesPairs, RefusesPairs, SideReady, SideThen};
ghost use Rattle.mps_reader.specs.MpsRules.{first_kind, or_else, number_kind};
ghost use Rattle.mps_reader.specs.MpsModels.{number_or_zero};
ghost use Rattle.mps_reader.specs.SideNumbers.{side_kind, side_of, side_then, IsSameBesides};

use crate::MpsKind;
use crate::fault::{Fault, SetName, number_within};
use crate::row_draft::{RowDraft, RowRole};
use crate::rows::Rows;

const MAX_SIDE: u64 = 1_000_000_000_000_000_000;

const MAX_CONSTANT: u64 = 1_000_000_000_000_000;

/// Which numbers of the rows a section gives.
#[derive(Clone, Copy, Debug, PartialEq, Eq)]
pub(crate) enum Side {
    Rhs,
    Range,
}

impl Side {
    // A number for a row, where the section reads it.
    fn take_number(self, draft: &mut RowDraft, number: &[u8]) -> Result<(), MpsKind>
        ensures kind { OnOk result (side_kind self draft.old number.now ≡ None) }
        ensures number { OnOk result (side_of self draft.new ≡ side_then self draft.old number.now) }
        ensures rest { IsSameBesides self draft.old draft.new }
        ensures err { IfErr result (λ kind. side_kind self draft.old number.now ≡ Some kind) }
    {
        match (self, draft.role) {
            (_, RowRole::Dropped) | (Side::Range, RowRole::Objective) => Ok(()),
            (Side::Rhs, RowRole::Objective) => {
                draft.rhs = Some(given(draft.rhs, number, MAX_CONSTANT)?);
                Ok(())
            }
            (Side::Rhs, RowRole::Kept(_)) => {
                draft.rhs = Some(given(draft.rhs, number, MAX_SIDE)?);
                Ok(())
            }
            (Side::Range, RowRole::Kept(_)) => {
                draft.range = Some(given(draft.range, number, MAX_SIDE)?);
                Ok(())
            }
        }
    }

    fn take_pair(self, rows: &mut Rows, row: &[u8], number: &[u8]) -> Result<(), MpsKind>
        ensures ok { OnOk result (TakesPairs self rows.old.table.names.keys rows.old.table.items.items rows.new.table.items.items (entry_with [] row.now number.now ∷ [])) }
        ensures rest { IsAlong (IsSameBesides self) rows.old.table.items.items rows.new.table.items.items }
        ensures names { rows.new.table.names ≡ rows.old.table.names }
        ensures kept { rows.new.kept ≡ rows.old.kept }
        ensures objective { rows.new.has_objective ≡ rows.old.has_objective }
        ensures err { IfErr result (λ kind. RefusesPairs self rows.old.table.names.keys rows.old.table.items.items (entry_with [] row.now number.now ∷ []) kind) }
    {
        let index = rows.table.find(row).ok_or(MpsKind::UnknownRow)?;
        let table = &mut rows.table;
        self.take_number(&mut table.items[index], number)
    }

    // Two pairs, one after the other.
    fn take_two(
        self,
        rows: &mut Rows,
        row: &[u8],
        number: &[u8],
        second_row: &[u8],
        second_number: &[u8],
    ) -> Result<(), MpsKind>
        ensures ok { OnOk result (TakesPairs self rows.old.table.names.keys rows.old.table.items.items rows.new.table.items.items (entry_with [] row.now number.now ∷ entry_with [] second_row.now second_number.now ∷ [])) }
        ensures rest { IsAlong (IsSameBesides self) rows.old.table.items.items rows.new.table.items.items }
        ensures names { rows.new.table.names ≡ rows.old.table.names }
        ensures kept { rows.new.kept ≡ rows.old.kept }
        ensures objective { rows.new.has_objective ≡ rows.old.has_objective }
        ensures err { IfErr result (λ kind. RefusesPairs self rows.old.table.names.keys rows.old.table.items.items (entry_with [] row.now number.now ∷ entry_with [] second_row.now second_number.now ∷ []) kind) }
    {
        self.take_pair(rows, row, number)?;
        self.take_pair(rows, second_row, second_number)
    }

    /// Takes a line of the section: one or two pairs, perhaps behind the name of a set.
    pub(crate) fn take_line<'a>(
        self,
        set: &mut SetName<'a>,
        rows: &mut Rows,
        fields: &[&'a [u8]],
    ) -> Result<(), MpsKind>
        ensures ok { OnOk result ((earlier : List Line) (l : Line) → IsDataWith (word_of_side self) l (map (λ f. f.now) fields.now) → SideReady self set.old.first rows.old.table.names.keys rows.old.table.items.items earlier → SideThen self set.new.first rows.old.table.names.keys rows.new.table.items.items earlier l) }
        ensures rest { IsAlong (IsSameBesides self) rows.old.table.items.items rows.new.table.items.items }
        ensures names { rows.new.table.names ≡ rows.old.table.names }
        ensures kept { rows.new.kept ≡ rows.old.kept }
        ensures objective { rows.new.has_objective ≡ rows.old.has_objective }
        ensures err { IfErr result (λ kind. (earlier : List Line) (l : Line) → IsDataWith (word_of_side self) l (map (λ f. f.now) fields.now) → SideReady self set.old.first rows.old.table.names.keys rows.old.table.items.items earlier → side_line_kind self earlier l ≡ Some kind) }
    {
        match fields {
            [row, number] => self.take_pair(rows, *row, *number),
            [name, row, number] => {
                set.accept(*name)?;
                self.take_pair(rows, *row, *number)
            }
            [row, number, second_row, second_number] => {
                self.take_two(rows, *row, *number, *second_row, *second_number)
            }
            [name, row, number, second_row, second_number] => {
                set.accept(*name)?;
                self.take_two(rows, *row, *number, *second_row, *second_number)
            }
            _ => Err(MpsKind::Fields),
        }
    }
}

// A number where none was given before.
fn given(before: Option<i64>, number: &[u8], most: u64) -> Result<i64, MpsKind>
    ensures limit { IfOk result (λ z. unsigned_abs z ≤ most) }
    ensures ok { IfOk result (λ z. (or_else (first_kind ((is_some before, MpsKind.Duplicate) ∷ [])) (number_kind most number.now) ≡ None) × (z ≡ number_or_zero number.now)) }
    ensures err { IfErr result (λ kind. or_else (first_kind ((is_some before, MpsKind.Duplicate) ∷ [])) (number_kind most number.now) ≡ Some kind) }
{
    if before.is_some() {
        return Err(MpsKind::Duplicate);
    }
    number_within(number, most)
}
