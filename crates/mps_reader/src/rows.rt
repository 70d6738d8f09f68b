// The section ROWS: the objective, and the rows with a sense.
ghost use Rattle.std.specs.Prelude.{◌≡◌, ◌<◌, ◌≤◌, ◌+◌, ◌∷◌, ◌++◌, ◌&&◌, ◌||◌, [], List, All, length, unsigned_abs, IfOk, IfErr, OnOk, true, false, is_some, is_none, nat_le, neg_ℤ, pos, unwrap_or, map, filter_map, codes, if◌then◌else◌};
ghost use Rattle.mps_reader.specs.MpsLines.{Line, is_one_of, last_of};
ghost use Rattle.mps_reader.specs.MpsRules.{row_kind};
ghost use Rattle.mps_reader.specs.Faults.{IsFault};
ghost use Rattle.mps_reader.specs.TakenLines.{IsDataWith};
ghost use Rattle.mps_reader.specs.RowTables.{sense_words, sense_after, role_with, RowsReady};
ghost use Rattle.mps_reader.specs.Tables.{texts_of};
ghost use Rattle.mps_reader.specs.BegunRows.{IsRowPushed};
ghost use Rattle.mps_reader.specs.MadeRows.{row_made, constant_made, costs_made};
ghost use Rattle.std.specs.Option.{ForSome};

use crate::MpsKind;
use crate::fault::{Fault, name_of};
use crate::named::Named;
use crate::row_draft::{RowDraft, RowRole};
use int_model::{Row, RowSense, Terms};
use std::alloc::{AllocError, Global};

/// What the rows of a text make.
#[derive(Drop)]
pub(crate) struct RowParts {
    pub(crate) constant: i64,
    /// The objective's numbers that are not 0, by columns, which rise.
    pub(crate) costs: Vec<(u32, i64)>,
    /// The rows with a sense.
    pub(crate) rows: Vec<Row>,
}

#[derive(Drop)]
pub(crate) struct Rows<'a> {
    pub(crate) table: Named<'a, RowDraft>,
    kept: usize,
    has_objective: bool,
    ghost few: { kept ≤ 1000 },
}

const MAX_ROWS: usize = 1_000;

// The sense that a word names; None is a free row.
fn sense_named(word: &[u8]) -> Result<Option<RowSense>, MpsKind>
    ensures ok { IfOk result (λ sense. (is_one_of sense_words word.now ≡ true) × (sense ≡ sense_after word.now)) }
    ensures err { IfErr result (λ kind. (kind ≡ MpsKind.Fields) × (is_one_of sense_words word.now ≡ false)) }
{
    match word {
        b"N" => Ok(None),
        b"L" => Ok(Some(RowSense::L)),
        b"G" => Ok(Some(RowSense::G)),
        b"E" => Ok(Some(RowSense::E)),
        _ => Err(MpsKind::Fields),
    }
}

// The objective's constant is its right-hand side with the other sign.
fn constant_of(rhs: Option<i64>) -> i64
    requires { ForSome rhs (λ z. unsigned_abs z ≤ 1000000000000000000) }
    ensures { result ≡ neg_ℤ (unwrap_or rhs (pos 0)) }
{
    match rhs {
        Some(value) => -value,
        None => 0,
    }
}

impl<'a> Rows<'a> {
    pub(crate) fn new(alloc: Global) -> Self
        ensures items { result.table.items.items ≡ [] }
        ensures names { result.table.names.keys ≡ [] }
        ensures kept { result.kept ≡ 0 }
        ensures objective { result.has_objective ≡ false }
    {
        Rows {
            table: Named::new(alloc),
            kept: 0,
            has_objective: false,
        }
    }

    pub(crate) fn take_line(&mut self, alloc: Global, fields: &[&'a [u8]]) -> Result<(), Fault>
        requires { All (λ f. 0 < length f.now) fields.now }
        ensures kind { OnOk result ((earlier : List Line) (l : Line) → IsDataWith (codes "ROWS") l (map (λ f. f.now) fields.now) → RowsReady self.old.table.names.keys self.old.kept self.old.has_objective earlier → row_kind earlier l ≡ None) }
        ensures ready { OnOk result ((earlier : List Line) (l : Line) → IsDataWith (codes "ROWS") l (map (λ f. f.now) fields.now) → RowsReady self.old.table.names.keys self.old.kept self.old.has_objective earlier → RowsReady self.new.table.names.keys self.new.kept self.new.has_objective (earlier ++ l ∷ [])) }
        ensures row { OnOk result ((earlier : List Line) (l : Line) → IsDataWith (codes "ROWS") l (map (λ f. f.now) fields.now) → RowsReady self.old.table.names.keys self.old.kept self.old.has_objective earlier → IsRowPushed (texts_of self.old.table.names.keys) self.old.table.items.items (texts_of self.new.table.names.keys) self.new.table.items.items earlier l) }
        ensures err { IfErr result (λ fault. (earlier : List Line) (l : Line) → IsDataWith (codes "ROWS") l (map (λ f. f.now) fields.now) → RowsReady self.old.table.names.keys self.old.kept self.old.has_objective earlier → IsFault fault (row_kind earlier l)) }
    {
        let [word, field] = fields else {
            return Err(Fault::Refused(MpsKind::Fields));
        };
        let sense = sense_named(*word)?;
        let name = name_of(alloc, *field)?;
        if self.table.find(*field).is_some() {
            return Err(Fault::Refused(MpsKind::Duplicate));
        }
        let role = self.next_role(sense)?;
        let draft = RowDraft {
            name,
            role,
            rhs: None,
            range: None,
            last_column: None,
            terms: Vec::new(alloc),
        };
        self.table.push(*field, draft)?;
        Ok(())
    }

    // The role of the next row with this sense.
    fn next_role(&mut self, sense: Option<RowSense>) -> Result<RowRole, MpsKind>
        ensures table { self.new.table ≡ self.old.table }
        ensures kept { IfOk result (λ role. self.new.kept ≡ (if is_some sense then self.old.kept + 1 else self.old.kept)) }
        ensures objective { IfOk result (λ role. self.new.has_objective ≡ (self.old.has_objective || is_none sense)) }
        ensures few { IfOk result (λ role. (is_some sense && nat_le 1000 self.old.kept) ≡ false) }
        ensures role { IfOk result (λ role. role ≡ role_with self.old.has_objective sense) }
        ensures err { IfErr result (λ kind. (kind ≡ MpsKind.TooMany) × ((is_some sense && nat_le 1000 self.old.kept) ≡ true)) }
    {
        match sense {
            None if self.has_objective => Ok(RowRole::Dropped),
            None => {
                self.has_objective = true;
                Ok(RowRole::Objective)
            }
            Some(sense) => {
                if self.kept >= MAX_ROWS {
                    return Err(MpsKind::TooMany);
                }
                self.kept += 1;
                Ok(RowRole::Kept(sense))
            }
        }
    }

    /// What the rows of the text make.
    pub(crate) fn into_parts(self, alloc: Global) -> Result<RowParts, AllocError>
        ensures rows { IfOk result (λ parts. parts.rows.items ≡ filter_map row_made self.entry.table.items.items) }
        ensures constant { IfOk result (λ parts. parts.constant ≡ unwrap_or (last_of (filter_map constant_made self.entry.table.items.items)) (pos 0)) }
        ensures costs { IfOk result (λ parts. parts.costs.items ≡ unwrap_or (last_of (filter_map costs_made self.entry.table.items.items)) []) }
    {
        let Rows {
            table,
            kept: _,
            has_objective: _,
        } = self;
        let mut constant = 0;
        let mut costs = Vec::new(alloc);
        let mut rows = Vec::new(alloc);
        for draft in table.into_items() {
            match draft.role {
                RowRole::Objective => {
                    constant = constant_of(draft.rhs);
                    costs = draft.terms;
                }
                RowRole::Dropped => {}
                RowRole::Kept(sense) => rows.push(Row {
                    name: draft.name,
                    sense,
                    rhs: draft.rhs.unwrap_or(0),
                    range: draft.range,
                    terms: Terms::from_vec(draft.terms),
                })?,
            }
        }
        Ok(RowParts {
            constant,
            costs,
            rows,
        })
    }
}
