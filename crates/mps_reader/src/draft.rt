// The model of a text, as far as its lines have been read.
ghost use Rattle.std.specs.Prelude.{◌≡◌, ◌≤◌, ◌+◌, ℕ, ◌<◌, ◌∷◌, ◌++◌, [], All, List, length, map, codes, bytes_eq, true, false, IfOk, IfErr, OnOk};
ghost use Rattle.mps_reader.specs.MpsRules.{line_kind, header_kind, data_kind};
ghost use Rattle.mps_reader.specs.TakenLines.{IsHeaderWith};
ghost use Rattle.mps_reader.specs.Sections.{word_of};
ghost use Rattle.mps_reader.specs.Openings.{HeadersAgree};
ghost use Rattle.mps_reader.specs.Drafts.{Agrees, HasParts, IsLineBehind, IsTaken, is_ended};
ghost use Rattle.mps_reader.specs.MpsLines.{Line, column_names};
ghost use Rattle.mps_reader.specs.Tables.{texts_of};
ghost use Rattle.mps_reader.specs.ColumnStates.{ColumnsAgree};
ghost use Rattle.mps_reader.specs.Endings.{IsEndedWith};
ghost use Rattle.mps_reader.specs.declared.MpsKind.{MpsKind};
ghost use Rattle.mps_reader.specs.MpsModels.{column_end_kind, end_kind, cost_of, model_of_lines};
ghost use Rattle.mps_reader.specs.Faults.{IsFault};
ghost use Rattle.mps_reader.specs.EndedColumns.{IsColumnOf, part_of, costs_from};

use crate::MpsKind;
use crate::bounds::take_bound;
use crate::columns::{ColumnDraft, Columns};
use crate::fault::{Fault, SetName};
use crate::header::{Headers, Section};
use crate::rows::{RowParts, Rows};
use crate::sides::Side;
use int_model::{ColumnPart, Model, ModelError, Parts};
use std::alloc::Global;

/// Whether a line was the end of the text.
#[derive(Clone, Copy, Debug, PartialEq, Eq)]
pub(crate) enum Progress {
    More,
    Ended,
}

#[derive(Drop)]
pub(crate) struct Draft<'a> {
    headers: Headers,
    rows: Rows<'a>,
    columns: Columns<'a>,
    rhs_set: SetName<'a>,
    range_set: SetName<'a>,
    bound_set: SetName<'a>,
}

impl<'a> Draft<'a> {
    pub(crate) fn new(alloc: Global) -> Self
        ensures { Agrees result [] }
    {
        Draft {
            headers: Headers::new(alloc),
            rows: Rows::new(alloc),
            columns: Columns::new(alloc),
            rhs_set: SetName::new(),
            range_set: SetName::new(),
            bound_set: SetName::new(),
        }
    }

    /// Takes a line by its fields, of which there are some.
    pub(crate) fn take_line(
        &mut self,
        alloc: Global,
        is_header: bool,
        fields: &[&'a [u8]],
    ) -> Result<Progress, Fault>
        requires some { 0 < length fields.now }
        requires nonempty { All (λ f. 0 < length f.now) fields.now }
        ensures ok { IfOk result (λ progress. (earlier : List Line) (l : Line) → IsLineBehind is_header earlier l (map (λ f. f.now) fields.now) → Agrees self.old earlier → IsTaken self.new progress earlier l) }
        ensures ended { IfOk result (λ progress. is_ended progress ≡ true → (self.new.rows ≡ self.old.rows) × (self.new.columns ≡ self.old.columns)) }
        ensures err { IfErr result (λ fault. (earlier : List Line) (l : Line) → IsLineBehind is_header earlier l (map (λ f. f.now) fields.now) → Agrees self.old earlier → IsFault fault (line_kind earlier l)) }
    {
        if is_header {
            return self.take_header(fields);
        }
        self.take_data(alloc, fields)?;
        Ok(Progress::More)
    }

    fn take_header(&mut self, fields: &[&'a [u8]]) -> Result<Progress, Fault>
        requires { 0 < length fields.now }
        ensures ok { IfOk result (λ progress. (earlier : List Line) (l : Line) → IsHeaderWith l (map (λ f. f.now) fields.now) → HeadersAgree self.old.headers earlier → (header_kind earlier l ≡ None) × (is_ended progress ≡ bytes_eq l.section (codes "ENDATA")) × HeadersAgree self.new.headers (earlier ++ l ∷ [])) }
        ensures same { self.new ≡ record self.old { headers = self.new.headers } }
        ensures err { IfErr result (λ fault. (earlier : List Line) (l : Line) → IsHeaderWith l (map (λ f. f.now) fields.now) → HeadersAgree self.old.headers earlier → IsFault fault (header_kind earlier l)) }
    {
        let section = self.headers.enter(fields)?;
        Ok(progress_at(section))
    }

    fn take_data(&mut self, alloc: Global, fields: &[&'a [u8]]) -> Result<(), Fault>
        requires some { 0 < length fields.now }
        requires nonempty { All (λ f. 0 < length f.now) fields.now }
        ensures ok { OnOk result ((earlier : List Line) (l : Line) → IsLineBehind false earlier l (map (λ f. f.now) fields.now) → Agrees self.old earlier → (data_kind earlier l ≡ None) × Agrees self.new (earlier ++ l ∷ [])) }
        ensures err { IfErr result (λ fault. (earlier : List Line) (l : Line) → IsLineBehind false earlier l (map (λ f. f.now) fields.now) → Agrees self.old earlier → IsFault fault (data_kind earlier l)) }
    {
        match self.headers.last() {
            Some(Section::ObjSense) => Ok(self.headers.take_direction(fields)?),
            Some(Section::Rows) => self.rows.take_line(alloc, fields),
            Some(Section::Columns) => self.columns.take_line(alloc, &mut self.rows, fields),
            Some(Section::Rhs) => {
                Ok(Side::Rhs.take_line(&mut self.rhs_set, &mut self.rows, fields)?)
            }
            Some(Section::Ranges) => {
                Ok(Side::Range.take_line(&mut self.range_set, &mut self.rows, fields)?)
            }
            Some(Section::Bounds) => {
                Ok(take_bound(&mut self.bound_set, &mut self.columns, fields)?)
            }
            None | Some(Section::Name | Section::EndData) => {
                Err(Fault::Refused(MpsKind::Section))
            }
        }
    }

    /// The model, once the text has ended.
    pub(crate) fn into_model(self, alloc: Global) -> Result<Model, Fault>
        ensures ok { IfOk result (λ m. (ls : List Line) → HasParts self.entry ls → m ≡ model_of_lines ls) }
        ensures err { IfErr result (λ fault. (ls : List Line) → HasParts self.entry ls → IsFault fault (end_kind ls (column_names ls))) }
        ensures ended { (ls : List Line) (kind : MpsKind) → ColumnsAgree (texts_of self.entry.columns.table.names.keys) self.entry.columns.table.items.items ls → texts_of self.entry.columns.table.names.keys ≡ column_names ls → end_kind ls (column_names ls) ≡ Some kind → IsEndedWith kind result }
    {
        let Draft {
            headers,
            rows,
            columns,
            rhs_set: _,
            range_set: _,
            bound_set: _,
        } = self;
        let RowParts {
            constant,
            costs,
            rows,
        } = rows.into_parts(alloc)?;
        let columns = column_parts(alloc, columns.into_items(), &costs)?;
        let parts = Parts {
            columns,
            rows,
            constant,
            direction: headers.direction(),
        };
        match Model::build(alloc, parts) {
            Ok(model) => Ok(model),
            Err(error) => Err(fault_of(error)),
        }
    }
}

// Whether a header is the end of the text.
fn progress_at(section: Section) -> Progress
    ensures { is_ended result ≡ bytes_eq (word_of section) (codes "ENDATA") }
{
    match section {
        Section::EndData => Progress::Ended,
        Section::Name
        | Section::ObjSense
        | Section::Rows
        | Section::Columns
        | Section::Rhs
        | Section::Ranges
        | Section::Bounds => Progress::More,
    }
}

// The columns at the end of the text. `costs` has the costs that are not 0, by columns, which rise.
fn column_parts(
    alloc: Global,
    columns: Vec<ColumnDraft>,
    costs: &[(u32, i64)],
) -> Result<Vec<ColumnPart>, Fault>
    requires { length columns.items ≤ 1000 }
    ensures ok { IfOk result (λ parts. (ls : List Line) → All (IsColumnOf ls) columns.items → end_kind ls (map (λ c. c.name) columns.items) ≡ None) }
    ensures parts { IfOk result (λ parts. (ls : List Line) → All (IsColumnOf ls) columns.items → costs.now ≡ costs_from 0 ls (map (λ c. c.name) columns.items) → parts.items ≡ map (part_of ls) columns.items) }
    ensures err { IfErr result (λ fault. (ls : List Line) → All (IsColumnOf ls) columns.items → IsFault fault (end_kind ls (map (λ c. c.name) columns.items))) }
{
    let mut parts = Vec::new(alloc);
    let mut costs = costs;
    let mut number = 0;
    for draft in columns {
        let (cost, rest) = split_cost(costs, number);
        parts.push(column_part(draft, cost)?)?;
        costs = rest;
        number += 1;
    }
    Ok(parts)
}

// The cost of the column with this number, and the costs of the columns behind it.
fn split_cost(costs: &[(u32, i64)], number: u32) -> (i64, &[(u32, i64)])
    ensures { (ls : List Line) (name : List ℕ) (names : List (List ℕ)) → costs.now ≡ costs_from number ls (name ∷ names) → (result.0 ≡ cost_of ls name) × (result.1.now ≡ costs_from (number + 1) ls names) }
{
    match costs {
        [(first, cost), rest @ ..] if *first == number => (*cost, rest),
        _ => (0, costs),
    }
}

fn column_part(draft: ColumnDraft, cost: i64) -> Result<ColumnPart, MpsKind>
    ensures ok { IfOk result (λ part. (ls : List Line) → IsColumnOf ls draft → column_end_kind ls draft.name ≡ None) }
    ensures part { IfOk result (λ part. (ls : List Line) → IsColumnOf ls draft → cost ≡ cost_of ls draft.name → part ≡ part_of ls draft) }
    ensures err { IfErr result (λ kind. (ls : List Line) → IsColumnOf ls draft → column_end_kind ls draft.name ≡ Some kind) }
{
    let (low, high) = draft.bounds.sides(draft.is_marked)?;
    Ok(ColumnPart {
        name: draft.name,
        cost,
        low,
        high,
        implied: draft.bounds.is_implied(draft.is_marked),
    })
}

// Why parts made no model, in the words of a text.
fn fault_of(error: ModelError) -> Fault
    ensures { error ≡ ModelError.Memory → result ≡ Fault.Memory }
{
    match error {
        ModelError::TooMany(_) => Fault::Refused(MpsKind::TooMany),
        ModelError::Unbounded(_) => Fault::Refused(MpsKind::Unbounded),
        ModelError::BadTerm(_) | ModelError::SameName(_) => Fault::Refused(MpsKind::Duplicate),
        ModelError::Magnitude(_) => Fault::Refused(MpsKind::Magnitude),
        ModelError::Memory => Fault::Memory,
    }
}
