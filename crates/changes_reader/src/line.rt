// How a line is taken.
ghost use Rattle.std.specs.Prelude.{◌≡◌, ◌<◌, ◌^◌, length, map, All, IfSome, IfNone, IfOk, IfErr, Some, None, false, unwrap_or};
ghost use Rattle.scenario_changes.specs.Changes.{Fits, shape_of, with_number, with_cost, with_low, with_high, with_rhs, with_name};
ghost use Rattle.changes_reader.specs.Names.{column_names, row_names, number_named};
ghost use Rattle.changes_reader.specs.Words.{text_of, words, is_one_of, IsField};
ghost use Rattle.changes_reader.specs.Values as value;
ghost use Rattle.changes_reader.specs.ChangesText.{natural_of};
ghost use Rattle.changes_reader.specs.Kinds.{kind_of, place_kind, column_kind, row_kind, name_kind, word_kind, line_kind};
ghost use Rattle.changes_reader.specs.Takings.{Takes, taken};

use crate::ChangesKind;
use crate::fault::Fault;
use crate::tables::Tables;
use crate::value::{count_of, rhs_of, scenario_of, value_of};
use scenario_changes::Changes;

/// The first field of a line.
#[derive(Clone, Copy, Debug, PartialEq, Eq)]
pub(crate) enum Word {
    Scenarios,
    Scenario,
    Name,
    Obj,
    Lb,
    Ub,
    Rhs,
}

fn word_named(word: &[u8]) -> Option<Word>
    ensures some { IfSome result (λ w. text_of w ≡ word.now) }
    ensures none { IfNone result (is_one_of words word.now ≡ false) }
{
    match word {
        b"scenarios" => Some(Word::Scenarios),
        b"scenario" => Some(Word::Scenario),
        b"name" => Some(Word::Name),
        b"obj" => Some(Word::Obj),
        b"lb" => Some(Word::Lb),
        b"ub" => Some(Word::Ub),
        b"rhs" => Some(Word::Rhs),
        _ => None,
    }
}

fn take_count(changes: &mut Changes, text: &[u8]) -> Result<(), Fault>
    ensures { Takes (kind_of (value.count_of text.now)) changes.new (with_number changes.old (natural_of text.now)) result }
{
    let count = count_of(text)?;
    changes.set_num_scenarios(count)?;
    Ok(())
}

fn take_selection(changes: &mut Changes, text: &[u8]) -> Result<(), Fault>
    ensures { Takes (kind_of (value.scenario_of (length changes.old.scenarios) text.now)) changes.new (record changes.old { selected = natural_of text.now }) result }
{
    let scenario = scenario_of(text, changes.num_scenarios())?;
    changes.select(scenario)?;
    Ok(())
}

fn take_name(changes: &mut Changes, name: &[u8]) -> Result<(), Fault>
    requires { IsField name.now }
    ensures { Takes (name_kind (length changes.old.scenarios) name.now) changes.new (with_name changes.old (Some name.now)) result }
{
    changes.set_name(Some(name))?;
    Ok(())
}

// The number of the column or row that a setting names, where there is a scenario to set.
fn placed(count: u32, place: Option<u32>, unknown: ChangesKind) -> Result<u32, ChangesKind>
    ensures ok { IfOk result (λ k. (place_kind unknown count place ≡ None) × (place ≡ Some k)) }
    ensures err { IfErr result (λ kind. place_kind unknown count place ≡ Some kind) }
{
    if count == 0 {
        return Err(ChangesKind::NoScenario);
    }
    place.ok_or(unknown)
}

fn take_cost(
    tables: &Tables<'_>,
    changes: &mut Changes,
    name: &[u8],
    text: &[u8],
) -> Result<(), Fault>
    requires { Fits changes.old tables.now.model.now }
    ensures { Takes (column_kind (10 ^ 9) (length changes.old.scenarios) (number_named (column_names tables.now.model.now) name.now) (value.value_of text.now)) changes.new (with_cost changes.old (unwrap_or (number_named (column_names tables.now.model.now) name.now) 0) (value.number_set text.now)) result }
{
    let column = placed(
        changes.num_scenarios(),
        tables.column(name),
        ChangesKind::UnknownColumn,
    )?;
    let value = value_of(text)?;
    changes.set_obj(column, value)?;
    Ok(())
}

fn take_low(
    tables: &Tables<'_>,
    changes: &mut Changes,
    name: &[u8],
    text: &[u8],
) -> Result<(), Fault>
    requires { Fits changes.old tables.now.model.now }
    ensures { Takes (column_kind (10 ^ 6) (length changes.old.scenarios) (number_named (column_names tables.now.model.now) name.now) (value.value_of text.now)) changes.new (with_low changes.old (unwrap_or (number_named (column_names tables.now.model.now) name.now) 0) (value.number_set text.now)) result }
{
    let column = placed(
        changes.num_scenarios(),
        tables.column(name),
        ChangesKind::UnknownColumn,
    )?;
    let value = value_of(text)?;
    changes.set_lb(column, value)?;
    Ok(())
}

fn take_high(
    tables: &Tables<'_>,
    changes: &mut Changes,
    name: &[u8],
    text: &[u8],
) -> Result<(), Fault>
    requires { Fits changes.old tables.now.model.now }
    ensures { Takes (column_kind (10 ^ 6) (length changes.old.scenarios) (number_named (column_names tables.now.model.now) name.now) (value.value_of text.now)) changes.new (with_high changes.old (unwrap_or (number_named (column_names tables.now.model.now) name.now) 0) (value.number_set text.now)) result }
{
    let column = placed(
        changes.num_scenarios(),
        tables.column(name),
        ChangesKind::UnknownColumn,
    )?;
    let value = value_of(text)?;
    changes.set_ub(column, value)?;
    Ok(())
}

fn take_rhs(
    tables: &Tables<'_>,
    changes: &mut Changes,
    name: &[u8],
    text: &[u8],
) -> Result<(), Fault>
    requires { Fits changes.old tables.now.model.now }
    ensures { Takes (row_kind (map shape_of tables.now.model.now.rows) (length changes.old.scenarios) (number_named (row_names tables.now.model.now) name.now) (value.rhs_of text.now)) changes.new (with_rhs changes.old (unwrap_or (number_named (row_names tables.now.model.now) name.now) 0) (value.side_set text.now)) result }
{
    let row = placed(
        changes.num_scenarios(),
        tables.row(name),
        ChangesKind::UnknownRow,
    )?;
    let value = rhs_of(text)?;
    changes.set_rhs(row, value)?;
    Ok(())
}

// The word of a line, which is `scenarios` on the first line and no other.
fn word_of(is_first: bool, field: &[u8]) -> Result<Word, ChangesKind>
    ensures ok { IfOk result (λ w. (word_kind is_first field.now ≡ None) × (text_of w ≡ field.now)) }
    ensures err { IfErr result (λ kind. word_kind is_first field.now ≡ Some kind) }
{
    let word = word_named(field);
    if is_first != (word == Some(Word::Scenarios)) {
        return Err(ChangesKind::Header);
    }
    word.ok_or(ChangesKind::Word)
}

/// Takes a line by its fields.
pub(crate) fn take_line(
    tables: &Tables<'_>,
    changes: &mut Changes,
    is_first: bool,
    fields: &[&[u8]],
) -> Result<(), Fault>
    requires some { 0 < length fields.now }
    requires words { All (λ f. IsField f.now) fields.now }
    requires fits { Fits changes.old tables.now.model.now }
    ensures { Takes (line_kind tables.now.model.now is_first (length changes.old.scenarios) (map (λ f. f.now) fields.now)) changes.new (taken tables.now.model.now changes.old (map (λ f. f.now) fields.now)) result }
{
    let word = word_of(is_first, fields[0])?;
    match (word, fields) {
        (Word::Scenarios, [_, text]) => take_count(changes, *text),
        (Word::Scenario, [_, text]) => take_selection(changes, *text),
        (Word::Name, [_, name]) => take_name(changes, *name),
        (Word::Obj, [_, name, text]) => take_cost(tables, changes, *name, *text),
        (Word::Lb, [_, name, text]) => take_low(tables, changes, *name, *text),
        (Word::Ub, [_, name, text]) => take_high(tables, changes, *name, *text),
        (Word::Rhs, [_, name, text]) => take_rhs(tables, changes, *name, *text),
        _ => Err(Fault::Refused(ChangesKind::Fields)),
    }
}
