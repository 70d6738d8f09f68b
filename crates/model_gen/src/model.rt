// The model text.
ghost use Rattle.std.specs.Prelude.{◌≡◌, ◌<◌, ◌≤◌, ◌++◌, length, OnOk, IfOk};
ghost use Rattle.model_gen.specs.Draws as draws;
ghost use Rattle.model_gen.specs.Texts as texts;

use crate::parts::push_part;
use crate::words::{cost_of, demand};
use std::alloc::{AllocError, Global};

#[tactic(auto, unfolding(crate::specs::Texts::row_line))]
fn push_row(out: &mut Vec<u8>, i: u32) -> Result<(), AllocError>
    ensures { OnOk result (out.new.items ≡ out.old.items ++ texts.row_line i) }
{
    push_part(out, b" G r", i)?;
    out.push(b'\n')?;
    Ok(())
}

fn push_rows(out: &mut Vec<u8>, rows: u32) -> Result<(), AllocError>
    ensures { OnOk result (out.new.items ≡ out.old.items ++ texts.for_each rows texts.row_line) }
{
    for i in 0..rows {
        push_row(out, i)?;
    }
    Ok(())
}

#[tactic(auto, unfolding(crate::specs::Texts::cost_line))]
fn push_cost(out: &mut Vec<u8>, j: u32, cost: u32) -> Result<(), AllocError>
    ensures { OnOk result (out.new.items ≡ out.old.items ++ texts.cost_line j cost) }
{
    push_part(out, b" c", j)?;
    push_part(out, b" obj ", cost)?;
    out.push(b'\n')?;
    Ok(())
}

#[tactic(auto, unfolding(crate::specs::Texts::entry_line))]
fn push_entry(out: &mut Vec<u8>, j: u32, i: u32) -> Result<(), AllocError>
    ensures { OnOk result (out.new.items ≡ out.old.items ++ texts.entry_line j i) }
{
    push_part(out, b" c", j)?;
    push_part(out, b" r", i)?;
    out.extend_from_slice(b" 1\n")?;
    Ok(())
}

// Appends the lines of a column.
fn push_column(out: &mut Vec<u8>, words: &[u32], rows: u32, j: u32) -> Result<(), AllocError>
    requires { j < length words.now }
    ensures { OnOk result (out.new.items ≡ out.old.items ++ texts.column_lines words.now rows j) }
{
    push_cost(out, j, cost_of(words[j as usize]))?;
    if rows > 0 {
        push_entry(out, j, j % rows)?;
    }
    Ok(())
}

fn push_columns(out: &mut Vec<u8>, words: &[u32], columns: u32, rows: u32) -> Result<(), AllocError>
    requires { columns ≤ length words.now }
    ensures { OnOk result (out.new.items ≡ out.old.items ++ texts.for_each columns (texts.column_lines words.now rows)) }
{
    for j in 0..columns {
        push_column(out, words, rows, j)?;
    }
    Ok(())
}

#[tactic(auto, unfolding(crate::specs::Texts::demand_line))]
fn push_demand(out: &mut Vec<u8>, i: u32, demand: u32) -> Result<(), AllocError>
    ensures { OnOk result (out.new.items ≡ out.old.items ++ texts.demand_line i demand) }
{
    push_part(out, b" rhs r", i)?;
    push_part(out, b" ", demand)?;
    out.push(b'\n')?;
    Ok(())
}

fn push_demands(out: &mut Vec<u8>, words: &[u32], columns: u32, rows: u32) -> Result<(), AllocError>
    requires columns { columns ≤ 1000 }
    requires rows { rows ≤ 1000 }
    requires words { draws.first_word columns rows 0 ≤ length words.now }
    ensures { OnOk result (out.new.items ≡ out.old.items ++ texts.for_each rows (λ i. texts.demand_line i (draws.demand words.now columns rows i))) }
{
    for i in 0..rows {
        push_demand(out, i, demand(words, columns, rows, i))?;
    }
    Ok(())
}

#[tactic(auto, unfolding(crate::specs::Texts::bound_line))]
fn push_bound(out: &mut Vec<u8>, j: u32) -> Result<(), AllocError>
    ensures { OnOk result (out.new.items ≡ out.old.items ++ texts.bound_line j) }
{
    push_part(out, b" UP bnd c", j)?;
    out.extend_from_slice(b" 9\n")?;
    Ok(())
}

fn push_bounds(out: &mut Vec<u8>, columns: u32) -> Result<(), AllocError>
    ensures { OnOk result (out.new.items ≡ out.old.items ++ texts.for_each columns texts.bound_line) }
{
    for j in 0..columns {
        push_bound(out, j)?;
    }
    Ok(())
}

/// The text of the model.
#[tactic(auto, unfolding(crate::specs::Texts::head_lines, crate::specs::Texts::columns_begin, crate::specs::Texts::columns_end))]
pub(crate) fn model_text(
    alloc: Global,
    words: &[u32],
    columns: u32,
    rows: u32,
) -> Result<Vec<u8>, AllocError>
    requires columns { columns ≤ 1000 }
    requires rows { rows ≤ 1000 }
    requires words { draws.first_word columns rows 0 ≤ length words.now }
    ensures { IfOk result (λ text. text.items ≡ texts.model_text words.now columns rows) }
{
    let mut out = Vec::new(alloc);
    out.extend_from_slice(b"NAME gen\nROWS\n N obj\n")?;
    push_rows(&mut out, rows)?;
    out.extend_from_slice(b"COLUMNS\n M 'MARKER' 'INTORG'\n")?;
    push_columns(&mut out, words, columns, rows)?;
    out.extend_from_slice(b" M 'MARKER' 'INTEND'\n")?;
    out.extend_from_slice(b"RHS\n")?;
    push_demands(&mut out, words, columns, rows)?;
    out.extend_from_slice(b"BOUNDS\n")?;
    push_bounds(&mut out, columns)?;
    out.extend_from_slice(b"ENDATA\n")?;
    Ok(out)
}
