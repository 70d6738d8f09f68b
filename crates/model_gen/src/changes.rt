// The text of the changes.
ghost use Rattle.std.specs.Prelude.{◌≡◌, ◌<◌, ◌≤◌, ◌+◌, ◌++◌, length, OnOk, IfOk};
ghost use Rattle.model_gen.specs.Draws as draws;
ghost use Rattle.model_gen.specs.Texts as texts;

use crate::parts::push_part;
use crate::words::{cost_of, first_word, size};
use std::alloc::{AllocError, Global};

#[tactic(auto, unfolding(crate::specs::Texts::new_cost_line))]
fn push_cost(out: &mut Vec<u8>, j: u32, cost: u32) -> Result<(), AllocError>
    ensures { OnOk result (out.new.items ≡ out.old.items ++ texts.new_cost_line j cost) }
{
    push_part(out, b"obj c", j)?;
    push_part(out, b" ", cost)?;
    out.push(b'\n')?;
    Ok(())
}

#[tactic(auto, unfolding(crate::specs::Texts::new_bound_line))]
fn push_bound(out: &mut Vec<u8>, j: u32, bound: u32) -> Result<(), AllocError>
    ensures { OnOk result (out.new.items ≡ out.old.items ++ texts.new_bound_line j bound) }
{
    push_part(out, b"ub c", j)?;
    push_part(out, b" ", bound)?;
    out.push(b'\n')?;
    Ok(())
}

#[tactic(auto, unfolding(crate::specs::Texts::new_demand_line))]
fn push_demand(out: &mut Vec<u8>, i: u32, demand: u32) -> Result<(), AllocError>
    ensures { OnOk result (out.new.items ≡ out.old.items ++ texts.new_demand_line i demand) }
{
    push_part(out, b"rhs r", i)?;
    push_part(out, b" ", demand)?;
    out.push(b'\n')?;
    Ok(())
}

// How many kinds of change there are.
fn kinds(rows: u32) -> u32
    ensures value { result ≡ draws.kinds rows }
    ensures some { 0 < result }
{
    if rows == 0 { 2 } else { 3 }
}

// Appends a change of a kind that there is, by two words.
fn push_change(
    out: &mut Vec<u8>,
    columns: u32,
    rows: u32,
    kind: u32,
    place: u32,
    number: u32,
) -> Result<(), AllocError>
    requires some { 0 < columns }
    requires columns { columns ≤ 1000 }
    requires kind { kind < draws.kinds rows }
    ensures { OnOk result (out.new.items ≡ out.old.items ++ texts.change_line columns rows kind place number) }
{
    match kind {
        0 => push_cost(out, place % columns, cost_of(number))?,
        1 => push_bound(out, place % columns, number % 10)?,
        _ => {
            let i = place % rows;
            push_demand(out, i, number % (9 * size(columns, rows, i) + 5))?;
        }
    }
    Ok(())
}

// Appends the change by the three words from word k on.
#[tactic(auto, unfolding(crate::specs::Texts::change_at))]
fn push_change_at(
    out: &mut Vec<u8>,
    words: &[u32],
    columns: u32,
    rows: u32,
    k: u32,
) -> Result<(), AllocError>
    requires some { 0 < columns }
    requires columns { columns ≤ 1000 }
    requires limit { k ≤ 10000 }
    requires words { k + 2 < length words.now }
    ensures { OnOk result (out.new.items ≡ out.old.items ++ texts.change_at words.now columns rows k) }
{
    let k = k as usize;
    push_change(
        out,
        columns,
        rows,
        words[k] % kinds(rows),
        words[k + 1],
        words[k + 2],
    )
}

#[tactic(auto, unfolding(crate::specs::Texts::scenario_line))]
fn push_selection(out: &mut Vec<u8>, s: u32) -> Result<(), AllocError>
    ensures { OnOk result (out.new.items ≡ out.old.items ++ texts.scenario_line s) }
{
    push_part(out, b"scenario ", s)?;
    out.push(b'\n')?;
    Ok(())
}

// Appends the lines of a scenario.
fn push_scenario(
    out: &mut Vec<u8>,
    words: &[u32],
    columns: u32,
    rows: u32,
    s: u32,
) -> Result<(), AllocError>
    requires some { 0 < columns }
    requires columns { columns ≤ 1000 }
    requires rows { rows ≤ 1000 }
    requires scenario { s < 64 }
    requires words { draws.first_word columns rows (s + 1) ≤ length words.now }
    ensures { OnOk result (out.new.items ≡ out.old.items ++ texts.scenario_lines words.now columns rows s) }
{
    let first = first_word(columns, rows, s);
    push_selection(out, s)?;
    push_change_at(out, words, columns, rows, first)?;
    push_change_at(out, words, columns, rows, first + 3)?;
    push_change_at(out, words, columns, rows, first + 6)?;
    Ok(())
}

#[tactic(auto, unfolding(crate::specs::Texts::scenarios_line))]
fn push_count(out: &mut Vec<u8>, scenarios: u32) -> Result<(), AllocError>
    ensures { OnOk result (out.new.items ≡ out.old.items ++ texts.scenarios_line scenarios) }
{
    push_part(out, b"scenarios ", scenarios)?;
    out.push(b'\n')?;
    Ok(())
}

/// The text of the changes by scenarios.
pub(crate) fn changes_text(
    alloc: Global,
    words: &[u32],
    columns: u32,
    rows: u32,
    scenarios: u32,
) -> Result<Vec<u8>, AllocError>
    requires some { 0 < columns }
    requires columns { columns ≤ 1000 }
    requires rows { rows ≤ 1000 }
    requires scenarios { scenarios ≤ 64 }
    requires words { draws.first_word columns rows scenarios ≤ length words.now }
    ensures { IfOk result (λ text. text.items ≡ texts.changes_text words.now columns rows scenarios) }
{
    let mut out = Vec::new(alloc);
    push_count(&mut out, scenarios)?;
    for s in 0..scenarios {
        push_scenario(&mut out, words, columns, rows, s)?;
    }
    Ok(out)
}
