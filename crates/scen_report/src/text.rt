// Single lines of a report: words parted by one space.
ghost use Rattle.std.specs.Prelude.{◌≡◌, ◌++◌, OnOk, IfSome, decimal};
ghost use Rattle.num_text.specs.NumberText.{integer_text};
ghost use Rattle.int_model.specs.Models.{minimized};
ghost use Rattle.scen_report.specs.Reports.{IsValue, text_line, column_line, infinite, value_text};

use int_model::Direction;
use num_text::write_number;
use std::alloc::AllocError;

/// Appends a line of a word and a text.
#[tactic(auto, unfolding(crate::specs::Reports::text_line))]
pub(crate) fn push_text(out: &mut Vec<u8>, word: &[u8], text: &[u8]) -> Result<(), AllocError>
    ensures { OnOk result (out.new.items ≡ out.old.items ++ text_line word.now text.now) }
{
    out.extend_from_slice(word)?;
    out.push(b' ')?;
    out.extend_from_slice(text)?;
    out.push(b'\n')?;
    Ok(())
}

// Appends a line of a word and a number.
#[tactic(auto, unfolding(crate::specs::Reports::text_line))]
fn push_number(out: &mut Vec<u8>, word: &[u8], number: i64) -> Result<(), AllocError>
    ensures { OnOk result (out.new.items ≡ out.old.items ++ text_line word.now (integer_text number)) }
{
    out.extend_from_slice(word)?;
    out.push(b' ')?;
    write_number(out, number)?;
    out.push(b'\n')?;
    Ok(())
}

/// Appends a line of a word and a count.
#[tactic(auto, unfolding(crate::specs::Reports::text_line))]
pub(crate) fn push_count(out: &mut Vec<u8>, word: &[u8], count: u32) -> Result<(), AllocError>
    ensures { OnOk result (out.new.items ≡ out.old.items ++ text_line word.now (decimal count)) }
{
    push_number(out, word, i64::from(count))?;
    Ok(())
}

/// Appends the line of a column.
#[tactic(auto, unfolding(crate::specs::Reports::column_line))]
pub(crate) fn push_column(out: &mut Vec<u8>, name: &[u8], number: i32) -> Result<(), AllocError>
    ensures { OnOk result (out.new.items ≡ out.old.items ++ column_line name.now number) }
{
    out.extend_from_slice(b"ScenNX")?;
    out.push(b' ')?;
    out.extend_from_slice(name)?;
    out.push(b' ')?;
    write_number(out, i64::from(number))?;
    out.push(b'\n')?;
    Ok(())
}

// What stands for no value.
fn infinite_text(direction: Direction) -> &'static [u8]
    ensures { result.now ≡ infinite direction }
{
    match direction {
        Direction::Min => b"inf",
        Direction::Max => b"-inf",
    }
}

// A value in the model's own direction.
fn own_value(direction: Direction, value: i64) -> i64
    requires { IsValue value }
    ensures { result ≡ minimized direction value }
{
    match direction {
        Direction::Min => value,
        Direction::Max => -value,
    }
}

/// Appends a line of a word and a value, or of what stands for none.
pub(crate) fn push_value(
    out: &mut Vec<u8>,
    word: &[u8],
    direction: Direction,
    value: Option<i64>,
) -> Result<(), AllocError>
    requires { IfSome value IsValue }
    ensures { OnOk result (out.new.items ≡ out.old.items ++ text_line word.now (value_text direction value)) }
{
    match value {
        Some(value) => push_number(out, word, own_value(direction, value)),
        None => push_text(out, word, infinite_text(direction)),
    }
}
