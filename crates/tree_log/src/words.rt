// Words of a line that is being written, each behind a space.
ghost use Rattle.std.specs.Prelude.{◌≡◌, ◌∷◌, ◌++◌, OnOk, decimal, map};
ghost use Rattle.num_text.specs.NumberText.{integer_text};
ghost use Rattle.tree_log.specs.Spaced.{spaced};

use itoa::Buffer;
use num_text::write_number;
use std::alloc::AllocError;

/// Appends a word.
pub(crate) fn push_word(out: &mut Vec<u8>, word: &[u8]) -> Result<(), AllocError>
    ensures { OnOk result (out.new.items ≡ out.old.items ++ 32 ∷ word.now) }
{
    out.push(b' ')?;
    out.extend_from_slice(word)?;
    Ok(())
}

/// Appends a number.
pub(crate) fn push_integer(out: &mut Vec<u8>, number: i64) -> Result<(), AllocError>
    ensures { OnOk result (out.new.items ≡ out.old.items ++ 32 ∷ integer_text number) }
{
    out.push(b' ')?;
    write_number(out, number)?;
    Ok(())
}

/// Appends the digits of a count behind what was written, without a space.
pub(crate) fn push_digits(out: &mut Vec<u8>, count: usize) -> Result<(), AllocError>
    ensures { OnOk result (out.new.items ≡ out.old.items ++ decimal count) }
{
    let mut buffer = Buffer::new();
    out.extend_from_slice(buffer.format(count).as_bytes())?;
    Ok(())
}

/// Appends a count.
pub(crate) fn push_count(out: &mut Vec<u8>, count: usize) -> Result<(), AllocError>
    ensures { OnOk result (out.new.items ≡ out.old.items ++ 32 ∷ decimal count) }
{
    out.push(b' ')?;
    push_digits(out, count)?;
    Ok(())
}

/// Appends numbers.
pub(crate) fn push_integers(out: &mut Vec<u8>, numbers: &[i32]) -> Result<(), AllocError>
    ensures { OnOk result (out.new.items ≡ out.old.items ++ spaced (map integer_text numbers.now)) }
{
    for &number in numbers {
        push_integer(out, i64::from(number))?;
    }
    Ok(())
}
