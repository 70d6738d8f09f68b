// The decimal text of a whole number.
ghost use Rattle.std.specs.Prelude.{◌≡◌, ◌++◌, length, drop, OnOk, OnErr};
ghost use Rattle.num_text.specs.NumberText.{integer_text, IsDecimalTextOf};

use itoa::Buffer;
use std::alloc::AllocError;

/// Appends the decimal text of a number: its digits with no leading zero, and a `-` before them
/// where it is below 0. Where memory is wanting, `out` stays as it was.
pub fn write_number(out: &mut Vec<u8>, value: i64) -> Result<(), AllocError>
    ensures ok { OnOk result (out.new.items ≡ out.old.items ++ integer_text value) }
    ensures err { OnErr result (out.new.items ≡ out.old.items) }

    // The appended bytes alone are read as the number, and are its one canonical text.
    ensures meaning { OnOk result (IsDecimalTextOf value (drop (length out.old.items) out.new.items)) }
{
    let mut buffer = Buffer::new();
    out.extend_from_slice(buffer.format(value).as_bytes())?;
    Ok(())
}

#[cfg(test)]
mod tests;
