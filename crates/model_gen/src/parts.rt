// Parts of a line.
ghost use Rattle.std.specs.Prelude.{◌≡◌, ◌++◌, OnOk, decimal};

use num_text::write_number;
use std::alloc::AllocError;

/// Appends a word and a number.
pub(crate) fn push_part(out: &mut Vec<u8>, word: &[u8], number: u32) -> Result<(), AllocError>
    ensures { OnOk result (out.new.items ≡ out.old.items ++ word.now ++ decimal number) }
{
    out.extend_from_slice(word)?;
    write_number(out, i64::from(number))?;
    Ok(())
}
