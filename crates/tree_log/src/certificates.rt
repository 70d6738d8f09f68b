// The lines of a certificate.
ghost use Rattle.std.specs.Prelude.{◌≡◌, ◌∷◌, ◌++◌, OnOk, decimal, flat_map};
ghost use Rattle.num_text.specs.NumberText.{integer_text};
ghost use Rattle.tree_log.specs.LogText as text;
ghost use Rattle.tree_log.specs.Spaced.{spaced};

use crate::words::{push_count, push_digits, push_integer, push_word};
use certs::{Cert, Vectors, Verdict};
use dual_bounds::Vector;
use std::alloc::AllocError;
use tighten::{RowEnd, Step};

fn end_word(side: RowEnd) -> &'static [u8]
    ensures { result.now ≡ text.end_word side }
{
    match side {
        RowEnd::Lower => b"L",
        RowEnd::Upper => b"U",
    }
}

// Appends the words of a step.
fn push_step(out: &mut Vec<u8>, step: &Step) -> Result<(), AllocError>
    ensures { OnOk result (out.new.items ≡ out.old.items ++ spaced (text.step_words step.now)) }
{
    push_count(out, step.row as usize)?;
    push_count(out, step.column as usize)?;
    push_word(out, end_word(step.side))?;
    Ok(())
}

// Appends the words of each step.
fn push_step_words(out: &mut Vec<u8>, steps: &[Step]) -> Result<(), AllocError>
    ensures { OnOk result (out.new.items ≡ out.old.items ++ flat_map (λ s. spaced (text.step_words s)) steps.now) }
{
    for step in steps {
        push_step(out, step)?;
    }
    Ok(())
}

// Appends the line of the steps.
#[tactic(auto, unfolding(crate::specs::LogText::steps_line))]
fn push_steps(out: &mut Vec<u8>, steps: &[Step]) -> Result<(), AllocError>
    ensures { OnOk result (out.new.items ≡ out.old.items ++ text.steps_line steps.now) }
{
    out.extend_from_slice(b"steps")?;
    push_count(out, steps.len())?;
    push_step_words(out, steps)?;
    out.push(b'\n')?;
    Ok(())
}

// Appends the words of each entry.
fn push_entries(out: &mut Vec<u8>, entries: &[(u32, i64)]) -> Result<(), AllocError>
    ensures { OnOk result (out.new.items ≡ out.old.items ++ flat_map (λ e. spaced (text.entry_words e)) entries.now) }
{
    for &(row, multiplier) in entries {
        push_count(out, row as usize)?;
        push_integer(out, multiplier)?;
    }
    Ok(())
}

// Appends the line of a vector.
#[tactic(auto, unfolding(crate::specs::LogText::vector_line))]
fn push_vector(out: &mut Vec<u8>, vector: &Vector) -> Result<(), AllocError>
    ensures { OnOk result (out.new.items ≡ out.old.items ++ text.vector_line vector.now) }
{
    out.extend_from_slice(b"vector")?;
    push_count(out, vector.scale() as usize)?;
    push_count(out, vector.entries().len())?;
    push_entries(out, vector.entries())?;
    out.push(b'\n')?;
    Ok(())
}

// Appends a line for each vector.
fn push_vectors(out: &mut Vec<u8>, vectors: &Vectors) -> Result<(), AllocError>
    ensures { OnOk result (out.new.items ≡ out.old.items ++ flat_map text.vector_line vectors.now) }
{
    for k in 0..vectors.len() {
        if let Some(vector) = vectors.get(k) {
            push_vector(out, vector)?;
        }
    }
    Ok(())
}

// Appends a letter and a number, behind a space.
fn push_lettered(out: &mut Vec<u8>, letter: u8, number: u32) -> Result<(), AllocError>
    ensures { OnOk result (out.new.items ≡ out.old.items ++ 32 ∷ letter ∷ decimal number) }
{
    out.push(b' ')?;
    out.push(letter)?;
    push_digits(out, number as usize)?;
    Ok(())
}

// Appends the word of a verdict.
#[tactic(auto, unfolding(crate::specs::LogText::verdict_word))]
fn push_verdict(out: &mut Vec<u8>, verdict: Verdict) -> Result<(), AllocError>
    ensures { OnOk result (out.new.items ≡ out.old.items ++ 32 ∷ text.verdict_word verdict) }
{
    match verdict {
        Verdict::Empty => push_word(out, b"e")?,
        Verdict::Misses(row) => push_lettered(out, b'm', row)?,
        Verdict::Farkas(vector) => push_lettered(out, b'f', vector)?,
        Verdict::Bound(vector) => push_lettered(out, b'b', vector)?,
        Verdict::Point => push_word(out, b"p")?,
    }
    Ok(())
}

// Appends the words of the verdicts.
fn push_verdict_words(out: &mut Vec<u8>, verdicts: &[Verdict]) -> Result<(), AllocError>
    ensures { OnOk result (out.new.items ≡ out.old.items ++ flat_map (λ v. 32 ∷ text.verdict_word v) verdicts.now) }
{
    for &verdict in verdicts {
        push_verdict(out, verdict)?;
    }
    Ok(())
}

// Appends the line of the verdicts.
#[tactic(auto, unfolding(crate::specs::LogText::verdicts_line))]
fn push_verdicts(out: &mut Vec<u8>, verdicts: &[Verdict]) -> Result<(), AllocError>
    ensures { OnOk result (out.new.items ≡ out.old.items ++ text.verdicts_line verdicts.now) }
{
    out.extend_from_slice(b"verdicts")?;
    push_verdict_words(out, verdicts)?;
    out.push(b'\n')?;
    Ok(())
}

/// Appends the lines of a certificate and its verdicts.
pub(crate) fn push_cert(
    out: &mut Vec<u8>,
    cert: &Cert,
    verdicts: &[Verdict],
) -> Result<(), AllocError>
    ensures { OnOk result (out.new.items ≡ out.old.items ++ text.cert_lines cert.now verdicts.now) }
{
    push_steps(out, cert.steps.as_slice())?;
    push_vectors(out, &cert.vectors)?;
    push_verdicts(out, verdicts)?;
    Ok(())
}
