// The lines of the claims.
ghost use Rattle.std.specs.Prelude.{◌≡◌, ◌∷◌, ◌++◌, OnOk, codes, flat_map, map};
ghost use Rattle.num_text.specs.NumberText.{integer_text};
ghost use Rattle.tree_log.specs.LogText.{claim_words, claim_line};
ghost use Rattle.tree_log.specs.Spaced.{spaced};

use crate::words::{push_integer, push_integers, push_word};
use scenario_changes::Answer;
use std::alloc::AllocError;

// Appends the words of an optimal point and its value.
fn push_optimal(out: &mut Vec<u8>, point: &[i32], value: i64) -> Result<(), AllocError>
    ensures { OnOk result (out.new.items ≡ out.old.items ++ spaced (codes "optimal" ∷ integer_text value ∷ map integer_text point.now)) }
{
    push_word(out, b"optimal")?;
    push_integer(out, value)?;
    push_integers(out, point)?;
    Ok(())
}

// Appends the words of the best point, its value and a bound.
fn push_limit(out: &mut Vec<u8>, point: &[i32], value: i64, bound: i64) -> Result<(), AllocError>
    ensures { OnOk result (out.new.items ≡ out.old.items ++ spaced (codes "limit" ∷ integer_text value ∷ integer_text bound ∷ map integer_text point.now)) }
{
    push_word(out, b"limit")?;
    push_integer(out, value)?;
    push_integer(out, bound)?;
    push_integers(out, point)?;
    Ok(())
}

// Appends what is claimed.
#[tactic(auto, unfolding(crate::specs::LogText::claim_words))]
fn push_claim_words(out: &mut Vec<u8>, answer: &Answer) -> Result<(), AllocError>
    ensures { OnOk result (out.new.items ≡ out.old.items ++ spaced (claim_words answer.now)) }
{
    match answer {
        Answer::Infeasible => push_word(out, b"infeasible")?,
        Answer::Optimal { point, value } => push_optimal(out, point.as_slice(), *value)?,
        Answer::Limit { best: None, bound } => {
            push_word(out, b"limit")?;
            push_word(out, b"none")?;
            push_integer(out, *bound)?;
        }
        Answer::Limit {
            best: Some((point, value)),
            bound,
        } => push_limit(out, point.as_slice(), *value, *bound)?,
    }
    Ok(())
}

// Appends the line of a claim.
#[tactic(auto, unfolding(crate::specs::LogText::claim_line))]
fn push_claim(out: &mut Vec<u8>, answer: &Answer) -> Result<(), AllocError>
    ensures { OnOk result (out.new.items ≡ out.old.items ++ claim_line answer.now) }
{
    out.extend_from_slice(b"claim")?;
    push_claim_words(out, answer)?;
    out.push(b'\n')?;
    Ok(())
}

/// Appends a line for each claim.
pub(crate) fn push_claims(out: &mut Vec<u8>, answers: &[Answer]) -> Result<(), AllocError>
    ensures { OnOk result (out.new.items ≡ out.old.items ++ flat_map claim_line answers.now) }
{
    for answer in answers {
        push_claim(out, answer)?;
    }
    Ok(())
}
