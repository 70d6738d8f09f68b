// The text that tells what a search ended with.
use alone_run::Ended;
use int_model::Direction;
use num_text::write_number;
use scenario_changes::{Answer, Answers, Problem};
use std::alloc::{AllocError, Global};

// How many scenarios have an answer of each kind.
#[derive(Clone, Copy)]
struct Counts {
    optimal: usize,
    infeasible: usize,
    limit: usize,
}

fn is_optimal(answer: &Answer) -> bool {
    match answer {
        Answer::Optimal { .. } => true,
        Answer::Infeasible => false,
        Answer::Limit { .. } => false,
    }
}

fn is_infeasible(answer: &Answer) -> bool {
    match answer {
        Answer::Optimal { .. } => false,
        Answer::Infeasible => true,
        Answer::Limit { .. } => false,
    }
}

fn count_answers(answers: &Answers) -> Counts {
    let optimal = answers.as_slice().iter().filter(|a| is_optimal(a)).count();
    let infeasible = answers
        .as_slice()
        .iter()
        .filter(|a| is_infeasible(a))
        .count();
    Counts {
        optimal,
        infeasible,
        limit: answers
            .len()
            .saturating_sub(optimal)
            .saturating_sub(infeasible),
    }
}

fn add_count(text: &mut Vec<u8>, count: usize, word: &[u8]) -> Result<(), AllocError> {
    write_number(text, i64::try_from(count).unwrap_or(i64::MAX))?;
    text.extend_from_slice(word)?;
    Ok(())
}

fn add_value(text: &mut Vec<u8>, answer: &Answer, direction: Direction) -> Result<(), AllocError> {
    text.push(b' ')?;
    match answer {
        Answer::Infeasible => text.extend_from_slice(b"inf")?,
        Answer::Limit { .. } => text.push(b'?')?,
        Answer::Optimal { value, .. } => match direction {
            Direction::Min => write_number(text, *value)?,
            Direction::Max => write_number(text, value.saturating_neg())?,
        },
    }
    Ok(())
}

/// The two lines of a search: how many nodes and answers of each kind there are, and the values.
pub(crate) fn told(alloc: Global, problem: &Problem, ended: &Ended) -> Result<Vec<u8>, AllocError> {
    let counts = count_answers(&ended.answers);
    let mut text = Vec::new(alloc);
    add_count(&mut text, ended.tree.len(), b" nodes: ")?;
    add_count(&mut text, counts.optimal, b" optimal, ")?;
    add_count(&mut text, counts.infeasible, b" infeasible, ")?;
    add_count(&mut text, counts.limit, b" limit\nvalues")?;
    for answer in ended.answers.as_slice() {
        add_value(&mut text, answer, problem.model().direction())?;
    }
    text.push(b'\n')?;
    Ok(text)
}
