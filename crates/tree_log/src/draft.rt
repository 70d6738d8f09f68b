// What was read of a log so far, and how a line is taken.
ghost use Rattle.std.specs.Prelude.{◌≡◌};
ghost use Rattle.tree_log.specs.LineWords as spec;
ghost use Rattle.tree_log.specs.Drafts as drafts;
ghost use Rattle.tree_log.specs.Reads.{Reads};

use crate::cert_lines::{read_counted_vector, read_some_verdicts, read_steps};
use crate::claim_lines::read_claim;
use crate::fault::{Fault, push};
use crate::node_lines::{SplitHead, read_head, read_stay};
use crate::numbers::below;
use crate::source::{Words, behind, expect_end};
use certs::{Cert, Node, Steps, Vectors, Verdicts};
use live_sets::LiveSet;
use scenario_changes::Answer;
use std::alloc::Global;

/// How many there are, as the log's second line says.
#[derive(Clone, Copy)]
pub(crate) struct Counts {
    pub(crate) scenarios: u32,
    pub(crate) columns: u32,
    pub(crate) rows: u32,
    pub(crate) nodes: u32,
}

/// A split whose certificate is still to come.
#[derive(Clone, Copy)]
pub(crate) struct SplitPart {
    pub(crate) head: SplitHead,
    pub(crate) stay: LiveSet,
}

/// What the next line has to be.
#[derive(Drop)]
pub(crate) enum Part {
    /// The first line.
    First,
    /// The counts.
    Counts,
    /// A claim, the first line of a node, or the last line.
    Between,
    /// The scenarios that stay at this split.
    Stay(SplitHead),
    /// The steps of a leaf, or of this split.
    Steps(Option<SplitPart>),
    /// A vector or the verdicts behind these steps and vectors.
    Vectors(Option<SplitPart>, Steps, Vectors),
    /// Nothing more.
    Ended,
}

/// What was read of a log so far.
#[derive(Drop)]
pub(crate) struct Draft {
    pub(crate) counts: Counts,
    pub(crate) answers: Vec<Answer>,
    pub(crate) tree: Vec<Node>,
    pub(crate) part: Part,
}

impl Draft {
    /// Nothing was read.
    pub(crate) fn new(alloc: Global) -> Draft
        ensures { drafts.draft_of result ≡ drafts.nothing }
    {
        Draft {
            counts: Counts {
                scenarios: 0,
                columns: 0,
                rows: 0,
                nodes: 0,
            },
            answers: Vec::new(alloc),
            tree: Vec::new(alloc),
            part: Part::First,
        }
    }
}

fn read_first(words: Words<'_>) -> Result<(), Fault>
    ensures { Reads (drafts.first_of words.entry) result }
{
    let words = behind(b"scenlog", words)?;
    let words = behind(b"1", words)?;
    expect_end(words)
}

fn read_last(words: Words<'_>) -> Result<(), Fault>
    ensures { Reads (drafts.last_of words.entry) result }
{
    let words = behind(b"end", words)?;
    expect_end(words)
}

// The counts of a log; a log has a scenario and a node.
fn counts_of(scenarios: &[u8], columns: &[u8], rows: &[u8], nodes: &[u8]) -> Option<Counts>
    ensures { result ≡ drafts.counts_of scenarios.now columns.now rows.now nodes.now }
{
    let scenarios = below(65, scenarios)?;
    let columns = below(1001, columns)?;
    let rows = below(1001, rows)?;
    let nodes = below(100_002, nodes)?;
    if scenarios == 0 {
        return None;
    }
    if nodes == 0 {
        return None;
    }
    Some(Counts {
        scenarios,
        columns,
        rows,
        nodes,
    })
}

fn read_four(mut words: Words<'_>) -> Result<Counts, Fault>
    ensures { Reads (drafts.four_of words.entry) result }
{
    let scenarios = words.next().ok_or(Fault::Spelling)?;
    let columns = words.next().ok_or(Fault::Spelling)?;
    let rows = words.next().ok_or(Fault::Spelling)?;
    let nodes = words.next().ok_or(Fault::Spelling)?;
    expect_end(words)?;
    counts_of(scenarios, columns, rows, nodes).ok_or(Fault::Spelling)
}

fn read_counts(words: Words<'_>) -> Result<Counts, Fault>
    ensures { Reads (drafts.size_of words.entry) result }
{
    let words = behind(b"size", words)?;
    read_four(words)
}

// The first line of a node: the node itself where it has no record, or what comes next.
fn take_node(
    counts: Counts,
    answers: Vec<Answer>,
    mut tree: Vec<Node>,
    mut words: Words<'_>,
) -> Result<Draft, Fault>
    ensures { drafts.Takes (drafts.node_taken counts answers.items tree.items words.entry) result }
{
    let word = words.next().ok_or(Fault::Spelling)?;
    if word == b"rest".as_slice() {
        expect_end(words)?;
        push(&mut tree, Node::Rest)?;
        return Ok(Draft {
            counts,
            answers,
            tree,
            part: Part::Between,
        });
    }
    if word == b"leaf".as_slice() {
        expect_end(words)?;
        return Ok(Draft {
            counts,
            answers,
            tree,
            part: Part::Steps(None),
        });
    }
    if word == b"split".as_slice() {
        let head = read_head(counts.columns, counts.nodes, words)?;
        return Ok(Draft {
            counts,
            answers,
            tree,
            part: Part::Stay(head),
        });
    }
    Err(Fault::Spelling)
}

// A claim, the first line of a node, or the last line.
fn take_between(
    alloc: Global,
    counts: Counts,
    mut answers: Vec<Answer>,
    tree: Vec<Node>,
    words: Words<'_>,
) -> Result<Draft, Fault>
    ensures { drafts.Takes (drafts.between_taken counts answers.items tree.items words.entry) result }
{
    if answers.len() < counts.scenarios as usize {
        let answer = read_claim(alloc, counts.columns, words)?;
        push(&mut answers, answer)?;
        return Ok(Draft {
            counts,
            answers,
            tree,
            part: Part::Between,
        });
    }
    if tree.len() < counts.nodes as usize {
        return take_node(counts, answers, tree, words);
    }
    read_last(words)?;
    Ok(Draft {
        counts,
        answers,
        tree,
        part: Part::Ended,
    })
}

fn node_of(split: Option<SplitPart>, steps: Steps, vectors: Vectors, verdicts: Verdicts) -> Node
    ensures { result ≡ drafts.node_of split steps vectors verdicts }
{
    let cert = Cert { steps, vectors };
    match split {
        None => Node::Leaf { cert, verdicts },
        Some(SplitPart { head, stay }) => Node::Split {
            cert,
            verdicts,
            stay,
            child: head.child,
            column: head.column,
            value: head.value,
        },
    }
}

/// What stands on lines of a certificate behind the steps.
#[derive(Drop)]
struct Record {
    split: Option<SplitPart>,
    steps: Steps,
    vectors: Vectors,
}

// A vector, or the verdicts.
fn take_vector(
    alloc: Global,
    counts: Counts,
    answers: Vec<Answer>,
    mut tree: Vec<Node>,
    begun: Record,
    mut words: Words<'_>,
) -> Result<Draft, Fault>
    ensures { drafts.Takes (drafts.vector_taken counts answers.items tree.items begun.split begun.steps begun.vectors words.entry) result }
{
    let Record {
        split,
        steps,
        mut vectors,
    } = begun;
    let word = words.next().ok_or(Fault::Spelling)?;
    if word == b"vector".as_slice() {
        if vectors.len() >= 2 {
            return Err(Fault::Spelling);
        }
        let vector = read_counted_vector(alloc, counts.rows, words)?;
        vectors.push(vector);
        return Ok(Draft {
            counts,
            answers,
            tree,
            part: Part::Vectors(split, steps, vectors),
        });
    }
    if word == b"verdicts".as_slice() {
        let verdicts = read_some_verdicts(alloc, counts.scenarios, counts.rows, words)?;
        push(&mut tree, node_of(split, steps, vectors, verdicts))?;
        return Ok(Draft {
            counts,
            answers,
            tree,
            part: Part::Between,
        });
    }
    Err(Fault::Spelling)
}

/// Takes the next line by its words.
pub(crate) fn take_line(alloc: Global, draft: Draft, words: Words<'_>) -> Result<Draft, Fault>
    ensures { drafts.Takes (drafts.taken (drafts.draft_of draft) words.entry) result }
{
    let Draft {
        counts,
        answers,
        tree,
        part,
    } = draft;
    match part {
        Part::First => {
            read_first(words)?;
            Ok(Draft {
                counts,
                answers,
                tree,
                part: Part::Counts,
            })
        }
        Part::Counts => {
            let counts = read_counts(words)?;
            Ok(Draft {
                counts,
                answers,
                tree,
                part: Part::Between,
            })
        }
        Part::Between => take_between(alloc, counts, answers, tree, words),
        Part::Stay(head) => {
            let stay = read_stay(counts.scenarios, words)?;
            Ok(Draft {
                counts,
                answers,
                tree,
                part: Part::Steps(Some(SplitPart { head, stay })),
            })
        }
        Part::Steps(split) => {
            let steps = read_steps(alloc, counts.columns, counts.rows, words)?;
            Ok(Draft {
                counts,
                answers,
                tree,
                part: Part::Vectors(split, steps, Vectors::new(alloc)),
            })
        }
        Part::Vectors(split, steps, vectors) => take_vector(
            alloc,
            counts,
            answers,
            tree,
            Record {
                split,
                steps,
                vectors,
            },
            words,
        ),
        Part::Ended => Err(Fault::Spelling),
    }
}
