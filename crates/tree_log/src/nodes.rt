// The lines of the nodes.
ghost use Rattle.std.specs.Prelude.{◌≡◌, ◌∷◌, ◌++◌, OnOk, decimal, flat_map};
ghost use Rattle.tree_log.specs.LogText.{split_line, stay_line, node_lines};

use crate::certificates::push_cert;
use crate::words::{push_count, push_integer};
use certs::Node;
use live_sets::LiveSet;
use std::alloc::AllocError;

// Appends the numbers of the scenarios.
fn push_scenarios(out: &mut Vec<u8>, scenarios: LiveSet) -> Result<(), AllocError>
    ensures { OnOk result (out.new.items ≡ out.old.items ++ flat_map (λ k. 32 ∷ decimal k) scenarios) }
{
    for scenario in scenarios.iter() {
        push_count(out, scenario as usize)?;
    }
    Ok(())
}

// Appends the line of the scenarios that stay.
#[tactic(auto, unfolding(crate::specs::LogText::stay_line))]
fn push_stay(out: &mut Vec<u8>, stay: LiveSet) -> Result<(), AllocError>
    ensures { OnOk result (out.new.items ≡ out.old.items ++ stay_line stay) }
{
    out.extend_from_slice(b"stay")?;
    push_scenarios(out, stay)?;
    out.push(b'\n')?;
    Ok(())
}

// Appends the first line of a split.
#[tactic(auto, unfolding(crate::specs::LogText::split_line))]
fn push_split(out: &mut Vec<u8>, child: u32, column: u32, value: i32) -> Result<(), AllocError>
    ensures { OnOk result (out.new.items ≡ out.old.items ++ split_line child column value) }
{
    out.extend_from_slice(b"split")?;
    push_count(out, child as usize)?;
    push_count(out, column as usize)?;
    push_integer(out, i64::from(value))?;
    out.push(b'\n')?;
    Ok(())
}

// Appends the lines of a node.
#[tactic(auto, unfolding(crate::specs::LogText::node_lines))]
fn push_node(out: &mut Vec<u8>, node: &Node) -> Result<(), AllocError>
    ensures { OnOk result (out.new.items ≡ out.old.items ++ node_lines node.now) }
{
    match node {
        Node::Rest => out.extend_from_slice(b"rest\n")?,
        Node::Leaf { cert, verdicts } => {
            out.extend_from_slice(b"leaf\n")?;
            push_cert(out, cert, verdicts.as_slice())?;
        }
        Node::Split {
            cert,
            verdicts,
            stay,
            child,
            column,
            value,
        } => {
            push_split(out, *child, *column, *value)?;
            push_stay(out, *stay)?;
            push_cert(out, cert, verdicts.as_slice())?;
        }
    }
    Ok(())
}

/// Appends the lines of each node.
pub(crate) fn push_nodes(out: &mut Vec<u8>, nodes: &[Node]) -> Result<(), AllocError>
    ensures { OnOk result (out.new.items ≡ out.old.items ++ flat_map node_lines nodes.now) }
{
    for node in nodes {
        push_node(out, node)?;
    }
    Ok(())
}
