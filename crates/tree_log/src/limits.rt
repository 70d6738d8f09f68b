// The limits that the types of what nodes record keep.
ghost use Rattle.tree_log.specs.Laws.{KeepsAll, KeepsVectors, VectorsKeep};

use certs::{Node, Vectors};

// Each vector keeps its limits.
fn vectors_keep_limits(vectors: &Vectors)
    ensures { KeepsVectors vectors.now }
{
    for k in 0..vectors.len() {
        if let Some(vector) = vectors.get(k) {
            let _scale = vector.scale();
        }
    }
}

// Each vector that the node records keeps its limits.
fn node_keeps_limits(node: &Node)
    ensures { VectorsKeep node.now }
{
    match node {
        Node::Rest => {}
        Node::Leaf { cert, .. } => vectors_keep_limits(&cert.vectors),
        Node::Split { cert, .. } => vectors_keep_limits(&cert.vectors),
    }
}

/// Each vector that the nodes record keeps its limits. The call does nothing.
pub(crate) fn keep_limits(nodes: &[Node])
    ensures { KeepsAll nodes.now }
{
    for node in nodes {
        node_keeps_limits(node);
    }
}
