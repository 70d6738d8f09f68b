// What a node leaves for its children.
use crate::climbs::Climb;
use crate::multipliers::SCALE;
use crate::starts::copy_of;
use bb_core::Hint;
use certs::Vectors;
use std::alloc::{AllocError, Global};
use std::sync::Arc;

// Copies of the vectors that climbs can start from.
fn starts_of(alloc: Global, vectors: &Vectors) -> Result<Vectors, AllocError> {
    let mut starts = Vectors::new(alloc);
    for k in 0..vectors.len() {
        if let Some(vector) = vectors.get(k) {
            if vector.scale() == SCALE && starts.len() < 2 {
                starts.push(copy_of(alloc, vector)?);
            }
        }
    }
    Ok(starts)
}

/// The hint of a node's vectors and of the near point of its first climb. None where there was no climb.
pub(crate) fn hint_of(
    alloc: Global,
    vectors: &Vectors,
    first: Option<Climb>,
) -> Result<Option<Arc<Hint>>, AllocError> {
    let Some(climb) = first else {
        return Ok(None);
    };
    let Climb { scenario: _, near } = climb;
    let vectors = starts_of(alloc, vectors)?;
    match Arc::new(alloc, Hint { vectors, near }) {
        Ok(hint) => Ok(Some(hint)),
        Err(_) => Err(AllocError),
    }
}
