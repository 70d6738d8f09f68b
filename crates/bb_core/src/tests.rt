use super::*;
use certs::{Cert, Level, Levels, Steps, Vectors, Verdict, Verdicts};
use int_model::{NearPoint, PointBox};
use live_sets::LiveSet;
use std::sync::Arc;
use std::test::Fail;

#[test]
fn cuts_keep_their_items(rt: HostRuntime) -> Result<(), Fail> {
    let cuts = Cuts::from_vec(vec![in rt.alloc(); Some(-7), None]?);
    assert_eq!(rt; cuts.len(), 2);
    assert_eq!(rt; cuts.get(0).copied(), Some(Some(-7)));
    assert_eq!(rt; cuts.get(2).copied(), None);
    assert_eq!(rt; cuts.as_slice(), [Some(-7), None].as_slice());
    Ok(())
}

#[test]
fn settlements_share_boxes_and_hints(rt: HostRuntime) -> Result<(), Fail> {
    let bounds = Arc::new(rt.alloc(), PointBox::from_ends(rt.alloc(), &[0], &[1])?)?;
    let levels = Arc::new(
        rt.alloc(),
        Levels::from_vec(vec![in rt.alloc(); Level::Inf]?),
    )?;
    let hint = Arc::new(
        rt.alloc(),
        Hint {
            vectors: Vectors::new(rt.alloc()),
            near: NearPoint::from_vec(vec![in rt.alloc(); 0]?),
        },
    )?;
    let work = Work {
        node: 0,
        bounds: Arc::try_clone(&bounds)?,
        live: LiveSet::full(1),
        levels: Arc::try_clone(&levels)?,
        hint: Some(Arc::try_clone(&hint)?),
        cuts: Cuts::from_vec(Vec::new(rt.alloc())),
    };
    let settlement = Settlement {
        work,
        cert: Cert {
            steps: Steps::from_vec(Vec::new(rt.alloc())),
            vectors: Vectors::new(rt.alloc()),
        },
        verdicts: Verdicts::from_vec(vec![in rt.alloc(); Verdict::Empty]?),
        outcome: Outcome::Close,
    };
    assert_eq!(rt; settlement.work.bounds.highs(), [1].as_slice());
    assert!(rt; settlement.work.hint.is_some());
    assert!(rt; matches!(settlement.outcome, Outcome::Close));
    Ok(())
}
