//! The stages without boxes: the racks of a run of them, and each stage of one by the rows of those in boxes.

use crate::stages::{ROWS, Row, is_right, tables};
use feed_stages::{Stage, stage_racks};
use pcm_feeder::{RackFault, SevenOf, Spec, Tables};
use std::alloc::Global;
use std::test::Fail;

// Whether the stage of a row's kind moves what the row says.
fn is_right_among(seven: &mut SevenOf<Stage>, tables: &Tables, row: &Row) -> bool {
    match row.0 {
        Spec::Matrix { .. } => is_right(&mut seven.matrix, tables, row),
        Spec::Hold { .. } => is_right(&mut seven.hold, tables, row),
        Spec::Linear { .. } => is_right(&mut seven.linear, tables, row),
        Spec::Poly { .. } => is_right(&mut seven.poly, tables, row),
        Spec::Volume { .. } => is_right(&mut seven.volume, tables, row),
        Spec::Depth { .. } => is_right(&mut seven.depth, tables, row),
        Spec::Eq { .. } => is_right(&mut seven.eq, tables, row),
    }
}

// The first row that a stage of the last rack moves otherwise.
fn first_wrong(alloc: Global) -> Result<Option<usize>, RackFault> {
    let tables = tables(alloc)?;
    let mut racks = stage_racks(alloc)?.into_list();
    let Some(rack) = racks.pop() else {
        return Ok(Some(0));
    };
    let mut seven = rack.into_boxes();
    for (at, row) in ROWS.iter().enumerate() {
        if !is_right_among(&mut seven, &tables, row) {
            return Ok(Some(at));
        }
    }
    Ok(None)
}

// How many racks there are.
fn count(alloc: Global) -> Result<usize, RackFault> {
    Ok(stage_racks(alloc)?.into_list().len())
}

#[test]
fn unboxed_stages(rt: HostRuntime) -> Result<(), Fail> {
    assert_eq!(rt; first_wrong(rt.alloc()), Ok(None));
    Ok(())
}

#[test]
fn unboxed_racks(rt: HostRuntime) -> Result<(), Fail> {
    assert_eq!(rt; count(rt.alloc()), Ok(33));
    Ok(())
}
