//! Boxes that are out of Rust's hands for a while.

use raw_box::RawBox;
use std::test::Fail;

#[test]
fn a_number_comes_back(rt: HostRuntime) -> Result<(), Fail> {
    for value in [0, 1, u64::MAX] {
        let raw = RawBox::of(Box::new(rt.alloc(), value)?);
        let back = raw.into_box(rt.alloc());
        assert_eq!(rt; *back, value);
    }
    Ok(())
}

#[test]
fn a_list_comes_back_with_its_own_memory(rt: HostRuntime) -> Result<(), Fail> {
    let raw = RawBox::of(Box::new(rt.alloc(), vec![in rt.alloc(); 1, 2, 3]?)?);
    let mut back = raw.into_box(rt.alloc());
    back.push(4)?;
    assert_eq!(rt; back.as_slice(), [1, 2, 3, 4].as_slice());
    Ok(())
}

#[test]
fn two_boxes_stand_apart(rt: HostRuntime) -> Result<(), Fail> {
    let first = Box::new(rt.alloc(), 1)?;
    let second = Box::new(rt.alloc(), 2)?;
    let (first, second) = (RawBox::of(first), RawBox::of(second));
    drop(first.into_box(rt.alloc()));
    assert_eq!(rt; *second.into_box(rt.alloc()), 2);
    Ok(())
}
