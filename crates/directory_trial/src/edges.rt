// Sizes, what is not served, and the row that spills.
use crate::maps::map;
use directory::Directory;
use full_map::FullMap;
use message::Refusal;
use pointers::{Placed, Pointers, Row, worked_example};
use std::process::Abort;
use std::test::Fail;

fn refused(records: usize, terminals: usize) -> bool {
    matches!(FullMap::new(records, terminals), Err(Refusal::Unfit))
}

#[test]
fn sizes_are_from_1_to_64(rt: HostRuntime) {
    for (records, terminals) in [(1, 64), (64, 1)] {
        assert!(rt; !refused(records, terminals));
    }
    for (records, terminals) in [(0, 1), (65, 1), (1, 0), (1, 65)] {
        assert!(rt; refused(records, terminals));
    }
}

// What any directory of 2 records and 10 terminals answers.
fn turns_away<D: Directory>(rt: &impl Abort, d: &mut D) -> Result<(), Fail> {
    assert_eq!(rt; d.add(2, 10), Err(Refusal::NoSuchRecord));
    assert_eq!(rt; d.add(1, 10), Err(Refusal::NoSuchTerminal));
    assert_eq!(rt; d.clear(2), Err(Refusal::NoSuchRecord));
    assert!(rt; !d.holds(2, 0));
    assert_eq!(rt; d.count(2), 0);
    assert_eq!(rt; d.next(2, 0), None);
    assert!(rt; !d.holds(1, 10));
    assert_eq!(rt; d.next(1, 10), None);
    assert_eq!(rt; d.add(1, 9), Ok(()));
    assert_eq!(rt; d.add(1, 9), Ok(()));
    assert_eq!(rt; d.count(1), 1);
    assert_eq!(rt; d.next(1, 0), Some(9));
    assert_eq!(rt; d.count(0), 0);
    assert_eq!(rt; d.clear(1), Ok(()));
    assert_eq!(rt; d.count(1), 0);
    Ok(())
}

#[test]
fn what_is_not_served_is_turned_away(rt: HostRuntime) -> Result<(), Fail> {
    turns_away(&rt, &mut map(2, 10)?)?;
    turns_away(&rt, &mut Pointers::new(map(2, 10)?))
}

#[test]
fn a_row_spills(rt: HostRuntime) -> Result<(), Fail> {
    let row = Row {
        numbers: [9, 64, 64, 64],
    };
    let below = Some([0, 1, 2, 3]);
    assert_eq!(rt; worked_example(), Placed { row, below });
    let mut layered = Pointers::new(map(1, 10)?);
    for t in [0, 1, 2, 3, 9] {
        assert_eq!(rt; layered.add(0, t), Ok(()));
    }
    assert_eq!(rt; layered.count(0), 5);
    assert_eq!(rt; layered.next(0, 3), Some(3));
    assert_eq!(rt; layered.next(0, 4), Some(9));
    Ok(())
}
