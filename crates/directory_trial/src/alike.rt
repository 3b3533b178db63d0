// The same calls, random to look at, on a full map and on pointers over a full map.
use crate::maps::map;
use directory::Directory;
use message::code_of;
use pointers::Pointers;
use std::test::Fail;

// The next of a row of numbers, by a linear congruence.
fn following(seed: u64) -> u64 {
    seed.wrapping_mul(6364136223846793005)
        .wrapping_add(1442695040888963407)
}

// The call that a number stands for, and its answer as a number. Some records and terminals are not served.
fn answer<D: Directory>(d: &mut D, call: u64) -> u64 {
    let r = (call / 64 % 5) as usize;
    let t = (call / 512 % 66) as usize;
    match call % 64 {
        0 => u64::from(code_of(&d.clear(r))),
        1..=10 => u64::from(d.holds(r, t)),
        11..=20 => d.count(r) as u64,
        21..=30 => d.next(r, t).map_or(64, |u| u as u64),
        _ => u64::from(code_of(&d.add(r, t))),
    }
}

#[test]
fn both_makes_answer_alike(rt: HostRuntime) -> Result<(), Fail> {
    let mut full = map(4, 64)?;
    let mut layered = Pointers::new(map(4, 64)?);
    let mut seed = 1;
    for _ in 0..2000 {
        seed = following(seed);
        let call = seed >> 32;
        assert_eq!(rt; answer(&mut full, call), answer(&mut layered, call));
    }
    Ok(())
}

#[test]
fn both_makes_end_with_the_same_holders(rt: HostRuntime) -> Result<(), Fail> {
    let mut full = map(4, 64)?;
    let mut layered = Pointers::new(map(4, 64)?);
    let mut seed = 2;
    for _ in 0..200 {
        seed = following(seed);
        let call = seed >> 32;
        let _ = answer(&mut full, call);
        let _ = answer(&mut layered, call);
    }
    for r in 0..5 {
        assert_eq!(rt; full.count(r), layered.count(r));
        for t in 0..66 {
            assert_eq!(rt; full.holds(r, t), layered.holds(r, t));
            assert_eq!(rt; full.next(r, t), layered.next(r, t));
        }
    }
    assert!(rt; full.count(0) > 4);
    Ok(())
}
