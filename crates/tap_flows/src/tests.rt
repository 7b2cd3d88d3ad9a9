ghost use Rattle.tap_flows.specs.FlowList.{AreNotAfter};

use super::*;
use std::alloc::AllocError;
use std::process::Abort;
use std::test::Fail;

// A flow stays while it is younger than the age: for 2,999 milliseconds, and not for 3,000.
#[test]
fn ages(rt: HostRuntime) -> Result<(), Fail> {
    let mut flows = Flows::new(rt.alloc(), DEFAULT_LIMIT, DEFAULT_AGE)?;
    assert!(rt; flows.is_empty());
    assert_eq!(rt; flows.learn(7, 3, 1000), Learnt::Made);
    flows.tick(3999);
    assert_eq!(rt; flows.find(7), Some(3));
    flows.tick(4000);
    assert_eq!(rt; flows.find(7), None);
    assert!(rt; flows.is_empty());
    Ok(())
}

// With as many flows as the limit a new one changes nothing, and one that is there is renewed.
#[test]
fn fills(rt: HostRuntime) -> Result<(), Fail> {
    let mut flows = Flows::new(rt.alloc(), DEFAULT_LIMIT, DEFAULT_AGE)?;
    for hash in 0..DEFAULT_LIMIT {
        assert_eq!(rt; flows.learn(hash, 1, 0), Learnt::Made);
    }
    assert_eq!(rt; flows.learn(DEFAULT_LIMIT, 1, 0), Learnt::Full);
    assert_eq!(rt;
        (flows.find(DEFAULT_LIMIT), flows.find(0), flows.len()),
        (None, Some(1), 4096)
    );
    assert_eq!(rt; flows.learn(0, 2, 0), Learnt::Renewed);
    assert_eq!(rt; flows.find(0), Some(2));
    flows.forget(1);
    assert_eq!(rt;
        (flows.len(), flows.find(1), flows.find(0)),
        (1, None, Some(2))
    );
    Ok(())
}

// A limit of two and an age of a second.
#[test]
fn keeps_two(rt: HostRuntime) -> Result<(), Fail> {
    let mut flows = Flows::new(rt.alloc(), 2, 1000)?;
    assert_eq!(rt; flows.learn(7, 1, 0), Learnt::Made);
    assert_eq!(rt; flows.learn(8, 1, 0), Learnt::Made);
    assert_eq!(rt; flows.learn(9, 1, 0), Learnt::Full);
    flows.tick(999);
    assert_eq!(rt; flows.len(), 2);
    flows.tick(1000);
    assert_eq!(rt; flows.len(), 0);
    Ok(())
}

// A flow as the list of entries beside the flows keeps it.
#[derive(Drop)]
struct Listed {
    hash: u32,
    index: u16,
    updated: u64,
}

// How many entries the list may have, and after how many milliseconds one goes.
#[derive(Clone, Copy)]
struct Bounds {
    limit: u32,
    age: u64,
}

// The linear congruential generator x * 1664525 + 1013904223 mod 2^32.
fn draw(seed: u32) -> u32 {
    seed.wrapping_mul(1_664_525).wrapping_add(1_013_904_223)
}

fn learn_listed(
    listed: &mut Vec<Listed>,
    limit: u32,
    hash: u32,
    index: u16,
    now: u64,
) -> Result<Learnt, AllocError> {
    for entry in listed.iter_mut() {
        if entry.hash == hash {
            entry.index = index;
            entry.updated = now;
            return Ok(Learnt::Renewed);
        }
    }
    if listed.len() == limit as usize {
        return Ok(Learnt::Full);
    }
    listed.push(Listed {
        hash,
        index,
        updated: now,
    })?;
    Ok(Learnt::Made)
}

// One call on both. Hashes are few and collide in their buckets.
fn call(
    rt: &impl Abort,
    flows: &mut Flows,
    listed: &mut Vec<Listed>,
    bounds: Bounds,
    seed: u32,
    now: u64,
) -> Result<(), AllocError>
    requires { AreNotAfter now flows.old.flows }
    ensures { AreNotAfter now flows.new.flows }
{
    let hash = (seed >> 8) % 96 * 512;
    let index = (seed >> 16) as u16 % 8;
    match seed >> 28 {
        0 => {
            flows.forget(index);
            listed.retain(|entry| entry.index != index);
        }
        1..=3 => {
            flows.tick(now);
            listed.retain(|entry| entry.updated.saturating_add(bounds.age) > now);
        }
        _ => {
            let learnt = learn_listed(listed, bounds.limit, hash, index, now)?;
            assert_eq!(rt; flows.learn(hash, index, now), learnt);
        }
    }
    Ok(())
}

// The flows are those of the list.
fn agree(rt: &impl Abort, flows: &Flows, listed: &[Listed]) {
    assert_eq!(rt; flows.len(), listed.len());
    for entry in listed {
        assert_eq!(rt; flows.find(entry.hash), Some(entry.index));
    }
}

// Makes 10,000 calls on both, and answers how many flows there were at most.
fn most_of(
    rt: &impl Abort,
    mut flows: Flows,
    mut listed: Vec<Listed>,
    bounds: Bounds,
) -> Result<usize, AllocError>
    requires { AreNotAfter 0 flows.flows }
{
    let mut seed = 1;
    let mut now: u64 = 0;
    let mut most = 0;
    for _ in 0..10_000 {
        seed = draw(seed);
        now = now.saturating_add(u64::from(seed >> 24));
        call(rt, &mut flows, &mut listed, bounds, seed, now)?;
        agree(rt, &flows, listed.as_slice());
        most = listed.len().max(most);
    }
    Ok(most)
}

#[test]
fn agrees_with_a_list(rt: HostRuntime) -> Result<(), Fail> {
    let flows = Flows::new(rt.alloc(), DEFAULT_LIMIT, DEFAULT_AGE)?;
    let bounds = Bounds {
        limit: DEFAULT_LIMIT,
        age: DEFAULT_AGE,
    };
    assert!(rt; most_of(&rt, flows, Vec::new(rt.alloc()), bounds)? > 20);
    let flows = Flows::new(rt.alloc(), 16, 1500)?;
    let bounds = Bounds {
        limit: 16,
        age: 1500,
    };
    assert_eq!(rt; most_of(&rt, flows, Vec::new(rt.alloc()), bounds)?, 16);
    Ok(())
}
