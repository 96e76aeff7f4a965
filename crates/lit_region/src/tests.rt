ghost use Rattle.std.specs.Prelude.{◌<◌, length};
ghost use Rattle.lit_region.specs.Contents.{AreInOrder};

use crate::{Ref, Region};
use std::alloc::Global;
use std::test::Fail;
use zo_core::{Lit, Var};

#[test]
fn compacts(rt: HostRuntime) -> Result<(), Fail> {
    let mut region = Region::reserve(rt.alloc(), 8)?;
    let first = region.put(&[Lit(1), Lit(2), Lit(-3)]).expect(&rt, "room");
    assert!(&rt; region.put(&[Lit(4), Lit(5)]).is_some());
    let third = region.put(&[Lit(-6), Lit(7), Lit(8)]).expect(&rt, "room");
    assert!(&rt; region.put(&[Lit(9)]).is_none());
    let mut live = [first, third];
    region.compact(&mut live);
    assert!(&rt; region.free_words() == 2);
    assert!(&rt; region.get(live[0]) == [Lit(1), Lit(2), Lit(-3)].as_slice());
    assert!(&rt; region.get(live[1]) == [Lit(-6), Lit(7), Lit(8)].as_slice());
    Ok(())
}

#[test]
fn releases(rt: HostRuntime) -> Result<(), Fail> {
    let lits = [
        Lit(1),
        Lit(2),
        Lit(3),
        Lit(4),
        Lit(5),
        Lit(6),
        Lit(7),
        Lit(8),
    ];
    let mut region = Region::reserve(rt.alloc(), 8)?;
    let start = region.mark();
    assert!(&rt; region.put(&lits).is_some());
    assert!(&rt; region.put(&lits[..1]).is_none());
    region.release(start);
    assert!(&rt; region.put(&lits[..3]).is_some());
    let middle = region.mark();
    assert!(&rt; region.put(&lits[..4]).is_some());
    let end = region.mark();
    region.release(end);
    assert!(&rt; region.free_words() == 1);
    region.release(middle);
    assert!(&rt; region.free_words() == 5);
    region.release(start);
    assert!(&rt; region.free_words() == 8);
    Ok(())
}

#[test]
fn no_words(rt: HostRuntime) -> Result<(), Fail> {
    let mut region = Region::reserve(rt.alloc(), 0)?;
    let at = region.put(&[]).expect(&rt, "no words are needed");
    assert!(&rt; region.put(&[Lit(1)]).is_none());
    assert!(&rt; region.get(at).is_empty());
    Ok(())
}

/// The two literals of a clause: positive ones in the first, third and fifth, negative ones in the others.
fn pair(number: u32) -> [Lit; 2]
    requires { number < 5 }
{
    let sign = number % 2 == 0;
    [
        Var(2 * number + 1).literal(sign),
        Var(2 * number + 2).literal(sign),
    ]
}

fn is_chosen(subset: u32, number: u32) -> bool
    requires { number < 5 }
{
    (subset >> number) % 2 == 1
}

/// What the references of a subset of five clauses read after all others are compacted away.
#[tactic(auto, using(crate::proofs::Order::in_order_push, crate::proofs::Order::in_order_more))]
fn kept(alloc: Global, subset: u32) -> Result<Vec<i32>, Fail> {
    let mut region = Region::reserve(alloc, 10)?;
    let mut live = Vec::new(alloc);
    for number in 0..5u32 {
        let Some(at) = region.put(&pair(number)) else {
            return Err(Fail::from("no room"));
        };
        if is_chosen(subset, number) {
            live.push(at)?;
        }
    }
    region.compact(live.as_mut_slice());
    read(alloc, &region, live.as_slice())
}

/// The numbers of the literals that the references read.
#[tactic(auto, using(crate::proofs::Order::in_order_at))]
fn read(alloc: Global, region: &Region, live: &[Ref]) -> Result<Vec<i32>, Fail>
    requires { AreInOrder 0 (length region.now.clauses) live.now }
{
    let mut numbers = Vec::new(alloc);
    for at in live {
        for lit in region.get(*at) {
            numbers.push(lit.0)?;
        }
    }
    Ok(numbers)
}

#[test]
fn compacts_to_every_subset(rt: HostRuntime) -> Result<(), Fail> {
    let all = [[1, 2], [-3, -4], [5, 6], [-7, -8], [9, 10]];
    for subset in 0..32u32 {
        let mut expected = Vec::new(rt.alloc());
        for number in 0..5u32 {
            if is_chosen(subset, number) {
                expected.extend_from_slice(all[number as usize].as_slice())?;
            }
        }
        let found = kept(rt.alloc(), subset)?;
        assert!(&rt; found.as_slice() == expected.as_slice());
    }
    Ok(())
}
