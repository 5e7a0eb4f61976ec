//! Actors that make, read and write objects of a farm, in one thread and in several.
ghost use Rattle.std.specs.Prelude.{◌≡◌, IfOk};
ghost use Rattle.farm_commit.specs.Farms.{IsActorOf, IsOpenOf};

use crate::{Actor, Commit, Farm, Open};
use a1_base::{Addr, Bin, Memory, push_u64, u64_at};
use std::alloc::Global;
use std::sync::Wait;
use std::test::Fail;
use std::thread::join;

// A farm of three nodes without objects, and its two actors.
fn farm_of_two(alloc: Global) -> Result<(Farm, Actor, Actor), Fail>
    ensures actors { IfOk result (λ r. IsActorOf r.0 r.1 × IsActorOf r.0 r.2) }
    ensures nodes { IfOk result (λ r. r.0.nodes ≡ 3) }
{
    let (farm, mut actors) = Farm::new(alloc, Vec::new(alloc), 1, 3, 2)?;
    let first = actors.pop().ok_or("the first actor")?;
    let second = actors.pop().ok_or("the second actor")?;
    Ok((farm, first, second))
}

// A number as the bytes of an object.
fn object_of(alloc: Global, number: u64) -> Result<Bin, Memory> {
    let mut bytes = Bin::new(alloc);
    push_u64(&mut bytes, number)?;
    Ok(bytes)
}

// Makes an object of this number in a transaction of its own.
fn make<R: Wait>(
    rt: &R,
    alloc: Global,
    farm: &Farm,
    actor: Actor,
    number: u64,
) -> Result<(Actor, Addr, Commit), Fail>
    requires actor { IsActorOf farm.now actor }
    requires nodes { farm.now.nodes ≡ 3 }
    ensures { IfOk result (λ r. IsActorOf farm.now r.0) }
{
    let mut txn = farm.begin(rt, actor);
    let bytes = object_of(alloc, number)?;
    let Ok(at) = farm.alloc(rt, alloc, &mut txn, 1, bytes) else {
        return Err("a place".into());
    };
    let (actor, answer) = farm.commit(rt, txn);
    Ok((actor, at, answer))
}

// The number that is read.
fn number_at<R: Wait>(
    rt: &R,
    alloc: Global,
    farm: &Farm,
    txn: &mut Open,
    at: Addr,
) -> Result<Option<u64>, Memory>
    requires { IsOpenOf farm.now txn.old }
    ensures { IsOpenOf farm.now txn.new }
{
    let found = farm.read(rt, alloc, txn, at)?;
    let Some(bytes) = found.value else {
        return Ok(None);
    };
    Ok(u64_at(bytes.as_slice(), 0))
}

// Adds to a number, where one is there, and answers it as it was.
fn add_to<R: Wait>(
    rt: &R,
    alloc: Global,
    farm: &Farm,
    txn: &mut Open,
    at: Addr,
    more: u64,
) -> Result<Option<u64>, Memory>
    requires { IsOpenOf farm.now txn.old }
    ensures { IsOpenOf farm.now txn.new }
{
    let found = farm.read(rt, alloc, txn, at)?;
    let Some(bytes) = found.value else {
        return Ok(None);
    };
    let Some(number) = u64_at(bytes.as_slice(), 0) else {
        return Ok(None);
    };
    farm.write(txn, at, Some(object_of(alloc, number.wrapping_add(more))?))?;
    Ok(Some(number))
}

#[test]
fn one_reads_what_another_made(rt: HostRuntime) -> Result<(), Fail> {
    let alloc = rt.alloc();
    let (farm, first, second) = farm_of_two(alloc)?;
    let (_, at, answer) = make(&rt, alloc, &farm, first, 7)?;
    assert_eq!(rt; answer, Commit::Done { stamp: 2 });
    assert_eq!(rt;
        at,
        Addr {
            region: 1,
            offset: 0
        }
    );
    let mut txn = farm.begin(&rt, second);
    assert_eq!(rt; number_at(&rt, alloc, &farm, &mut txn, at)?, Some(7));
    assert_eq!(rt; add_to(&rt, alloc, &farm, &mut txn, at, 5)?, Some(7));
    assert_eq!(rt; number_at(&rt, alloc, &farm, &mut txn, at)?, Some(12));
    let (second, answer) = farm.commit(&rt, txn);
    assert_eq!(rt; answer, Commit::Done { stamp: 3 });
    let mut txn = farm.begin(&rt, second);
    assert_eq!(rt; number_at(&rt, alloc, &farm, &mut txn, at)?, Some(12));
    farm.end(&rt, txn);
    Ok(())
}

#[test]
fn the_later_of_two_writers_is_told(rt: HostRuntime) -> Result<(), Fail> {
    let alloc = rt.alloc();
    let (farm, first, second) = farm_of_two(alloc)?;
    let (first, at, _) = make(&rt, alloc, &farm, first, 7)?;
    let mut early = farm.begin(&rt, first);
    let mut late = farm.begin(&rt, second);
    assert_eq!(rt; add_to(&rt, alloc, &farm, &mut early, at, 1)?, Some(7));
    assert_eq!(rt; add_to(&rt, alloc, &farm, &mut late, at, 1)?, Some(7));
    let (_, answer) = farm.commit(&rt, early);
    assert_eq!(rt; answer, Commit::Done { stamp: 3 });
    let (_, answer) = farm.commit(&rt, late);
    let changed = Commit::Changed {
        object: at,
        seen: 2,
        now: 3,
    };
    assert_eq!(rt; answer, changed);
    Ok(())
}

// Adds one to a number over and over, and answers how often it was done.
fn add_often<R: Wait>(
    rt: &R,
    alloc: Global,
    farm: &Farm,
    actor: Actor,
    at: Addr,
    times: u32,
) -> Result<(Actor, u64), Memory>
    requires { IsActorOf farm.now actor }
    ensures { IfOk result (λ r. IsActorOf farm.now r.0) }
{
    let mut whose = actor;
    let mut dones: u64 = 0;
    for _ in 0..times {
        let mut txn = farm.begin(rt, whose);
        add_to(rt, alloc, farm, &mut txn, at, 1)?;
        let (left, answer) = farm.commit(rt, txn);
        whose = left;
        if let Commit::Done { .. } = answer {
            dones = dones.wrapping_add(1);
        }
    }
    Ok((whose, dones))
}

#[test]
fn no_addition_of_two_threads_is_lost(rt: HostRuntime) -> Result<(), Fail> {
    let alloc = rt.alloc();
    let (farm, first, second) = farm_of_two(alloc)?;
    let (first, at, _) = make(&rt, alloc, &farm, first, 0)?;
    let (one, two) = join(
        &rt,
        || -> Result<(Actor, u64), Memory>
            requires { IsActorOf farm first }
            ensures { IfOk result (λ r. IsActorOf farm r.0) }
        { add_often(&rt, alloc, &farm, first, at, 2_000) },
        || -> Result<(Actor, u64), Memory>
            requires { IsActorOf farm second }
            ensures { IfOk result (λ r. IsActorOf farm r.0) }
        { add_often(&rt, alloc, &farm, second, at, 2_000) },
    );
    let (first, ones) = one?;
    let (_, twos) = two?;
    let mut txn = farm.begin(&rt, first);
    let sum = number_at(&rt, alloc, &farm, &mut txn, at)?;
    assert_eq!(rt; sum, Some(ones.wrapping_add(twos)));
    assert!(rt; ones > 0 || twos > 0);
    farm.end(&rt, txn);
    Ok(())
}
