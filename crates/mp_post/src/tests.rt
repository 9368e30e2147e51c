//! Posts of three agents, gone through by hand.

ghost use Rattle.std.specs.Prelude.{◌≡◌, ◌≢◌, ◌≤◌, All, IfOk, IfSome};
ghost use Rattle.mp_post_rule.specs.Kinds.{HoldsAll};
ghost use Rattle.mp_post_rule.specs.Queues.{IsSignable};
ghost use Rattle.mp_post_rule.specs.Table.{ArePosts};
ghost use Rattle.mp_post.specs.Desks.{HoldsParty, IsDeskOf};

use crate::{Batch, Desk, Posts, make};
use mp_list::OutOfMemory;
use mp_messages::{Bytes, Entry};
use mp_outside::NoGate;
use mp_sets::Agent;
use std::alloc::Global;
use std::sync::Wait;
use std::test::Fail;

/// A message of one byte.
fn message(alloc: Global, from: Agent, to: Agent, byte: u8) -> Result<Batch, OutOfMemory>
    requires { (to ≢ from) × (to ≤ 3) }
    ensures { IfOk result (λ batch. All (IsSignable 3 from) batch) }
{
    let _ = to.number();
    let mut bytes = Bytes::new(alloc);
    bytes.push(byte)?;
    let mut batch = Batch::new(alloc);
    batch.push(Entry::Put { from, to, bytes })?;
    Ok(batch)
}

/// The byte that is handed over, 0 where none is.
fn byte_of(handed: Option<Bytes>) -> u8 {
    match handed {
        Some(bytes) => match bytes.get(0) {
            Some(byte) => *byte,
            None => 0,
        },
        None => 0,
    }
}

/// What an agent takes from another after it puts a byte for one: 0 where nothing waits, 100 where the turn is refused.
fn turn<R: Wait>(
    rt: &R,
    alloc: Global,
    posts: &Posts,
    desk: &mut Desk,
    by: Agent,
    put: (Agent, u8),
    from: Agent,
) -> Result<u8, OutOfMemory>
    requires posts { ArePosts posts.now.shared.table_id posts.now.shared.key × (posts.now.shared.key ≡ 3) }
    requires desk { IsDeskOf posts.now.shared.table_id posts.now.shared.key desk.old }
    requires held { HoldsParty by desk.old.view }
    requires to { (put.0 ≢ by) × (put.0 ≤ 3) }
    requires from { (from ≢ by) × (from ≤ 3) }
    ensures desk { IsDeskOf posts.now.shared.table_id posts.now.shared.key desk.new }
    ensures held { HoldsParty by desk.new.view }
{
    let batch = message(alloc, by, put.0, put.1)?;
    match desk.turn(rt, posts, by, batch, Some(from), &NoGate) {
        Ok(handed) => Ok(byte_of(handed)),
        Err(_) => Ok(100),
    }
}

/// What three agents take from each other, one after another, each by its own desk.
fn exchanged<R: Wait>(
    rt: &R,
    alloc: Global,
    posts: &Posts,
    first: &mut Desk,
    second: &mut Desk,
    third: &mut Desk,
    one: Agent,
    two: Agent,
    three: Agent,
) -> Result<[u8; 6], OutOfMemory>
    requires posts { ArePosts posts.now.shared.table_id posts.now.shared.key × (posts.now.shared.key ≡ 3) }
    requires agents { (one ≡ 1) × (two ≡ 2) × (three ≡ 3) }
    requires first { IsDeskOf posts.now.shared.table_id posts.now.shared.key first.old × HoldsParty one first.old.view }
    requires second { IsDeskOf posts.now.shared.table_id posts.now.shared.key second.old × HoldsParty two second.old.view }
    requires third { IsDeskOf posts.now.shared.table_id posts.now.shared.key third.old × HoldsParty three third.old.view }
    ensures first { IsDeskOf posts.now.shared.table_id posts.now.shared.key first.new × HoldsParty one first.new.view }
    ensures second { IsDeskOf posts.now.shared.table_id posts.now.shared.key second.new × HoldsParty two second.new.view }
    ensures third { IsDeskOf posts.now.shared.table_id posts.now.shared.key third.new × HoldsParty three third.new.view }
{
    let to_two = turn(rt, alloc, posts, first, one, (two, 7), two)?;
    let to_three = turn(rt, alloc, posts, first, one, (three, 8), two)?;
    let oldest = turn(rt, alloc, posts, second, two, (three, 9), one)?;
    let none = turn(rt, alloc, posts, second, two, (one, 6), one)?;
    let of_one = turn(rt, alloc, posts, third, three, (one, 5), one)?;
    let of_two = turn(rt, alloc, posts, third, three, (one, 4), two)?;
    Ok([to_two, to_three, oldest, none, of_one, of_two])
}

/// One desk with the parties of all three.
fn merged<R: Wait>(rt: &R, posts: &Posts, first: Desk, second: Desk, third: Desk) -> Option<Desk>
    requires posts { ArePosts posts.now.shared.table_id posts.now.shared.key × (posts.now.shared.key ≡ 3) }
    requires first { IsDeskOf posts.now.shared.table_id posts.now.shared.key first × HoldsParty 1 first.view }
    requires second { IsDeskOf posts.now.shared.table_id posts.now.shared.key second × HoldsParty 2 second.view }
    requires third { IsDeskOf posts.now.shared.table_id posts.now.shared.key third × HoldsParty 3 third.view }
    ensures desk { IfSome result (IsDeskOf posts.now.shared.table_id posts.now.shared.key) }
    ensures all { IfSome result (λ desk. HoldsAll 3 desk.view) }
{
    match first.merge(rt, posts, second) {
        Ok(both) => match both.merge(rt, posts, third) {
            Ok(all) => Some(all),
            Err(_) => None,
        },
        Err(_) => None,
    }
}

/// How many entries the log has in the end.
fn closed(posts: Posts, desk: Desk) -> Option<usize>
    requires posts { ArePosts posts.shared.table_id posts.shared.key }
    requires desk { IsDeskOf posts.shared.table_id posts.shared.key desk }
    requires all { HoldsAll posts.shared.key desk.view }
{
    match desk.close(posts) {
        Ok((log, _)) => Some(log.len()),
        Err(_) => None,
    }
}

/// A table of three agents, from its beginning to its end: what was handed over, what an agent was told after another was
/// halted, and how many entries there were.
fn by_hand<R: Wait>(
    rt: &R,
    alloc: Global,
    one: Agent,
    two: Agent,
    three: Agent,
) -> Result<([u8; 6], u8, Option<usize>), OutOfMemory>
    requires { (one ≡ 1) × (two ≡ 2) × (three ≡ 3) }
{
    let (posts, mut first) = make(alloc, 3)?;
    let mut second = first.split(rt, &posts, two)?;
    let mut third = first.split(rt, &posts, three)?;
    let handed = exchanged(
        rt,
        alloc,
        &posts,
        &mut first,
        &mut second,
        &mut third,
        one,
        two,
        three,
    )?;
    second.halt(rt, &posts, two);
    let refused = turn(rt, alloc, &posts, &mut first, one, (two, 3), three)?;
    let Some(desk) = merged(rt, &posts, first, second, third) else {
        return Ok((handed, refused, None));
    };
    Ok((handed, refused, closed(posts, desk)))
}

#[test]
fn three_agents(rt: HostRuntime) -> Result<(), Fail> {
    let one = Agent::new(1).ok_or("agent 1")?;
    let two = Agent::new(2).ok_or("agent 2")?;
    let three = Agent::new(3).ok_or("agent 3")?;
    let (handed, refused, entries) = by_hand(&rt, rt.alloc(), one, two, three)?;
    assert!(rt; handed == [0, 0, 7, 0, 8, 9] && refused == 100 && entries == Some(9));
    Ok(())
}
