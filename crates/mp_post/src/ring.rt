//! Sixteen agents in a ring, each with a desk and a thread of its own.

ghost use Rattle.std.specs.Prelude.{◌≡◌, ◌≢◌, ◌≤◌, ◌<◌, All, IfOk, IfSome, length, true};
ghost use Rattle.mp_post_rule.specs.Kinds.{HoldsAll};
ghost use Rattle.mp_post_rule.specs.Queues.{IsSignable};
ghost use Rattle.mp_post_rule.specs.Table.{ArePosts};
ghost use Rattle.mp_post.specs.Desks.{HoldsParty, IsDeskOf};

use crate::halting::agent_at;
use crate::{Batch, Desk, Posts, make};
use mp_list::OutOfMemory;
use mp_messages::{Bytes, Entry};
use mp_outside::NoGate;
use mp_sets::Agent;
use std::alloc::Global;
use std::sync::Wait;
use std::test::Fail;
use std::thread::{Threads, map_vec, yield_now};

/// How many messages each agent puts to each of the next three.
const MESSAGES: u8 = 100;

/// How often an agent that has put all its messages looks for more, at most.
const LOOKS: u32 = 2_000_000;

/// An agent, and a desk that holds it.
#[derive(Drop)]
struct Seated {
    agent: Agent,
    desk: Desk,
}

/// A desk whose agent is done, and how many messages that took in order.
#[derive(Drop)]
struct Finished {
    desk: Desk,
    taken: u64,
}

/// How many messages an agent took in order from the one before it, the second and the third.
#[derive(Clone, Copy)]
struct Tally {
    first: u32,
    second: u32,
    third: u32,
}

impl Tally {
    /// Whether all were taken.
    fn is_full(self) -> bool {
        let all = u32::from(MESSAGES);
        self.first == all && self.second == all && self.third == all
    }

    /// All of them.
    fn sum(self) -> u64 {
        u64::from(self.first) + u64::from(self.second) + u64::from(self.third)
    }
}

/// The agent so many places further in the ring.
fn further(agent: Agent, places: u16) -> Agent
    requires { (1 ≤ places) × (places < 16) }
    ensures { (result ≢ agent) × (result ≤ 16) }
{
    let place = agent.number() + places;
    let number = if place > 16 { place - 16 } else { place };
    Agent::new(number).unwrap()
}

/// A batch that puts a message of one byte, where one is given, and else nothing.
fn batch_of(alloc: Global, from: Agent, to: Agent, byte: Option<u8>) -> Result<Batch, OutOfMemory>
    requires { (to ≢ from) × (to ≤ 16) }
    ensures { IfOk result (λ batch. All (IsSignable 16 from) batch) }
{
    let _ = to.number();
    let mut batch = Batch::new(alloc);
    if let Some(byte) = byte {
        let mut bytes = Bytes::new(alloc);
        bytes.push(byte)?;
        batch.push(Entry::Put { from, to, bytes })?;
    }
    Ok(batch)
}

/// The first byte of a message, if it has one.
fn first_byte(bytes: &Bytes) -> Option<u8> {
    match bytes.get(0) {
        Some(byte) => Some(*byte),
        None => None,
    }
}

/// What an agent takes from the one so many places before it, after it puts a byte, where one is given, for the one as
/// many places further. Where its turn is refused it has put nothing and takes nothing.
fn exchange<R: Wait>(
    rt: &R,
    alloc: Global,
    posts: &Posts,
    desk: &mut Desk,
    by: Agent,
    places: u16,
    byte: Option<u8>,
) -> Option<u8>
    requires posts { ArePosts posts.now.shared.table_id posts.now.shared.key × (posts.now.shared.key ≡ 16) }
    requires desk { IsDeskOf posts.now.shared.table_id posts.now.shared.key desk.old }
    requires held { HoldsParty by desk.old.view }
    requires places { (1 ≤ places) × (places < 16) }
    ensures desk { IsDeskOf posts.now.shared.table_id posts.now.shared.key desk.new }
    ensures held { HoldsParty by desk.new.view }
{
    let to = further(by, places);
    let from = further(by, 16 - places);
    match batch_of(alloc, by, to, byte) {
        Ok(batch) => match desk.turn(rt, posts, by, batch, Some(from), &NoGate) {
            Ok(Some(bytes)) => first_byte(&bytes),
            Ok(None) | Err(_) => None,
        },
        Err(_) => None,
    }
}

/// How many messages were taken in order, where one more may have come: each has their number before it as its byte.
fn more(taken: u32, byte: Option<u8>) -> u32 {
    match byte {
        Some(byte) if u32::from(byte) == taken => u32::from(byte) + 1,
        _ => taken,
    }
}

/// A turn with each of the next three and the three before: how many were taken in order from each of the latter.
fn three_turns<R: Wait>(
    rt: &R,
    alloc: Global,
    posts: &Posts,
    desk: &mut Desk,
    by: Agent,
    byte: Option<u8>,
    tally: Tally,
) -> Tally
    requires posts { ArePosts posts.now.shared.table_id posts.now.shared.key × (posts.now.shared.key ≡ 16) }
    requires desk { IsDeskOf posts.now.shared.table_id posts.now.shared.key desk.old }
    requires held { HoldsParty by desk.old.view }
    ensures desk { IsDeskOf posts.now.shared.table_id posts.now.shared.key desk.new }
    ensures held { HoldsParty by desk.new.view }
{
    let one = exchange(rt, alloc, posts, desk, by, 1, byte);
    let two = exchange(rt, alloc, posts, desk, by, 2, byte);
    let three = exchange(rt, alloc, posts, desk, by, 3, byte);
    Tally {
        first: more(tally.first, one),
        second: more(tally.second, two),
        third: more(tally.third, three),
    }
}

/// Puts all messages, and takes meanwhile what it gets.
fn put_all<R: Wait>(rt: &R, alloc: Global, posts: &Posts, desk: &mut Desk, by: Agent) -> Tally
    requires posts { ArePosts posts.now.shared.table_id posts.now.shared.key × (posts.now.shared.key ≡ 16) }
    requires desk { IsDeskOf posts.now.shared.table_id posts.now.shared.key desk.old }
    requires held { HoldsParty by desk.old.view }
    ensures desk { IsDeskOf posts.now.shared.table_id posts.now.shared.key desk.new }
    ensures held { HoldsParty by desk.new.view }
{
    let mut tally = Tally {
        first: 0,
        second: 0,
        third: 0,
    };
    for byte in 0..MESSAGES {
        tally = three_turns(rt, alloc, posts, desk, by, Some(byte), tally);
    }
    tally
}

/// Takes the other messages, as long as there are looks left.
fn take_rest<R: Wait>(
    rt: &R,
    alloc: Global,
    posts: &Posts,
    desk: &mut Desk,
    by: Agent,
    mut tally: Tally,
) -> Tally
    requires posts { ArePosts posts.now.shared.table_id posts.now.shared.key × (posts.now.shared.key ≡ 16) }
    requires desk { IsDeskOf posts.now.shared.table_id posts.now.shared.key desk.old }
    requires held { HoldsParty by desk.old.view }
    ensures desk { IsDeskOf posts.now.shared.table_id posts.now.shared.key desk.new }
{
    for _ in 0..LOOKS {
        if tally.is_full() {
            break;
        }
        tally = three_turns(rt, alloc, posts, desk, by, None, tally);
        yield_now();
    }
    tally
}

/// What the thread of an agent does.
fn served<R: Wait>(rt: &R, alloc: Global, posts: &Posts, seated: Seated) -> Finished
    requires posts { ArePosts posts.now.shared.table_id posts.now.shared.key × (posts.now.shared.key ≡ 16) }
    requires desk { IsDeskOf posts.now.shared.table_id posts.now.shared.key seated.desk }
    requires held { HoldsParty seated.agent seated.desk.view }
    ensures desk { IsDeskOf posts.now.shared.table_id posts.now.shared.key result.desk }
{
    let Seated { agent, mut desk } = seated;
    let early = put_all(rt, alloc, posts, &mut desk, agent);
    let tally = take_rest(rt, alloc, posts, &mut desk, agent, early);
    Finished {
        desk,
        taken: tally.sum(),
    }
}

/// A desk for each agent.
fn all_seated<R: Wait>(
    rt: &R,
    alloc: Global,
    posts: &Posts,
    mut first: Desk,
) -> Result<Vec<Seated>, OutOfMemory>
    requires posts { ArePosts posts.now.shared.table_id posts.now.shared.key × (posts.now.shared.key ≡ 16) }
    requires desk { IsDeskOf posts.now.shared.table_id posts.now.shared.key first }
    requires all { HoldsAll 16 first.view }
    ensures { IfOk result (λ all. All (λ seated. IsDeskOf posts.now.shared.table_id posts.now.shared.key seated.desk
        × HoldsParty seated.agent seated.desk.view) all.items) }
{
    let mut all = Vec::with_capacity(alloc, 16)?;
    let mut left = 16;
    while left > 1 {
        left -= 1;
        let agent = agent_at(left);
        let desk = first.split(rt, posts, agent)?;
        all.push(Seated { agent, desk })?;
    }
    all.push(Seated {
        agent: agent_at(0),
        desk: first,
    })?;
    Ok(all)
}

/// What the threads of all agents do.
fn all_served<R: Threads + Wait + Sync>(
    rt: &R,
    alloc: Global,
    posts: &Posts,
    all: Vec<Seated>,
) -> Result<Vec<Finished>, OutOfMemory>
    requires posts { ArePosts posts.now.shared.table_id posts.now.shared.key × (posts.now.shared.key ≡ 16) }
    requires all { All (λ seated. IsDeskOf posts.now.shared.table_id posts.now.shared.key seated.desk
        × HoldsParty seated.agent seated.desk.view) all.items }
    ensures { IfOk result (λ done. All (λ finished.
        IsDeskOf posts.now.shared.table_id posts.now.shared.key finished.desk) done.items) }
{
    let done = map_vec(
        rt,
        all,
        &|seated: Seated| -> Finished
            requires { ArePosts posts.now.shared.table_id posts.now.shared.key × (posts.now.shared.key ≡ 16)
                × IsDeskOf posts.now.shared.table_id posts.now.shared.key seated.desk
                × HoldsParty seated.agent seated.desk.view }
            ensures { IsDeskOf posts.entry.now.shared.table_id posts.entry.now.shared.key result.desk }
        { served(rt, alloc, posts, seated) },
    )?;
    Ok(done)
}

/// One desk in place of two, where there is a first one.
fn both<R: Wait>(rt: &R, posts: &Posts, first: Option<Desk>, second: Desk) -> Desk
    requires posts { ArePosts posts.now.shared.table_id posts.now.shared.key }
    requires first { IfSome first (IsDeskOf posts.now.shared.table_id posts.now.shared.key) }
    requires second { IsDeskOf posts.now.shared.table_id posts.now.shared.key second }
    ensures { IsDeskOf posts.now.shared.table_id posts.now.shared.key result }
{
    match first {
        None => second,
        Some(first) => match first.merge(rt, posts, second) {
            Ok(both) => both,
            Err(_) => unreachable!(),
        },
    }
}

/// One desk in place of all, if there are any, and how many messages were taken in order.
fn gathered<R: Wait>(rt: &R, posts: &Posts, done: Vec<Finished>) -> (Option<Desk>, u64)
    requires posts { ArePosts posts.now.shared.table_id posts.now.shared.key }
    requires done { All (λ finished. IsDeskOf posts.now.shared.table_id posts.now.shared.key finished.desk) done.items }
    ensures { IfSome result.0 (IsDeskOf posts.now.shared.table_id posts.now.shared.key) }
{
    let mut all = None;
    let mut sum: u64 = 0;
    for finished in done {
        let Finished { desk, taken } = finished;
        all = Some(both(rt, posts, all, desk));
        sum = sum.saturating_add(taken);
    }
    (all, sum)
}

/// Whether all are marked.
fn are_marked(marks: &[bool]) -> bool
    ensures { result ≡ true → All (λ mark. mark ≡ true) marks.now }
{
    for place in 0..marks.len() {
        if !marks[place] {
            return false;
        }
    }
    true
}

/// Whether a desk holds all agents.
fn holds_all(desk: &Desk) -> bool
    ensures { result ≡ true → HoldsAll (length desk.now.view.parties) desk.now.view }
{
    are_marked(desk.held.as_slice())
}

/// How many entries the log has in the end, where the desk holds all agents.
fn ended(posts: Posts, desk: Desk) -> Option<usize>
    requires posts { ArePosts posts.shared.table_id posts.shared.key }
    requires desk { IsDeskOf posts.shared.table_id posts.shared.key desk }
{
    if !holds_all(&desk) {
        return None;
    }
    match desk.into_log(&posts) {
        Ok(log) => Some(log.len()),
        Err(_) => None,
    }
}

/// How many messages were taken in order by threads, and how many entries the log has in the end.
fn by_threads<R: Threads + Wait + Sync>(
    rt: &R,
    alloc: Global,
) -> Result<(u64, Option<usize>), OutOfMemory> {
    let (posts, first) = make(alloc, 16)?;
    let all = all_seated(rt, alloc, &posts, first)?;
    let done = all_served(rt, alloc, &posts, all)?;
    let (desk, taken) = gathered(rt, &posts, done);
    match desk {
        Some(desk) => Ok((taken, ended(posts, desk))),
        None => Ok((taken, None)),
    }
}

#[test]
fn sixteen_agents(rt: HostRuntime) -> Result<(), Fail> {
    let (taken, entries) = by_threads(&rt, rt.alloc())?;
    assert!(rt; taken == 4800 && entries == Some(9600));
    Ok(())
}
