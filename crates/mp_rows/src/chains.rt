//! The rows of a bucket, from the last one on: each leads to the one before it.

ghost use Rattle.std.specs.Prelude.{◌≡◌, ◌≤◌, ◌+◌, ◌*◌, ◌-◌, ◌<◌, ◌^◌, ℕ, IfOk, OnErr, OnOk, length, take, All};
ghost use Rattle.mp_rows.specs.Chains.{link_at, places, AreChained};

use crate::hashes::bucket_of;
use mp_list::{OutOfMemory, to_u32};
use std::alloc::Global;

/// Where a row stands, its hash, and which row of its bucket came before it.
#[derive(Clone, Copy)]
pub(crate) struct Link {
    /// The hash of the row.
    pub(crate) hash: u32,
    /// One more than the number of the last row before it in its bucket, or 0 where there is none.
    pub(crate) before: u32,
    /// Where the row begins among the words of all rows.
    pub(crate) start: u32,
    /// Where it ends there.
    pub(crate) end: u32,
}

/// Puts the row of a number into its bucket, where it leads to those before it.
pub(crate) fn chain(heads: &mut Vec<u32>, links: &mut Vec<Link>, number: usize)
    requires some { 0 < length heads.old.items }
    requires few { length heads.old.items < 2 ^ 32 }
    requires inside { number < length links.old.items }
    requires small { number + 1 < 2 ^ 32 }
    requires chained { AreChained heads.old.items links.old.items number }
    ensures chained { AreChained heads.new.items links.new.items (number + 1) }
    ensures heads { length heads.new.items ≡ length heads.old.items }
    ensures links { length links.new.items ≡ length links.old.items }
    ensures places { places links.new.items ≡ places links.old.items }
{
    let bucket = bucket_of(links[number].hash, heads.len());
    links[number].before = heads[bucket];
    heads[bucket] = number as u32 + 1;
}

/// Takes the last row out of its bucket.
pub(crate) fn unchain(heads: &mut Vec<u32>, links: &Vec<Link>, number: usize)
    requires some { 0 < length heads.old.items }
    requires few { length heads.old.items < 2 ^ 32 }
    requires last { number + 1 ≡ length links.now.items }
    requires chained { AreChained heads.old.items links.now.items (number + 1) }
    ensures chained { AreChained heads.new.items links.now.items number }
    ensures heads { length heads.new.items ≡ length heads.old.items }
{
    let link = links[number];
    let bucket = bucket_of(link.hash, heads.len());
    heads[bucket] = link.before;
}

/// Puts all rows into their buckets, which are empty.
fn chain_all(heads: &mut Vec<u32>, links: &mut Vec<Link>)
    requires some { 0 < length heads.old.items }
    requires few { length heads.old.items < 2 ^ 32 }
    requires small { length links.old.items < 2 ^ 32 }
    requires empty { AreChained heads.old.items links.old.items 0 }
    ensures chained { AreChained heads.new.items links.new.items (length links.new.items) }
    ensures heads { length heads.new.items ≡ length heads.old.items }
    ensures links { length links.new.items ≡ length links.old.items }
    ensures places { places links.new.items ≡ places links.old.items }
{
    for number in 0..links.len() {
        chain(heads, links, number);
    }
}

/// So many empty buckets.
fn empty_heads(alloc: Global, buckets: usize) -> Result<Vec<u32>, OutOfMemory>
    ensures length { IfOk result (λ heads. length heads.items ≡ buckets) }
    ensures empty { IfOk result (λ heads. All (λ last. last ≡ 0) heads.items) }
{
    Ok(vec![in alloc; 0u32; buckets]?)
}

/// Puts all rows into more buckets.
fn rechain(heads: &mut Vec<u32>, links: &mut Vec<Link>) -> Result<(), OutOfMemory>
    requires small { length links.old.items < 2 ^ 32 }
    ensures chained { OnOk result (AreChained heads.new.items links.new.items (length links.new.items)) }
    ensures some { OnOk result (0 < length heads.new.items) }
    ensures few { OnOk result (length heads.new.items < 2 ^ 32) }
    ensures links { length links.new.items ≡ length links.old.items }
    ensures places { places links.new.items ≡ places links.old.items }
    ensures err { OnErr result ((heads.new.items ≡ heads.old.items) × (links.new.items ≡ links.old.items)) }
{
    let buckets = to_u32(2 * links.len() + 16)? as usize;
    let mut more = empty_heads(*heads.allocator(), buckets)?;
    chain_all(&mut more, links);
    *heads = more;
    Ok(())
}

/// Sees to it that there are more buckets than rows.
pub(crate) fn make_buckets(heads: &mut Vec<u32>, links: &mut Vec<Link>) -> Result<(), OutOfMemory>
    requires few { length heads.old.items < 2 ^ 32 }
    requires small { length links.old.items < 2 ^ 32 }
    requires chained { AreChained heads.old.items links.old.items (length links.old.items) }
    ensures chained { AreChained heads.new.items links.new.items (length links.new.items) }
    ensures some { OnOk result (0 < length heads.new.items) }
    ensures few { length heads.new.items < 2 ^ 32 }
    ensures links { length links.new.items ≡ length links.old.items }
    ensures places { places links.new.items ≡ places links.old.items }
    ensures err { OnErr result ((heads.new.items ≡ heads.old.items) × (links.new.items ≡ links.old.items)) }
{
    if links.len() < heads.len() {
        return Ok(());
    }
    rechain(heads, links)
}
