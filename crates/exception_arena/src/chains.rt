// The committed pairs: a chain of nodes for each bucket of old chunks, and the buckets' heads. The newest node of a bucket
// comes first.
ghost use Rattle.std.specs.Prelude.{◌≡◌, ◌+◌, ◌-◌, ◌<◌, ◌≤◌, ◌%◌, ◌^◌, ◌∷◌, [], ◌++◌, IfErr, OnOk, length, take, vec_capacity};
ghost use Rattle.cow_format.specs.Picture.{place_of};
ghost use Rattle.exception_arena.specs.Links.{pairs_on, AreHung};
ghost use Rattle.exception_arena.specs.Arenas.{HasRoom};
ghost use Rattle.sector.specs.declared.refusal.Refusal.TheVariants.{NoMemory};
ghost use Rattle.exception_arena.specs.Keeping.{AllHang, KeepsLen, KeepsPairs, KeepsRoom};

use crate::link::Link;
use crate::node::Node;
use sector::{Chunk, Pair, Refusal};

// So many nodes an arena has at most: links have 32 bits, and one of them leads nowhere.
const MOST_NODES: usize = 0xffff_ffff;

/// The bucket of a chunk, of so many. Where they are a power of two, as `make_room` makes them, a mask gives it without a
/// division.
fn bucket_of(old_chunk: u64, buckets: usize) -> usize
    requires { 0 < buckets }
    ensures within { result < buckets }
    ensures is { result ≡ old_chunk % buckets }
{
    if buckets.is_power_of_two() {
        old_chunk as usize & (buckets - 1)
    } else {
        old_chunk as usize % buckets
    }
}

/// Hangs the node at a place into its bucket, before those that hang there, which are all nodes before it.
fn hang(nodes: &mut Vec<Node>, heads: &mut Vec<Link>, place: usize)
    requires inside { place < length nodes.old.items }
    requires small { length nodes.old.items < 2 ^ 32 }
    requires some { 0 < length heads.old.items }
    requires hung { AreHung nodes.old.items heads.old.items place }
    ensures hung { AreHung nodes.new.items heads.new.items (place + 1) }
    ensures pairs { KeepsPairs nodes.old nodes.new }
    ensures len { KeepsLen nodes.old nodes.new }
    ensures buckets { KeepsLen heads.old heads.new }
    ensures capacity { KeepsRoom nodes.old nodes.new }
    ensures heads_capacity { KeepsRoom heads.old heads.new }
{
    let bucket = bucket_of(nodes[place].old as u64, heads.len());
    nodes[place].next = heads[bucket];
    heads[bucket] = Link::to(place);
}

/// Puts a pair behind the others, for which there is room.
pub fn push(nodes: &mut Vec<Node>, heads: &mut Vec<Link>, pair: Pair)
    requires old { pair.old < 2 ^ 32 }
    requires new { pair.new < 2 ^ 32 }
    requires room { HasRoom nodes.old.items heads.old.items 1 (vec_capacity nodes.old) }
    requires hung { AreHung nodes.old.items heads.old.items (length nodes.old.items) }
    ensures hung { AllHang nodes.new heads.new }
    ensures pairs { pairs_on nodes.new.items ≡ pairs_on nodes.old.items ++ pair ∷ [] }
    ensures len { length nodes.new.items ≡ length nodes.old.items + 1 }
    ensures buckets { KeepsLen heads.old heads.new }
    ensures capacity { KeepsRoom nodes.old nodes.new }
    ensures heads_capacity { KeepsRoom heads.old heads.new }
{
    let place = nodes.len();
    nodes.push_reserved(Node {
        old: pair.old as u32,
        new: pair.new as u32,
        next: Link::NOWHERE,
    });
    hang(nodes, heads, place);
}

/// Takes the last pair away, of some. It is the first of its bucket's chain.
pub fn pop(nodes: &mut Vec<Node>, heads: &mut Vec<Link>)
    requires some { 0 < length nodes.old.items }
    requires buckets { 0 < length heads.old.items }
    requires hung { AreHung nodes.old.items heads.old.items (length nodes.old.items) }
    ensures hung { AllHang nodes.new heads.new }
    ensures nodes { nodes.new.items ≡ take (length nodes.old.items - 1) nodes.old.items }
    ensures buckets { KeepsLen heads.old heads.new }
    ensures capacity { KeepsRoom nodes.old nodes.new }
    ensures heads_capacity { KeepsRoom heads.old heads.new }
{
    let Some(node) = nodes.pop() else {
        unreachable!()
    };
    let bucket = bucket_of(node.old as u64, heads.len());
    heads[bucket] = node.next;
}

/// Makes so many buckets, for which there is room, and hangs all nodes into them.
fn hang_all(nodes: &mut Vec<Node>, heads: &mut Vec<Link>, buckets: usize)
    requires some { 0 < buckets }
    requires room { buckets ≤ vec_capacity heads.old }
    requires small { length nodes.old.items < 2 ^ 32 }
    ensures hung { AllHang nodes.new heads.new }
    ensures buckets { length heads.new.items ≡ buckets }
    ensures pairs { KeepsPairs nodes.old nodes.new }
    ensures len { KeepsLen nodes.old nodes.new }
    ensures capacity { KeepsRoom nodes.old nodes.new }
{
    heads.clear();
    let _ = heads.resize(buckets, Link::NOWHERE);
    for place in 0..nodes.len() {
        hang(nodes, heads, place);
    }
}

/// Makes room for so many nodes more, and a bucket for each node, by the next power of two; `NoMemory` where that is
/// refused, and then the pairs and their chains are as they were.
#[inline(always)]
pub fn make_room(nodes: &mut Vec<Node>, heads: &mut Vec<Link>, more: usize) -> Result<(), Refusal>
    requires small { length nodes.old.items < 2 ^ 32 }
    requires hung { AreHung nodes.old.items heads.old.items (length nodes.old.items) }
    ensures hung { AllHang nodes.new heads.new }
    ensures pairs { KeepsPairs nodes.old nodes.new }
    ensures len { KeepsLen nodes.old nodes.new }
    ensures room { OnOk result (HasRoom nodes.new.items heads.new.items more (vec_capacity nodes.new)) }
    ensures capacity { vec_capacity nodes.old ≤ vec_capacity nodes.new }
    ensures buckets { length heads.old.items ≤ length heads.new.items }
    ensures refusal { IfErr result (λ e. e ≡ NoMemory) }
{
    let Some(wanted) = nodes.len().checked_add(more) else {
        return Err(Refusal::NoMemory);
    };
    if wanted > MOST_NODES {
        return Err(Refusal::NoMemory);
    }
    let Ok(()) = nodes.reserve(more) else {
        return Err(Refusal::NoMemory);
    };
    if wanted <= heads.len() {
        return Ok(());
    }
    let buckets = wanted.next_power_of_two();
    let Ok(()) = heads.reserve(buckets - heads.len()) else {
        return Err(Refusal::NoMemory);
    };
    hang_all(nodes, heads, buckets);
    Ok(())
}

/// The place of a chunk's copy, by the chain of its bucket: by the last node there that names the chunk, which is the
/// oldest.
pub fn find(nodes: &[Node], heads: &[Link], old_chunk: Chunk) -> Option<Chunk>
    requires hung { AreHung nodes.now heads.now (length nodes.now) }
    requires some { length nodes.now ≤ length heads.now }
    ensures { result ≡ place_of (pairs_on nodes.now) old_chunk }
{
    if heads.is_empty() {
        return None;
    }
    let mut found = None;
    let mut link = heads[bucket_of(old_chunk, heads.len())];
    for _step in 0..nodes.len() {
        let Some(place) = link.target() else {
            return found;
        };
        let node = nodes[place];
        if node.old as u64 == old_chunk {
            found = Some(node.new as u64);
        }
        link = node.next;
    }
    found
}
