//! Whether the bytes of a rank's memory spell a sound heap.

ghost use Rattle.std.specs.Prelude.{◌≡◌, ◌+◌, ◌<◌, ◌≤◌, ◌^◌, ◌==◌, ◌&&◌, ◌++◌, ℕ, true, false, min, length, drop, slice_index, IfOk};
ghost use Rattle.std.specs.List.{All, list_all};
ghost use Rattle.rank_range.specs.Layout.{range_bytes};
ghost use Rattle.rank_range.specs.Nodes.{node_count, no_node, first_node, first_unused, chain_of, node_place, node_at, first_of, times_in};
ghost use Rattle.rank_image.specs.HeapTest.{fits_used, fit_used, fit_unused, count_of, is_each_once, are_zero, end_in_zeros, fits_header, fit_nodes, is_sound_heap};

use rank_range::{DESCRIPTORS_START, Width, read_number};
use std::alloc::{AllocError, Global};

/// How many nodes there are.
const NODES: u16 = 8001;

/// Stands where there is no node.
const NO_NODE: u16 = 65535;

/// How many units of 16 bytes the heap has.
const UNITS: u64 = 24576;

/// How many blocks may live.
const MOST_BLOCKS: u64 = 4000;

/// What a node's kind is where it isn't used, where it is a hole, and where it is a block.
const UNUSED: u64 = 0;

const HOLE: u64 = 1;

const BLOCK: u64 = 2;

/// Whether the bytes spell a sound heap. It fails only for want of memory.
#[tactic(auto, unfolding(crate::specs::HeapTest::is_sound_heap, crate::specs::HeapTest::used_of, crate::specs::HeapTest::unused_of))]
pub fn is_sound_heap(alloc: Global, bytes: &[u8]) -> Result<bool, AllocError>
    requires { length bytes.now ≡ range_bytes }
    ensures { IfOk result (λ b. b ≡ is_sound_heap bytes.now) }
{
    let used = chain(alloc, bytes, UNITS as usize, first_node(bytes))?;
    let unused = match chain(alloc, bytes, NODES as usize, first_unused(bytes)) {
        Ok(unused) => unused,
        Err(error) => {
            drop(used);
            return Err(error);
        }
    };
    let sound = has_nodes(alloc, bytes, used.as_slice(), unused.as_slice());
    drop(used);
    drop(unused);
    sound
}

/// The first node in address order.
fn first_node(bytes: &[u8]) -> u64
    requires { length bytes.now ≡ range_bytes }
    ensures { result ≡ first_node bytes.now }
{
    read_number(bytes, 0, Width::Four)
}

/// The first node that isn't used.
fn first_unused(bytes: &[u8]) -> u64
    requires { length bytes.now ≡ range_bytes }
    ensures { result ≡ first_unused bytes.now }
{
    read_number(bytes, 4, Width::Four)
}

/// Whether the header tells of these nodes, and they are sound.
fn has_nodes(alloc: Global, bytes: &[u8], used: &[u16], unused: &[u16]) -> Result<bool, AllocError>
    requires whole { length bytes.now ≡ range_bytes }
    requires used { All (λ n. n < node_count) used.now }
    requires unused { All (λ n. n < node_count) unused.now }
    ensures { IfOk result (λ b. b ≡ (fits_header bytes.now used.now unused.now && fit_nodes bytes.now used.now unused.now)) }
{
    if fits_header(bytes, used, unused) {
        return fit_nodes(alloc, bytes, used, unused);
    }
    Ok(false)
}

/// The nodes from one on, by their links, and no more than so many.
fn chain(alloc: Global, bytes: &[u8], most: usize, first: u64) -> Result<Vec<u16>, AllocError>
    requires { length bytes.now ≡ range_bytes }
    ensures nodes { IfOk result (λ v. v.items ≡ chain_of bytes.now most first) }
    ensures below { IfOk result (λ v. All (λ n. n < node_count) v.items) }
{
    let mut nodes = Vec::new(alloc);
    let mut number = first;
    for i in 0..most {
        if number >= NODES as u64 {
            return Ok(nodes);
        }
        nodes.push(number as u16)?;
        number = next_of(bytes, number as u16);
    }
    Ok(nodes)
}

/// Where a node stands.
fn place(number: u16) -> usize
    requires { number < node_count }
    ensures { result ≡ node_place number }
{
    DESCRIPTORS_START as usize + 16 * number as usize
}

/// The node behind a node.
fn next_of(bytes: &[u8], number: u16) -> u64
    requires whole { length bytes.now ≡ range_bytes }
    requires inside { number < node_count }
    ensures { result ≡ (node_at bytes.now number).next }
{
    read_number(bytes, place(number) + 10, Width::Two)
}

/// The node before a node.
fn previous_of(bytes: &[u8], number: u16) -> u64
    requires whole { length bytes.now ≡ range_bytes }
    requires inside { number < node_count }
    ensures { result ≡ (node_at bytes.now number).previous }
{
    read_number(bytes, place(number) + 8, Width::Two)
}

/// Where a node's piece begins.
fn start_of(bytes: &[u8], number: u16) -> u64
    requires whole { length bytes.now ≡ range_bytes }
    requires inside { number < node_count }
    ensures value { result ≡ (node_at bytes.now number).start }
    ensures small { result < 2 ^ 32 }
{
    read_number(bytes, place(number), Width::Four)
}

/// How long a node's piece is.
fn units_of(bytes: &[u8], number: u16) -> u64
    requires whole { length bytes.now ≡ range_bytes }
    requires inside { number < node_count }
    ensures value { result ≡ (node_at bytes.now number).units }
    ensures small { result < 2 ^ 32 }
{
    read_number(bytes, place(number) + 4, Width::Four)
}

/// What a node is.
fn kind_of(bytes: &[u8], number: u16) -> u64
    requires whole { length bytes.now ≡ range_bytes }
    requires inside { number < node_count }
    ensures { result ≡ (node_at bytes.now number).kind }
{
    read_number(bytes, place(number) + 12, Width::One)
}

/// Whether a used node fits behind the node `before`, in front of the node `next`, with its piece from the unit `from` on.
fn fits_used(bytes: &[u8], before: u16, from: u64, hole: bool, next: u16, number: u16) -> bool
    requires whole { length bytes.now ≡ range_bytes }
    requires inside { number < node_count }
    ensures value { result ≡ fits_used bytes.now before from hole next number }
    ensures small { result ≡ true → from < 2 ^ 32 }
{
    let kind = kind_of(bytes, number);
    previous_of(bytes, number) == before as u64
        && next_of(bytes, number) == next as u64
        && start_of(bytes, number) == from
        && 1 <= units_of(bytes, number)
        && (kind == BLOCK || (kind == HOLE && !hole))
}

/// The node behind the one at a place of a list.
fn behind(nodes: &[u16], at: usize) -> u16
    requires { at < length nodes.now }
    ensures { result ≡ first_of (drop (at + 1) nodes.now) }
{
    match nodes.get(at + 1) {
        Some(number) => *number,
        None => NO_NODE,
    }
}

/// Whether all used nodes fit, one behind the other.
#[tactic(auto, unfolding(crate::specs::HeapTest::fit_used))]
fn fit_used(bytes: &[u8], used: &[u16]) -> bool
    requires whole { length bytes.now ≡ range_bytes }
    requires inside { All (λ n. n < node_count) used.now }
    ensures { result ≡ fit_used bytes.now no_node 0 false used.now }
{
    let mut before = NO_NODE;
    let mut from: u64 = 0;
    let mut hole = false;
    for i in 0..used.len() {
        let number = used[i];
        if !fits_used(bytes, before, from, hole, behind(used, i), number) {
            return false;
        }
        from += units_of(bytes, number);
        hole = kind_of(bytes, number) == HOLE;
        before = number;
    }
    from == UNITS
}

/// Whether all unused nodes fit.
#[tactic(auto, unfolding(crate::specs::HeapTest::fit_unused))]
fn fit_unused(bytes: &[u8], unused: &[u16]) -> bool
    requires whole { length bytes.now ≡ range_bytes }
    requires inside { All (λ n. n < node_count) unused.now }
    ensures { result ≡ fit_unused bytes.now unused.now }
{
    for i in 0..unused.len() {
        let number = unused[i];
        if kind_of(bytes, number) != UNUSED {
            return false;
        }
        if next_of(bytes, number) != behind(unused, i) as u64 {
            return false;
        }
    }
    true
}

/// How many of the nodes are of a kind.
#[tactic(auto, unfolding(crate::specs::HeapTest::count_of))]
fn count_of(bytes: &[u8], kind: u64, nodes: &[u16]) -> u64
    requires whole { length bytes.now ≡ range_bytes }
    requires inside { All (λ n. n < node_count) nodes.now }
    ensures { result ≡ count_of bytes.now kind nodes.now }
{
    let mut count: u64 = 0;
    for i in 0..nodes.len() {
        if kind_of(bytes, nodes[i]) == kind {
            count += 1;
        }
    }
    count
}

/// Whether bytes are zero.
#[tactic(auto, unfolding(crate::specs::HeapTest::are_zero))]
fn are_zero(bytes: &[u8], at: usize, size: usize) -> bool
    requires { at + size ≤ length bytes.now }
    ensures { result ≡ are_zero bytes.now at size }
{
    for i in 0..size {
        if bytes[at + i] != 0 {
            return false;
        }
    }
    true
}

/// Whether each node's last three bytes are zero.
#[tactic(auto, unfolding(crate::specs::HeapTest::end_in_zeros))]
fn end_in_zeros(bytes: &[u8], nodes: u16) -> bool
    requires whole { length bytes.now ≡ range_bytes }
    requires few { nodes ≤ node_count }
    ensures { result ≡ end_in_zeros bytes.now nodes }
{
    let mut left = nodes;
    while left > 0 {
        left -= 1;
        if !are_zero(bytes, place(left) + 13, 3) {
            return false;
        }
    }
    true
}

/// Whether the header tells of these nodes.
fn fits_header(bytes: &[u8], used: &[u16], unused: &[u16]) -> bool
    requires whole { length bytes.now ≡ range_bytes }
    requires used { All (λ n. n < node_count) used.now }
    requires unused { All (λ n. n < node_count) unused.now }
    ensures { result ≡ fits_header bytes.now used.now unused.now }
{
    let blocks = read_number(bytes, 8, Width::Four);
    first_node(bytes) == first_of(used)
        && first_unused(bytes) == first_of(unused)
        && blocks == count_of(bytes, BLOCK, used)
        && read_number(bytes, 12, Width::Four) == count_of(bytes, HOLE, used)
        && blocks <= MOST_BLOCKS
        && are_zero(bytes, 16, 4080)
}

/// The first of some nodes.
fn first_of(nodes: &[u16]) -> u64
    ensures { result ≡ first_of nodes.now }
{
    match nodes.first() {
        Some(number) => *number as u64,
        None => NO_NODE as u64,
    }
}

/// Whether the nodes are sound.
fn fit_nodes(alloc: Global, bytes: &[u8], used: &[u16], unused: &[u16]) -> Result<bool, AllocError>
    requires whole { length bytes.now ≡ range_bytes }
    requires used { All (λ n. n < node_count) used.now }
    requires unused { All (λ n. n < node_count) unused.now }
    ensures { IfOk result (λ b. b ≡ fit_nodes bytes.now used.now unused.now) }
{
    if !fit_used(bytes, used) || !fit_unused(bytes, unused) {
        return Ok(false);
    }
    if !is_each_once(alloc, used, unused)? {
        return Ok(false);
    }
    Ok(end_in_zeros(bytes, NODES))
}

/// Whether each node stands in the lists once.
fn is_each_once(alloc: Global, used: &[u16], unused: &[u16]) -> Result<bool, AllocError>
    requires used { All (λ n. n < node_count) used.now }
    requires unused { All (λ n. n < node_count) unused.now }
    ensures { IfOk result (λ b. b ≡ is_each_once node_count (used.now ++ unused.now)) }
{
    let mut counts = zeros(alloc, NODES as usize)?;
    count_in(&mut counts, used);
    count_in(&mut counts, unused);
    Ok(are_ones(counts.as_slice()))
}

/// So many zeros.
fn zeros(alloc: Global, count: usize) -> Result<Vec<u8>, AllocError>
    ensures { IfOk result (λ v. (length v.items ≡ count) × ((i : ℕ) → slice_index v.items i ≡ 0)) }
{
    Ok(vec![in alloc; 0u8; count]?)
}

/// Counts how often each node stands in a list, up to 255 times.
fn count_in(counts: &mut Vec<u8>, nodes: &[u16])
    requires all { length counts.old.items ≡ node_count }
    requires inside { All (λ n. n < node_count) nodes.now }
    ensures all { length counts.new.items ≡ node_count }
    ensures counted { (n : ℕ) → n < node_count → slice_index counts.new.items n ≡ min 255 (slice_index counts.old.items n + times_in n nodes.now) }
{
    for i in 0..nodes.len() {
        let number = nodes[i] as usize;
        counts[number] = counts[number].saturating_add(1);
    }
}

/// Whether each count is 1.
fn are_ones(counts: &[u8]) -> bool
    ensures { result ≡ list_all (λ n. n == 1) counts.now }
{
    for count in counts {
        if *count != 1 {
            return false;
        }
    }
    true
}
