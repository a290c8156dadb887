//! Openings that are refused memory.
use crate::maps::{ALL, map_of};
use crate::told::{features, holds};
use linked_list_allocator::LocalHeap;
use std::alloc::{Allocator, Global};
use std::process::Abort;
use test_aids::Refusing;
use topo_outline::OpenFault;

/// More than the allocations of any opening below.
const MANY: u64 = 1000;

/// Whether the map opens with so many features; else there is allocation failure, which is its only
/// fault.
fn is_opened<R: Abort, A: Allocator + Copy>(
    rt: &R,
    alloc: A,
    heap: Global,
    map: &[u8],
    count: usize,
) -> bool {
    match features(alloc, heap, map) {
        Ok(found) => {
            holds(rt, "the features", found == count);
            true
        }
        Err(fault) => {
            holds(rt, "want of memory", fault == OpenFault::OutOfMemory);
            false
        }
    }
}

/// The same on a heap of this size. Either way the heap has all its memory back.
fn is_opened_within<R: Abort>(
    rt: &R,
    alloc: Global,
    size: usize,
    map: &[u8],
    count: usize,
) -> bool {
    let heap = LocalHeap::new(alloc, size).expect(rt, "memory");
    let is_opened = is_opened(rt, &heap, alloc, map, count);
    holds(rt, "all memory back", heap.used() == 0);
    is_opened
}

/// The last of the heaps that is too small for a map of so many features.
fn last_refused<R: Abort>(rt: &R, alloc: Global, map: &[u8], count: usize) -> usize {
    let mut refused = 0;
    for room in 0..1024usize {
        if !is_opened_within(rt, alloc, 16 * room, map, count) {
            refused = room;
        }
    }
    refused
}

/// From the least heap on each is too small for some allocation, until they are enough.
#[test]
fn each_lesser_heap_is_refused(rt: HostRuntime) {
    for (name, count) in ALL {
        let refused = last_refused(&rt, rt.alloc(), map_of(name), *count);
        holds(&rt, name, refused > 9 && refused < 1023);
    }
}

/// Whether the map opens where the allocation of this number is refused. It does where there is none.
fn is_opened_without<R: Abort>(rt: &R, alloc: Global, nth: u64, map: &[u8], count: usize) -> bool {
    let heap = Refusing::new(alloc, nth);
    let is_opened = is_opened(rt, &heap, alloc, map, count);
    let is_so = is_opened != heap.was_refused();
    assert!(rt; is_so, "growth {nth}");
    is_opened
}

/// How many allocations the opening of a map has, each of which was refused in turn.
fn growths<R: Abort>(rt: &R, alloc: Global, map: &[u8], count: usize) -> u64 {
    for nth in 1..MANY {
        if is_opened_without(rt, alloc, nth, map, count) {
            return nth - 1;
        }
    }
    MANY
}

#[test]
fn each_growth_is_refused_in_turn(rt: HostRuntime) {
    for (name, count) in ALL {
        let growths = growths(&rt, rt.alloc(), map_of(name), *count);
        holds(&rt, name, growths > 9 && growths < MANY);
    }
}

/// Each map is opened, or an allocation failed: in decoding names, too, where `rt try --test` is
/// run with `--fail-alloc N`.
#[test]
fn opened_or_out_of_memory(rt: HostRuntime) {
    for (name, count) in ALL {
        let _ = is_opened(&rt, rt.alloc(), rt.alloc(), map_of(name), *count);
    }
}
