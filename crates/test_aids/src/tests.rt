//! Which of several allocations is refused.
use super::Refusing;
use std::alloc::Allocator;
use std::process::Abort;

/// Which of five boxes, made one after another, are refused memory.
fn five_boxes<A: Allocator + Copy>(alloc: A) -> [bool; 5] {
    let mut refused = [false; 5];
    for is_refused in &mut refused {
        *is_refused = Box::new(alloc, 7u8).is_err();
    }
    refused
}

/// The number of an allocation, and which box is refused it, counted from 0.
const ROWS: &[(u64, Option<usize>)] = &[
    (0, None),
    (1, Some(0)),
    (3, Some(2)),
    (5, Some(4)),
    (6, None),
    (u64::MAX, None),
];

/// Whether that box is refused and no other.
fn is_one(refused: &[bool], one: Option<usize>) -> bool {
    for (n, is_refused) in refused.iter().enumerate() {
        if *is_refused != (one == Some(n)) {
            return false;
        }
    }
    true
}

#[test]
fn one_growth_is_refused(rt: HostRuntime) {
    for (nth, one) in ROWS {
        let alloc = Refusing::new(rt.alloc(), *nth);
        let before = alloc.was_refused();
        let refused = five_boxes(&alloc);
        let is_told = !before && alloc.was_refused() == one.is_some();
        assert!(rt; is_told && is_one(&refused, *one), "growth {nth}");
    }
}

/// A list that has room for one item grows at its second, and keeps what it holds where that
/// growth is refused.
fn grow<R: Abort, A: Allocator>(rt: &R, list: &mut Vec<u8, A>) {
    list.push(7).expect(rt, "there is room");
    let is_refused = list.push(8).is_err();
    assert!(rt; is_refused && list.as_slice() == [7].as_slice());
    list.push(8).expect(rt, "there is memory");
    assert!(rt; list.as_slice() == [7, 8].as_slice());
}

#[test]
fn a_reallocation_is_a_growth(rt: HostRuntime) {
    let alloc = Refusing::new(rt.alloc(), 2);
    grow(
        &rt,
        &mut Vec::with_capacity(&alloc, 1).expect(&rt, "there is memory"),
    );
    assert!(rt; alloc.was_refused());
}
