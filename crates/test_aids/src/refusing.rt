//! An allocator for tests, which refuses one allocation and passes on all others.
//!
//! A test makes its call with the first allocation refused, then with the second, and so on, until none
//! was refused.
ghost use Rattle.std.specs.Prelude.{◌≡◌, false};
ghost use Rattle.test_aids.specs.Refusals.{nth_refused};

use std::alloc::{AllocError, Allocator};
use std::cell::Cell;

/// Passes each call on to another allocator, and refuses one allocation. What allocates is given a `&`
/// of it.
#[derive(Drop)]
pub struct Refusing<B: Allocator> {
    inner: B,
    /// How many allocations there are up to the refused one, which is the last of them; 0 once it was
    /// refused.
    left: Cell<u64>,
    nth: u64,
}

impl<B: Allocator> Refusing<B> {
    /// Refuses the allocation of this number, counted from 1, and no other; 0 refuses none. Each call
    /// of `allocate` is an allocation, also one that a reallocation makes.
    pub fn new(inner: B, nth: u64) -> Self
        ensures nth { nth_refused result ≡ nth }
    {
        Refusing {
            inner,
            left: Cell::new(nth),
            nth,
        }
    }

    /// Whether an allocation has been refused so far.
    pub fn was_refused(&self) -> bool
        ensures none { nth_refused self.now ≡ 0 → result ≡ false }
    {
        self.nth != 0 && self.left.get() == 0
    }
}

/// Counts an allocation, and gives whether it is the one to refuse.
fn is_refused(left: &Cell<u64>) -> bool {
    let before = left.get();
    left.set(before.saturating_sub(1));
    before == 1
}

unsafe impl<B: Allocator> Allocator for Refusing<B> {
    ghost dealloc_token = { λ heap ty ptr. B.dealloc_token heap.inner ty ptr };

    fn allocate(&self, size: usize, align: usize) -> Result<*mut u8, AllocError> {
        if is_refused(&self.left) {
            return Err(AllocError);
        }
        self.inner.allocate(size, align)
    }

    unsafe fn deallocate(&self, ptr: *mut u8, size: usize, align: usize) {
        self.inner.deallocate(ptr, size, align);
    }
}
