//! An allocator for tests, which refuses some of the growths that it is asked for.
#![tactic(auto)]

use std::alloc::{AllocError, Allocator};
use std::cell::Cell;

/// How many growths were asked for, how many blocks are out, and how many growths pass.
#[derive(Drop)]
struct Tally {
    asked: Cell<u64>,
    out: Cell<u64>,
    passing: u64,
}

impl Tally {
    /// Counts one more growth, and tells whether it is refused.
    fn refuses(&self) -> bool {
        let n = self.asked.get();
        self.asked.set(n.wrapping_add(1));
        if self.passing <= n {
            return true;
        }
        self.out.set(self.out.get().wrapping_add(1));
        false
    }

    /// Counts a block that came back.
    fn frees(&self) {
        self.out.set(self.out.get().wrapping_sub(1));
    }
}

/// Passes each growth on to `inner`, save those that are refused. A test lends it:
/// `&Refusing<Global>` is an allocator.
#[derive(Drop)]
pub struct Refusing<B: Allocator> {
    inner: B,
    tally: Tally,
}

impl<B: Allocator> Refusing<B> {
    /// The first `n` growths pass, and each later one is refused.
    pub fn after(inner: B, n: u64) -> Refusing<B> {
        Refusing {
            inner,
            tally: Tally {
                asked: Cell::new(0),
                out: Cell::new(0),
                passing: n,
            },
        }
    }

    /// How many growths were asked for, the refused ones included.
    pub fn growths(&self) -> u64 {
        self.tally.asked.get()
    }

    /// How many blocks were handed out and not freed. It counts one too many for a growth that
    /// `inner` refuses by itself.
    pub fn blocks(&self) -> u64 {
        self.tally.out.get()
    }
}

unsafe impl<B: Allocator> Allocator for Refusing<B> {
    ghost dealloc_token = { λ heap ty ptr. B.dealloc_token heap.inner ty ptr };

    fn allocate(&self, size: usize, align: usize) -> Result<*mut u8, AllocError> {
        if self.tally.refuses() {
            return Err(AllocError);
        }
        self.inner.allocate(size, align)
    }

    unsafe fn deallocate(&self, ptr: *mut u8, size: usize, align: usize) {
        self.tally.frees();
        self.inner.deallocate(ptr, size, align);
    }
}
