//! A store in four parts. None of them has bytes of both halves.
ghost use Rattle.std.specs.Prelude.{◌≡◌};
ghost use Rattle.dvg_mem.specs.Banks.{half_bytes};

use crate::half::Half;
use crate::image::Image;
use crate::store::Store;
use crate::{HALF_BYTES, WORD_BYTES};
use dvg_code::OutOfMemory;
use std::alloc::{Allocator, Global};
use std::marker::Model;

// The addresses of half 0's first byte, of the byte after half 0, and of half 1's first byte.
const HALF_0: usize = WORD_BYTES;

const UNUSED: usize = HALF_0 + HALF_BYTES;

const HALF_1: usize = UNUSED + WORD_BYTES;

/// A store that keeps word zero, half 0, the word that no frame uses and half 1 each on its own, as
/// two banks of memory do: no part has bytes of both halves.
#[derive(Drop)]
pub struct Banked<A: Allocator = Global> {
    zero: [u8; WORD_BYTES],
    half_0: Box<[u8; HALF_BYTES], A>,
    unused: [u8; WORD_BYTES],
    half_1: Box<[u8; HALF_BYTES], A>,
}

/// Contracts see the list of the bytes: those of the four parts, one after the other.
impl<A: Allocator> Model for Banked<A> {
    ghost use Rattle.std.specs.Prelude.{List, ℕ, ◌++◌};
    ghost use Rattle.dvg_mem.specs.Banks.{AreBanks};

    ghost Value = { List ℕ };

    ghost view = { λ banked. banked.zero
        ++ (banked.half_0.value ++ (banked.unused ++ banked.half_1.value)) };

    ghost invariant = { λ banked. AreBanks banked.zero banked.half_0.value banked.unused
        banked.half_1.value };
}

impl<A: Allocator> Banked<A> {
    /// Returns the 1,022 bytes of `half`, from its first word's low byte on, as they lie in the
    /// store.
    pub fn half(&self, half: Half) -> &[u8]
        ensures { result.now ≡ half_bytes half self.now }
    {
        match half {
            Half::H0 => self.half_0.as_slice(),
            Half::H1 => self.half_1.as_slice(),
        }
    }
}

impl<A: Allocator + Copy> Store for Banked<A> {
    type Alloc = A;

    ghost content = { λ banked. banked };

    fn make(alloc: A, image: &Image<A>) -> Result<Banked<A>, OutOfMemory> {
        let Ok(half_0) = Box::new(alloc, [0; HALF_BYTES]) else {
            return Err(OutOfMemory);
        };
        let Ok(half_1) = Box::new(alloc, [0; HALF_BYTES]) else {
            return Err(OutOfMemory);
        };
        let mut banked = Banked {
            zero: [0; WORD_BYTES],
            half_0,
            unused: [0; WORD_BYTES],
            half_1,
        };
        banked.load(image);
        Ok(banked)
    }

    fn read(&self, a: u16) -> u8 {
        let a = usize::from(a);
        if a < HALF_0 {
            self.zero[a]
        } else if a < UNUSED {
            self.half_0[a - HALF_0]
        } else if a < HALF_1 {
            self.unused[a - UNUSED]
        } else {
            self.half_1[a - HALF_1]
        }
    }

    fn write(&mut self, a: u16, b: u8) {
        let a = usize::from(a);
        if a < HALF_0 {
            self.zero[a] = b;
        } else if a < UNUSED {
            self.half_0[a - HALF_0] = b;
        } else if a < HALF_1 {
            self.unused[a - UNUSED] = b;
        } else {
            self.half_1[a - HALF_1] = b;
        }
    }

    fn load(&mut self, image: &Image<A>) {
        let (zero, rest) = image.bytes().split_at(WORD_BYTES);
        let (half_0, rest) = rest.split_at(HALF_BYTES);
        let (unused, half_1) = rest.split_at(WORD_BYTES);
        self.zero.copy_from_slice(zero);
        self.half_0.copy_from_slice(half_0);
        self.unused.copy_from_slice(unused);
        self.half_1.copy_from_slice(half_1);
    }
}
