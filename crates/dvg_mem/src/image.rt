//! What a memory holds.
ghost use Rattle.std.specs.Prelude.{◌≡◌, ◌≢◌, ◌↔◌, ◌<◌, length, IfOk, IfSome, IsErrOf, Err};
ghost use Rattle.dvg_mem.specs.Filled.{IsFilled};
ghost use Rattle.dvg_mem.specs.Memory.{IsImage};
ghost use Rattle.dvg_mem.specs.declared.TheConstants.{MEMORY_BYTES};

use crate::MEMORY_BYTES;
use std::alloc::{AllocError, Allocator, Global};
use std::marker::Model;
use thiserror::Error;

/// Why a memory was not made.
#[derive(Clone, Copy, Debug, PartialEq, Eq, Error)]
pub enum MemFault {
    /// The number of bytes isn't that of the memory: 2,048, or for a ROM 2,048 or 4,096.
    #[error("there are not as many bytes as the memory has")]
    Size,
    /// An allocation failed.
    #[error("out of memory")]
    OutOfMemory,
}

// What an image keeps in its block of memory.
#[derive(Clone, Debug, Drop)]
struct Held {
    bytes: [u8; MEMORY_BYTES],
    /// The byte that stands everywhere, if that was seen: then a store is filled, and nothing is
    /// copied.
    filled: Option<u8>,
}

/// The 2,048 bytes that a vector RAM holds. The block of memory has what is known of them, too, so
/// an image itself is no more than a pointer.
#[derive(Drop)]
#[derive_where(Debug)]
pub struct Image<A: Allocator = Global> {
    held: Box<Held, A>,
}

/// Contracts see the list of the bytes.
impl<A: Allocator> Model for Image<A> {
    ghost use Rattle.std.specs.Prelude.{IfSome, List, ℕ};
    ghost use Rattle.dvg_mem.specs.Memory.{IsImage};
    ghost use Rattle.dvg_mem.specs.Filled.{IsFilled};

    ghost Value = { List ℕ };

    ghost view = { λ image. image.held.value.bytes };

    ghost invariant = { λ image. IsImage image.held.value.bytes
        × IfSome image.held.value.filled (IsFilled image.held.value.bytes) };
}

/// A copy of the bytes. `clone` returns `AllocError` where an allocation fails.
impl<A: Allocator + Clone> Clone for Image<A> {
    ghost is_clone = { λ image copy. copy ≡ image };

    fn clone(&self) -> Result<Image<A>, AllocError> {
        let alloc = Box::allocator(&self.held).clone()?;
        match Image::new(alloc, self.bytes()) {
            Ok(copy) => Ok(copy),
            Err(_) => Err(AllocError),
        }
    }
}

/// Images are equal where their bytes are.
impl<A: Allocator> PartialEq for Image<A> {
    ghost use Rattle.std.specs.Prelude.{nat_eq};
    ghost use Rattle.std.specs.Cmp.{partial_equiv_from_equiv};
    ghost use Rattle.std.specs.Cmp.Lexicographic.{nat_list_eq_equiv, pointwise};

    ghost eq = { pointwise nat_eq };

    ghost laws = { partial_equiv_from_equiv nat_list_eq_equiv };

    fn eq(&self, other: &Image<A>) -> bool {
        self.bytes() == other.bytes()
    }
}

impl<A: Allocator> Eq for Image<A> {
    ghost use Rattle.std.specs.Cmp.Lexicographic.{nat_list_eq_equiv};

    ghost laws = { nat_list_eq_equiv };
}

impl<A: Allocator> Image<A> {
    /// Returns the image of `bytes`, which are copied into memory of `alloc`. Returns `Size`
    /// exactly where the length of `bytes` isn't 2,048, and `OutOfMemory` where an allocation
    /// fails.
    pub fn new(alloc: A, bytes: &[u8]) -> Result<Image<A>, MemFault>
        ensures bytes { IfOk result (λ image. image ≡ bytes.now) }
        ensures size { IsErrOf result MemFault.Size ↔ (length bytes.now ≢ MEMORY_BYTES) }
    {
        if bytes.len() != MEMORY_BYTES {
            return Err(MemFault::Size);
        }
        let mut copy = [0; MEMORY_BYTES];
        copy.copy_from_slice(bytes);
        let held = Held {
            bytes: copy,
            filled: only_byte(bytes),
        };
        match Box::new(alloc, held) {
            Ok(held) => Ok(Image { held }),
            Err(_) => Err(MemFault::OutOfMemory),
        }
    }

    /// Replaces the bytes with `bytes`, whose length must be 2,048. They go into the memory that
    /// the image has.
    pub fn copy_from(&mut self, bytes: &[u8])
        requires { length bytes.now ≡ MEMORY_BYTES }
        ensures { self.new ≡ bytes.now }
    {
        self.held.bytes.copy_from_slice(bytes);
        self.held.filled = None;
    }

    // Returns the byte that stands everywhere, if that was seen.
    pub(crate) fn filled(&self) -> Option<u8>
        ensures byte { IfSome result (IsFilled self.now) }
        ensures image { IsImage self.now }
    {
        self.held.filled
    }

    /// Returns the bytes, from address 000 on.
    pub fn bytes(&self) -> &[u8]
        ensures bytes { result.now ≡ self.now }
        ensures image { IsImage result.now }
    {
        self.held.bytes.as_slice()
    }
}

// Returns the byte that stands at each place of `bytes`, if there is one. `bytes` isn't empty.
fn only_byte(bytes: &[u8]) -> Option<u8>
    requires { 0 < length bytes.now }
    ensures { IfSome result (IsFilled bytes.now) }
{
    if bytes[1..] == bytes[..bytes.len() - 1] {
        Some(bytes[0])
    } else {
        None
    }
}
