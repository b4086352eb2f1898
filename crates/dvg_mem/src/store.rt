//! Stores: the vector RAM, however it is kept.
ghost use Rattle.std.specs.Prelude.{◌≡◌, ◌<◌, ℕ, List, slice_index, slice_set, IfOk};
ghost use Rattle.dvg_mem.specs.Memory.{IsImage};

use crate::image::Image;
use dvg_code::OutOfMemory;
use std::alloc::Allocator;

/// The vector RAM: 2,048 bytes at the addresses 000 to 7FF, however they are kept. Only `make`
/// takes memory.
pub trait Store: Drop {
    /// What a store takes its room from.
    type Alloc: Allocator + Copy;

    /// The bytes, from address 000 on.
    ghost content: { Self → List ℕ };

    /// Returns a store that holds the bytes of `image`, in memory of `alloc`. Returns `OutOfMemory`
    /// where an allocation fails.
    fn make(alloc: Self::Alloc, image: &Image<Self::Alloc>) -> Result<Self, OutOfMemory>
        ensures content { IfOk result (λ store. content store ≡ image.now) }
        ensures image { IfOk result (λ store. IsImage (content store)) };

    /// Returns the byte at the address `a`, which is below 2,048.
    fn read(&self, a: u16) -> u8
        requires { a < 2048 }
        ensures byte { result ≡ slice_index (content self.now) a }
        ensures image { IsImage (content self.now) };

    /// Replaces the byte at the address `a`, which is below 2,048, with `b`. No other byte changes.
    fn write(&mut self, a: u16, b: u8)
        requires { a < 2048 }
        ensures content { content self.new ≡ slice_set (content self.old) a b }
        ensures image { IsImage (content self.new) };

    /// Replaces all bytes with those of `image`.
    fn load(&mut self, image: &Image<Self::Alloc>)
        ensures content { content self.new ≡ image.now }
        ensures image { IsImage (content self.new) };
}
