//! The vector ROM.
ghost use Rattle.std.specs.Prelude.{◌≡◌, ◌≢◌, ◌*◌, ◌≤◌, ◌⊎◌, ◌↔◌, ◌++◌, length, IfErr, IfOk};
ghost use Rattle.std.specs.Prelude.{IsErrOf, IsOk, OnErr, OnOk, Some};
ghost use Rattle.dvg_mem.specs.Areas.{IsInMap};
ghost use Rattle.dvg_mem.specs.Memory.{IsGrown, IsRom, first_word, rom_word};
ghost use Rattle.dvg_mem.specs.Grown.{ArePushedBack};
ghost use Rattle.dvg_mem.specs.declared.TheConstants.{LARGE_ROM_BYTES, MEMORY_BYTES};

use crate::areas::Area;
use crate::image::MemFault;
use crate::lookup::area_in_map;
use crate::{FIRST_LARGE_ROM_WORD, FIRST_ROM_WORD, LARGE_ROM_BYTES, MEMORY_BYTES, ROM_END};
use dvg_code::word_at;
use std::alloc::{AllocError, Allocator, Global};
use std::marker::Model;

/// The bytes of a vector ROM: 2,048 of the words 800 to BFF, as in Asteroids, or 4,096 of the words
/// 400 to BFF, as on boards of Asteroids Deluxe (the second map is this project's own choice).
#[derive(Drop)]
pub struct Rom<A: Allocator = Global> {
    bytes: Vec<u8, A>,
}

/// Contracts see the list of the bytes.
impl<A: Allocator> Model for Rom<A> {
    ghost use Rattle.std.specs.Prelude.{List, ℕ};
    ghost use Rattle.dvg_mem.specs.Memory.{IsRom};

    ghost Value = { List ℕ };

    ghost view = { λ rom. rom.bytes.items };

    ghost invariant = { λ rom. IsRom rom.bytes.items };
}

impl<A: Allocator> Rom<A> {
    /// Returns the ROM of `bytes`, which are copied into memory of `alloc`. Returns `Size` exactly
    /// where the length of `bytes` is neither 2,048 nor 4,096, and `OutOfMemory` where an
    /// allocation fails.
    pub fn new(alloc: A, bytes: &[u8]) -> Result<Rom<A>, MemFault>
        ensures bytes { IfOk result (λ rom. rom ≡ bytes.now) }
        ensures size { IsErrOf result MemFault.Size
            ↔ ((length bytes.now ≢ MEMORY_BYTES)
            × (length bytes.now ≢ LARGE_ROM_BYTES)) }
    {
        if bytes.len() != MEMORY_BYTES && bytes.len() != LARGE_ROM_BYTES {
            return Err(MemFault::Size);
        }
        // As one block: `to_vec` would copy each byte by itself.
        let mut copy = Vec::new(alloc);
        match copy.extend_from_slice(bytes) {
            Ok(()) => Ok(Rom { bytes: copy }),
            Err(_) => Err(MemFault::OutOfMemory),
        }
    }

    /// Replaces the bytes with `bytes`. If there are as many of them, they go into the memory that
    /// the ROM has; otherwise memory is taken from `alloc`.
    ///
    /// Returns `Size` exactly where the length of `bytes` is neither 2,048 nor 4,096, and
    /// `OutOfMemory` where an allocation fails. After an error nothing has changed.
    pub fn copy_from(&mut self, alloc: A, bytes: &[u8]) -> Result<(), MemFault>
        ensures bytes { OnOk result (self.new ≡ bytes.now) }
        ensures size { IsErrOf result MemFault.Size
            ↔ ((length bytes.now ≢ MEMORY_BYTES)
            × (length bytes.now ≢ LARGE_ROM_BYTES)) }
        ensures room { length bytes.now ≡ length self.old → IsOk result }
        ensures refused { OnErr result (self.new ≡ self.old) }
    {
        if bytes.len() == self.bytes.len() {
            self.bytes.as_mut_slice().copy_from_slice(bytes);
            return Ok(());
        }
        match Rom::new(alloc, bytes) {
            Ok(rom) => {
                *self = rom;
                Ok(())
            }
            Err(fault) => Err(fault),
        }
    }

    /// Returns the word address of the first word: 800 or 400.
    pub fn first(&self) -> u16
        ensures first { result ≡ first_word self.now }
        ensures size { ((result ≡ 0x800) × (length self.now ≡ MEMORY_BYTES))
            ⊎ ((result ≡ 0x400) × (length self.now ≡ LARGE_ROM_BYTES)) }
    {
        if self.bytes.len() == MEMORY_BYTES {
            FIRST_ROM_WORD
        } else {
            FIRST_LARGE_ROM_WORD
        }
    }

    /// Returns the number of words: 1,024 or 2,048.
    pub fn len_words(&self) -> u16
        ensures count { length self.now ≡ 2 * result }
        ensures rom { IsRom self.now }
    {
        (self.bytes.len() / 2) as u16
    }

    /// Returns the word at the word address `a`, which is `first` to BFF.
    pub fn word(&self, a: u16) -> u16
        requires first { first_word self.now ≤ a }
        requires last { a ≤ 0xBFF }
        ensures { rom_word self.now a ≡ Some result }
    {
        // Counted back from the end: the last word stands at BFF, whichever size the ROM has.
        let after = usize::from(ROM_END - a);
        word_at(self.bytes.as_slice(), self.bytes.len() / 2 - after)
    }

    /// Returns the ROM of 4,096 bytes that has this one's words from 800 on, and D000, a return, at
    /// 400 to 7FF. This one must have 2,048 bytes. Memory is taken from `alloc`. The only error is
    /// `OutOfMemory`, where an allocation fails.
    #[tactic(auto, using(crate::proofs::GrownRom::is_rom, crate::proofs::GrownRom::grown))]
    pub fn grow(&self, alloc: A) -> Result<Rom<A>, MemFault>
        requires { first_word self.now ≡ 0x800 }
        ensures grown { IfOk result (λ rom. IsGrown self.now rom) }
        ensures refused { IfErr result (λ fault. fault ≡ MemFault.OutOfMemory) }
    {
        let _ = &self.bytes;
        match self.grown_bytes(alloc) {
            Ok(bytes) => Ok(Rom { bytes }),
            Err(_) => Err(MemFault::OutOfMemory),
        }
    }

    // Returns the bytes of 1,024 returns, and then those of this ROM, in memory of `alloc`.
    #[tactic(auto, using(crate::proofs::GrownRom::one_more, crate::proofs::GrownRom::no_return))]
    fn grown_bytes(&self, alloc: A) -> Result<Vec<u8, A>, AllocError>
        ensures { IfOk result (λ bytes. ArePushedBack self.now bytes.items) }
    {
        let mut bytes = Vec::with_capacity(alloc, LARGE_ROM_BYTES)?;
        for _word in 0..1024u16 {
            bytes.extend_from_slice(&[0x00, 0xD0])?;
        }
        bytes.extend_from_slice(self.bytes.as_slice())?;
        Ok(bytes)
    }

    /// Returns the area of the word address `w`, which has 12 bits, with this ROM.
    pub fn area(&self, w: u16) -> Area
        requires { w ≤ 0xFFF }
        ensures area { IsInMap (first_word self.now) result w }
        ensures behind_ram { 0x400 ≤ first_word self.now }
    {
        area_in_map(self.first(), w)
    }
}
