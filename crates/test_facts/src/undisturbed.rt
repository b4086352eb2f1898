//! What follows from the contracts of a frame, of a store and of a generator alone.
ghost use Rattle.std.specs.Prelude.{◌≡◌, ◌≤◌, ℕ, List, [], IfOk, None, Some, true};
ghost use Rattle.test_facts.specs.Facts.{IsComplete, level_frame, level_strokes, nested_frame};
ghost use Rattle.test_facts.specs.Facts.{shape_frame, shape_strokes, vector_frame, vector_strokes};
ghost use Rattle.dvg_dump.specs.Following.{TakesWord};
ghost use Rattle.dvg_gen.specs.Machine.{HasTaken, answer_of};
ghost use Rattle.dvg_gen.specs.Told.{Told};
ghost use Rattle.dvg_gen.specs.declared.stroke.Stroke as stroke;
ghost use Rattle.dvg_mem.specs.Memory.{fetched, rom_word};
ghost use Rattle.dvg_log.specs.Held.{HoldsFrame};

use dvg_code::OutOfMemory;
use dvg_frame::Frame;
use dvg_gen::{Generator, Stroke, Taken};
use dvg_mem::{Flat, Half, Image, Rom, Store, fetch};
use std::alloc::Global;

// Returns a RAM of zeros with `frame` in `half`, and the jump to it in word zero.
fn laid(alloc: Global, frame: &Frame, half: Half) -> Result<Flat<Global>, OutOfMemory>
    ensures { IfOk result (λ store. HoldsFrame store half frame.now.operations) }
{
    let Ok(image) = Image::new(alloc, &[0; 2048]) else {
        return Err(OutOfMemory);
    };
    let mut store = Flat::make(alloc, &image)?;
    store.write(0, 0x01);
    store.write(1, half.high());
    let first = 2 * half.base();
    for k in 0..2 * frame.len_words() {
        store.write(first + k, frame.byte(half, k));
    }
    Ok(store)
}

// Lets `generator` take `word`, its low byte first, or a hole where there is none.
fn take_word(
    generator: &mut Generator<Global>,
    word: Option<u16>,
) -> Result<Taken<Global>, OutOfMemory>
    requires open { generator.old.is_open ≡ true }
    requires stands { (history : List Told) × HasTaken generator.old history None }
    ensures { IfOk result (λ taken. TakesWord generator.old word generator.new
        (answer_of taken)) }
{
    let Some(word) = word else {
        return generator.take_byte(None);
    };
    let [low, high] = word.to_le_bytes();
    let Taken::Low = generator.take_byte(Some(low))? else {
        unreachable!()
    };
    generator.take_byte(Some(high))
}

// Returns how many words a new generator fetches from `store` and `rom` up to its HALT, which is
// known to come within 64, and its strokes.
fn drawn(
    alloc: Global,
    store: &Flat<Global>,
    rom: &Rom<Global>,
) -> Result<(u32, Vec<Stroke, Global>), OutOfMemory>
    requires { (words : ℕ) × (drew : List stroke.Stroke)
        × (words ≤ 64) × IsComplete (fetched store.now rom.now) words drew }
    ensures { IfOk result (λ drawn. IsComplete (fetched store.now rom.now) drawn.0 drawn.1.items) }
{
    let mut generator = Generator::new(alloc);
    generator.start();
    for words in 0..64u32 {
        let Some(address) = generator.wants() else {
            unreachable!()
        };
        let word = fetch(store, rom, address);
        match take_word(&mut generator, word)? {
            Taken::Word => {}
            Taken::Done(strokes) => return Ok((words + 1, strokes)),
            _ => unreachable!(),
        }
    }
    unreachable!()
}

/// The `frame` `labs 512 400 0; vctr 9 -100 100 7; halt`, in either `half`: HALT after six words,
/// and one stroke.
pub fn draws_a_vector(
    alloc: Global,
    rom: &Rom<Global>,
    frame: &Frame,
    half: Half,
) -> Result<(u32, Vec<Stroke, Global>), OutOfMemory>
    requires { frame.now.operations ≡ vector_frame }
    ensures { IfOk result (λ drawn. (drawn.0 ≡ 6) × (drawn.1.items ≡ vector_strokes)) }
{
    let store = laid(alloc, frame, half)?;
    drawn(alloc, &store, rom)
}

/// The `frame` `labs 0 0 0; vctr 9 10 0 5; halt`, in either `half`: HALT after six words, and one
/// stroke.
pub fn draws_a_level_vector(
    alloc: Global,
    rom: &Rom<Global>,
    frame: &Frame,
    half: Half,
) -> Result<(u32, Vec<Stroke, Global>), OutOfMemory>
    requires { frame.now.operations ≡ level_frame }
    ensures { IfOk result (λ drawn. (drawn.0 ≡ 6) × (drawn.1.items ≡ level_strokes)) }
{
    let store = laid(alloc, frame, half)?;
    drawn(alloc, &store, rom)
}

/// The `frame` `labs 0 0 0; callrom 800; halt`, in either `half`: HALT after seven words, and the
/// stroke of `rom`.
pub fn draws_a_shape(
    alloc: Global,
    rom: &Rom<Global>,
    frame: &Frame,
    half: Half,
) -> Result<(u32, Vec<Stroke, Global>), OutOfMemory>
    requires frame { frame.now.operations ≡ shape_frame }
    requires vector { rom_word rom.now 0x800 ≡ Some 0xFE37 }
    requires back { rom_word rom.now 0x801 ≡ Some 0xD000 }
    ensures { IfOk result (λ drawn. (drawn.0 ≡ 7) × (drawn.1.items ≡ shape_strokes)) }
{
    let store = laid(alloc, frame, half)?;
    drawn(alloc, &store, rom)
}

/// A `frame` of four calls, one in the other, in either `half`: HALT after twelve words, and no
/// stroke.
pub fn draws_nothing(
    alloc: Global,
    rom: &Rom<Global>,
    frame: &Frame,
    half: Half,
) -> Result<(u32, Vec<Stroke, Global>), OutOfMemory>
    requires { frame.now.operations ≡ nested_frame }
    ensures { IfOk result (λ drawn. (drawn.0 ≡ 12) × (drawn.1.items ≡ [])) }
{
    let store = laid(alloc, frame, half)?;
    drawn(alloc, &store, rom)
}
