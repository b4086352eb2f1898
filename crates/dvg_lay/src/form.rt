//! The forms in which a sketch is laid out.
ghost use Rattle.std.specs.Prelude.{◌≡◌, All, IfErr, IfOk, OnOk};
ghost use Rattle.dvg_lay.specs.Forms.{IsLaid, IsRefusal, MayLay, form_text};
ghost use Rattle.dvg_blame.specs.Refusals.{IsLent, IsUnlaid};

use crate::drafts::lay_drafts;
use crate::laying::{lay_bytes, lay_names, lay_rom, lay_tables};
use dvg_blame::{Refusal, Unlaid};
use dvg_code::OutOfMemory;
use dvg_job::LayForm;
use dvg_mem::Rom;
use dvg_named::{NamedFrame, RomName};
use std::alloc::Allocator;

/// What came of laying a sketch out: the text, or why a frame is refused.
pub type Laid<A> = Result<Vec<u8, A>, Refusal<A>>;

// Lays `frames` out in this `form`, over `rom`, whose names are `names`.
fn lay_text<A: Allocator + Copy>(
    alloc: A,
    rom: &Rom<A>,
    names: &[RomName],
    frames: &[NamedFrame],
    form: LayForm,
) -> Result<Vec<u8, A>, Unlaid<A>>
    requires { All IsLent frames.now }
    ensures may { OnOk result (MayLay form rom.now frames.now) }
    ensures laid { IfOk result (λ text.
        text.items ≡ form_text form rom.now names.now frames.now) }
    ensures refused { IfErr result (IsUnlaid (IsRefusal form rom.now names.now frames.now)) }
{
    match form {
        LayForm::Bytes(half) => lay_bytes(alloc, rom, names, frames, half),
        LayForm::Table => lay_tables(alloc, rom, names, frames),
        LayForm::Rom => lay_rom(alloc, rom, names, frames),
        LayForm::Equates => lay_names(alloc, rom, names, frames),
        LayForm::Draft => match lay_drafts(alloc, rom, frames) {
            Ok(text) => Ok(text),
            Err(_) => Err(Unlaid::Memory),
        },
    }
}

/// Lays `frames` out in this `form`, over the ROM of `bytes`, whose names are `names`, or returns
/// why a frame is refused. Returns `OutOfMemory` where an allocation fails.
pub(crate) fn lay<A: Allocator + Copy>(
    alloc: A,
    bytes: &[u8],
    names: &[RomName],
    frames: &[NamedFrame],
    form: LayForm,
) -> Result<Laid<A>, OutOfMemory>
    requires { All IsLent frames.now }
    ensures { IfOk result (IsLaid form bytes.now names.now frames.now) }
{
    let Ok(rom) = Rom::new(alloc, bytes) else {
        return Err(OutOfMemory);
    };
    match lay_text(alloc, &rom, names, frames, form) {
        Ok(text) => Ok(Ok(text)),
        Err(Unlaid::Refused(refusal)) => Ok(Err(refusal)),
        Err(Unlaid::Memory) => Err(OutOfMemory),
    }
}
