//! Frames that are drawn.
ghost use Rattle.std.specs.Prelude.{All, IfErr, IfOk};
ghost use Rattle.std.specs.List.{AllZip};
ghost use Rattle.dvg_blame.specs.Refusals.{IsLent, IsUnlaid};
ghost use Rattle.dvg_svg.specs.Svg.{strokes_of};
ghost use Rattle.dvg_lay.specs.Drawings.{IsDrawnFrame, IsUndrawn, TellsUndrawn};

use crate::picture::picture_of;
use dvg_blame::{Unlaid, good_frame, tell_long};
use dvg_dump::MOST_WORDS;
use dvg_frame::Checker;
use dvg_gen::Stroke;
use dvg_mem::Rom;
use dvg_named::{NamedFrame, RomName};
use std::alloc::Allocator;

// Returns the strokes of the picture of `frame`, where `checker` accepts it over the ROM of `bytes`
// and its picture has at most 65,536 words. `names` are the names of the ROM. That is made for each
// frame, as the dump that is run owns it.
fn draw_frame<A: Allocator + Copy>(
    alloc: A,
    checker: &mut Checker,
    bytes: &[u8],
    names: &[RomName],
    frame: &NamedFrame,
) -> Result<Vec<Stroke, A>, Unlaid<A>>
    requires { IsLent frame.now }
    ensures drawn { IfOk result (λ strokes. IsDrawnFrame bytes.now frame.now strokes.items) }
    ensures refused { IfErr result
        (IsUnlaid (λ refusal. TellsUndrawn bytes.now names.now refusal frame.now)) }
{
    let Ok(rom) = Rom::new(alloc, bytes) else {
        return Err(Unlaid::Memory);
    };
    let checked = match good_frame(alloc, checker, &rom, names, frame) {
        Ok(checked) => checked,
        Err(unlaid) => return Err(unlaid),
    };
    if checked.bound() > u64::from(MOST_WORDS) {
        return Err(tell_long(alloc, names, frame, checked.bound()));
    }
    match picture_of(alloc, rom, &checked) {
        Ok(strokes) => Ok(strokes),
        Err(_) => Err(Unlaid::Memory),
    }
}

/// Returns the pictures of `frames` over the ROM of `bytes`, in order. `names` are the names of the
/// ROM.
///
/// - `Refused`: the check refuses a frame, or its picture has more than 65,536 words (this
///   project's own choice). The first such frame is described.
/// - `Memory`: an allocation failed.
pub(crate) fn draw_frames<A: Allocator + Copy>(
    alloc: A,
    bytes: &[u8],
    names: &[RomName],
    frames: &[NamedFrame],
) -> Result<Vec<Vec<Stroke, A>, A>, Unlaid<A>>
    requires { All IsLent frames.now }
    ensures drawn { IfOk result (λ pictures.
        AllZip (IsDrawnFrame bytes.now) frames.now (strokes_of pictures.items)) }
    ensures refused { IfErr result (IsUnlaid (IsUndrawn bytes.now names.now frames.now)) }
{
    let mut checker = Box::new(alloc, Checker::new())?;
    let mut pictures = Vec::new(alloc);
    for frame in frames {
        let picture = match draw_frame(alloc, &mut checker, bytes, names, frame) {
            Ok(picture) => picture,
            Err(unlaid) => return Err(unlaid),
        };
        pictures.push(picture)?;
    }
    Ok(pictures)
}
