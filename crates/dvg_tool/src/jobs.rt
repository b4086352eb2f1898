//! Which engine does which job.
ghost use Rattle.std.specs.Prelude.{◌≡◌, ◌↔◌, ◌≤◌, IfSome, IsErrOf};
ghost use Rattle.dvg_tool.specs.Jobs.{task_of};
ghost use Rattle.dvg_io.specs.Watching.{failures_of, stream_of};

use crate::checks::{check_bound, check_text};
use crate::lists::{list, list_at};
use crate::outcome::Done;
use crate::plays::{play, play_in};
use crate::plays_svg::play_svg_in;
use crate::reports::reported;
use crate::roms::rom_text;
use dvg_explain::explain;
use dvg_game::game;
use dvg_io::{ToolFault, Watched};
use dvg_job::{Job, LogRule};
use dvg_lay::{check_sketch, draw_sketch, lay_sketch};
use dvg_logs::{torn, torn_all, torn_moments};
use dvg_mem::{Banked, Flat};
use dvg_picture::{picture, picture_svg};
use std::alloc::Allocator;
use std::io::{Read, Write};

/// Does `job` by the engine of its name, from `reader` to `writer`, and returns what is reported of
/// what that returns. Memory is taken from `alloc`.
pub fn perform<A: Allocator + Copy, R: Read, W: Write>(
    alloc: A,
    job: Job,
    reader: &mut Watched<R>,
    writer: &mut Watched<W>,
) -> Result<Done<A>, ToolFault>
    requires fresh_reader { failures_of reader.old ≡ 0 }
    requires fresh_writer { failures_of writer.old ≡ 0 }

    // Where the reader's bytes are known.
    ensures performs { IfSome (R.remaining (stream_of reader.old)) (λ input.
        (task_of job).Means result input (W.contents (stream_of writer.old))
        (W.contents (stream_of writer.new))) }
    ensures took { (task_of job).Takes result (R.remaining (stream_of reader.old))
        (R.remaining (stream_of reader.new)) }

    // Whatever the reader and the writer are.
    ensures unwritten { (task_of job).IsEarly result → writer.new ≡ writer.old }
    ensures reader { IsErrOf result ToolFault.Reader ↔ (failures_of reader.new ≡ 1) }
    ensures writer { IsErrOf result ToolFault.Writer ↔ (failures_of writer.new ≡ 1) }
    ensures stops { (failures_of reader.new ≤ 1) × (failures_of writer.new ≤ 1) }
{
    match job {
        Job::List => reported(list(alloc, reader, writer)),
        Job::ListAt { address } => reported(list_at(alloc, reader, writer, address)),
        Job::Rom => reported(rom_text(alloc, reader, writer)),
        Job::Picture { form } => reported(picture(alloc, reader, writer, form)),
        Job::PictureSvg { percent } => reported(picture_svg(alloc, reader, writer, percent)),
        Job::Check { bound: false } => reported(check_text(alloc, reader, writer)),
        Job::Check { bound: true } => reported(check_bound(alloc, reader, writer)),
        Job::Play { all, banked: false } => reported(play(alloc, reader, writer, all)),
        Job::Play { all, banked: true } => {
            reported(play_in::<Banked<A>, R, W>(alloc, reader, writer, all))
        }
        Job::PlaySvg {
            banked: false,
            show,
        } => reported(play_svg_in::<Flat<A>, R, W>(alloc, reader, writer, show)),
        Job::PlaySvg { banked: true, show } => {
            reported(play_svg_in::<Banked<A>, R, W>(alloc, reader, writer, show))
        }
        Job::Torn {
            rule: LogRule::Halves,
            base,
        } => reported(torn(reader, writer, base)),
        Job::Torn {
            rule: LogRule::Moments,
            base,
        } => reported(torn_moments(reader, writer, base)),
        Job::Torn {
            rule: LogRule::AllMoments,
            base,
        } => reported(torn_all(reader, writer, base)),
        Job::Render { show } => reported(draw_sketch(alloc, reader, writer, show)),
        Job::RenderCheck => reported(check_sketch(alloc, reader, writer)),
        Job::Lay { form } => reported(lay_sketch(alloc, reader, writer, form)),
        Job::Explain => reported(explain(alloc, reader, writer)),
        Job::Game { notes } => reported(game(alloc, reader, writer, notes)),
    }
}
