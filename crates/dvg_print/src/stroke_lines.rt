//! Lines of strokes, of which most begin where the one before ended.
ghost use Rattle.std.specs.Prelude.{◌≡◌, ◌≤◌, ◌<◌, ◌+◌, ◌++◌, ◌∷◌, [], decimal, drop, IsTrue};
ghost use Rattle.dvg_print.specs.Lines.{spaced};
ghost use Rattle.dvg_print.specs.Numbering.{IsSmall};
ghost use Rattle.dvg_print.specs.Shows.{position_text, stroke_line};

use crate::digits::{BLOCK_BYTES, put_byte, put_part, put_position};
use crate::eight_digits::{Digits, GREAT, digits_of, put_digits};
use dvg_gen::Stroke;
use std::marker::Model;

/// What the line of a stroke ends with, by its intensity: four bytes, the lowest one first. Those
/// from the space on count.
static ENDS: [u32; 16] = [
    0x0A30_2030,
    0x0A31_2030,
    0x0A32_2030,
    0x0A33_2030,
    0x0A34_2030,
    0x0A35_2030,
    0x0A36_2030,
    0x0A37_2030,
    0x0A38_2030,
    0x0A39_2030,
    0x0A30_3120,
    0x0A31_3120,
    0x0A32_3120,
    0x0A33_3120,
    0x0A34_3120,
    0x0A35_3120,
];

// A point, with the texts of its numbers.
#[derive(Drop)]
struct Point {
    x: Digits,
    y: Digits,
}

/// The lines that `play` writes of strokes, one at a time. Each is made from its end to its front,
/// so no byte of a number is moved. The texts of where it ends are kept, as the next one mostly
/// begins there.
#[derive(Drop)]
pub struct StrokeLines {
    // The line is at the end of these bytes.
    bytes: [u8; BLOCK_BYTES],
    start: usize,
    // Where a stroke before ended, or 0, 0.
    last: Point,
}

/// Contracts see the line.
impl Model for StrokeLines {
    ghost use Rattle.std.specs.Prelude.{◌≤◌, List, ℕ, drop};

    ghost Value = { List ℕ };

    ghost view = { λ stroke_lines. drop stroke_lines.start stroke_lines.bytes };

    ghost invariant = { λ stroke_lines. stroke_lines.start ≤ 96 };
}

// Whether each number of `stroke` has a text of eight bytes, and its intensity one in the table.
#[inline(always)]
fn is_small(stroke: &Stroke) -> bool
    ensures { IsTrue result → IsSmall stroke.now }
{
    stroke.x0.max(stroke.y0).max(stroke.x1).max(stroke.y1) < GREAT && stroke.z < 16
}

// Returns the point at `x` and `y`, with the texts of both.
#[inline(always)]
fn point_at(x: u32, y: u32) -> Point
    requires x { x < 100000000 }
    requires y { y < 100000000 }
    ensures x { result.x.number ≡ x }
    ensures y { result.y.number ≡ y }
{
    Point {
        x: digits_of(x),
        y: digits_of(y),
    }
}

// Puts `point` before `end`. Returns where it begins.
#[inline(always)]
fn put_point(bytes: &mut [u8; BLOCK_BYTES], end: usize, point: &Point) -> usize
    requires room { 17 ≤ end }
    requires inside { end ≤ 96 }
    ensures before { result ≤ end }
    ensures few { end ≤ result + 17 }
    ensures text { drop result bytes.new
        ≡ position_text point.now.x.number point.now.y.number ++ drop end bytes.old }
{
    let at = put_digits(bytes, end, &point.y);
    let space = put_byte(bytes, at, b' ');
    put_digits(bytes, space, &point.x)
}

// Puts where `stroke` begins before `end`. Mostly that is `last`, where the stroke before ended.
// Returns where the text begins.
#[inline(always)]
fn put_start(bytes: &mut [u8; BLOCK_BYTES], end: usize, stroke: &Stroke, last: &Point) -> usize
    requires small { IsSmall stroke.now }
    requires room { 17 ≤ end }
    requires inside { end ≤ 96 }
    ensures before { result ≤ end }
    ensures text { drop result bytes.new
        ≡ position_text stroke.now.x0 stroke.now.y0 ++ drop end bytes.old }
{
    if stroke.x0 == last.x.number && stroke.y0 == last.y.number {
        return put_point(bytes, end, last);
    }
    put_point(bytes, end, &point_at(stroke.x0, stroke.y0))
}

// Puts a space, the intensity `z` and a line end before `end`. Returns where the space is.
#[inline(always)]
fn put_intensity(bytes: &mut [u8; BLOCK_BYTES], end: usize, z: u8) -> usize
    requires intensity { z < 16 }
    requires room { 4 ≤ end }
    requires inside { end ≤ 96 }
    ensures before { result ≤ end }
    ensures few { end ≤ result + 4 }
    ensures text { drop result bytes.new ≡ spaced (decimal z ∷ []) ++ 10 ∷ drop end bytes.old }
{
    bytes[end - 4..end].copy_from_slice(&ENDS[z as usize].to_le_bytes());
    if z < 10 { end - 3 } else { end - 4 }
}

// Puts the line of `stroke`, which may be any, before `end`. Returns where it begins.
#[inline(never)]
fn put_any(bytes: &mut [u8; BLOCK_BYTES], end: usize, stroke: &Stroke) -> usize
    requires room { 56 ≤ end }
    requires inside { end ≤ 96 }
    ensures before { result ≤ end }
    ensures few { end ≤ result + 56 }
    ensures text { drop result bytes.new ≡ stroke_line stroke.now ++ drop end bytes.old }
{
    let newline = put_byte(bytes, end, b'\n');
    let to = put_part(bytes, newline, u32::from(stroke.z));
    let middle = put_position(bytes, to, stroke.x1, stroke.y1);
    let space = put_byte(bytes, middle, b' ');
    put_position(bytes, space, stroke.x0, stroke.y0)
}

// Puts the line of `stroke`, whose numbers are small, at the end of `bytes`. `last` is where the
// stroke before ended, and becomes where this one ends. Returns where the line begins.
#[inline(always)]
fn put_small(bytes: &mut [u8; BLOCK_BYTES], stroke: &Stroke, last: &mut Point) -> usize
    requires { IsSmall stroke.now }
    ensures inside { result ≤ 96 }
    ensures text { drop result bytes.new ≡ stroke_line stroke.now }
{
    let to = put_intensity(bytes, BLOCK_BYTES, stroke.z);
    let end = point_at(stroke.x1, stroke.y1);
    let middle = put_point(bytes, to, &end);
    let space = put_byte(bytes, middle, b' ');
    let start = put_start(bytes, space, stroke, last);
    *last = end;
    start
}

impl StrokeLines {
    /// Returns a line with no bytes.
    pub fn new() -> StrokeLines
        ensures { result ≡ [] }
    {
        StrokeLines {
            bytes: [0; BLOCK_BYTES],
            start: BLOCK_BYTES,
            last: point_at(0, 0),
        }
    }

    /// Returns the bytes of the line.
    #[inline(always)]
    pub fn as_bytes(&self) -> &[u8]
        ensures { result.now ≡ self.now }
    {
        &self.bytes[self.start..]
    }

    /// Becomes the line of `stroke`.
    #[inline(always)]
    pub fn become_line(&mut self, stroke: &Stroke)
        ensures { self.new ≡ stroke_line stroke.now }
    {
        if !is_small(stroke) {
            self.start = put_any(&mut self.bytes, BLOCK_BYTES, stroke);
            return;
        }
        self.start = put_small(&mut self.bytes, stroke, &mut self.last);
    }
}
