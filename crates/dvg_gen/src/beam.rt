//! The beam, and what an instruction does to it.
ghost use Rattle.std.specs.Prelude.{◌≡◌, ◌+◌, ◌*◌, ◌%◌, ◌<◌, ◌≤◌, IfSome, option_to_list};
ghost use Rattle.dvg_code.specs.Ranges.{InRange};
ghost use Rattle.dvg_code.specs.declared.instr.Instr.{Instr};
ghost use Rattle.dvg_gen.specs.Drawing as spec;
ghost use Rattle.dvg_gen.specs.Position.{IsStroke};

use crate::stroke::Stroke;
use dvg_code::{Code, Instr};
use std::marker::Model;

// The number of positions along x, and along y: 4,096 screen units of 512 each.
pub(crate) const CIRCLE: u32 = 2_097_152;

/// Where the beam stands, in 1/512 of a screen unit, and the global scale.
///
/// Positions are exact, and go round: past the edge at 4,096 units the beam comes in at the other
/// one. Nothing is rounded or clipped (this project's own choice).
#[derive(Clone, Copy, Debug, PartialEq, Eq)]
pub struct Beam {
    /// The position along x, below 2,097,152.
    pub x: u32,
    /// The position along y, below 2,097,152.
    pub y: u32,
    /// The global scale, 0 to 15.
    pub scale: u8,
}

/// Contracts see the three numbers, which are in range.
impl Model for Beam {
    ghost use Rattle.dvg_gen.specs.Position.{BeamState, IsBeam};

    ghost Value = { BeamState };

    ghost view = { λ beam. record { x = beam.x; y = beam.y; scale = beam.scale } };

    ghost invariant = { λ beam. IsBeam beam.x beam.y beam.scale };

    ghost inverse = { λ state. record { x = state.x; y = state.y; scale = state.scale } };
}

impl Beam {
    /// Returns the beam that LABS leaves: at `x` and `y` in screen units, 0 to 4095, with the
    /// global scale `scale`, 0 to 15.
    pub fn place(x: u16, y: u16, scale: u8) -> Beam
        requires { InRange (Instr.Labs x y scale) }
        ensures { result ≡ spec.placed x y scale }
    {
        Beam {
            x: 512 * u32::from(x),
            y: 512 * u32::from(y),
            scale,
        }
    }

    /// Moves the beam as `code` says, and returns the stroke that it draws, if any.
    ///
    /// The effective scale is the sum of the global and the local scale, modulo 16. At 0 to 9 it
    /// doubles a move that many times; at 10 to 15 the beam doesn't move (this project's own
    /// choice). A vector of intensity 1 to 15 draws one stroke, even where it doesn't move the
    /// beam. Instructions other than LABS, VCTR and SVEC leave the beam as it is.
    #[inline(always)]
    pub fn step(&mut self, code: &Code) -> Option<Stroke>
        ensures moved { self.new ≡ spec.moved self.old code.now }
        ensures drawn { option_to_list result ≡ spec.drawn self.old code.now }
        ensures in_range { IfSome result IsStroke }
    {
        match code.instr() {
            Instr::Vctr { scale, dx, dy, z } => self.slide(dx, dy, unit(self.scale, scale), z),
            Instr::Svec { scale, dx, dy, z } => {
                let unit = 256 * unit(self.scale, scale);
                self.slide(i16::from(dx), i16::from(dy), unit, z)
            }
            Instr::Labs { x, y, scale } => {
                *self = Beam::place(x, y, scale);
                None
            }
            Instr::Halt | Instr::Jsrl(_) | Instr::Rtsl | Instr::Jmpl(_) => None,
        }
    }

    // Moves the beam by `dx` and `dy` times `unit`. Returns the stroke of intensity `z`, or `None`
    // where `z` is 0.
    fn slide(&mut self, dx: i16, dy: i16, unit: u32, z: u8) -> Option<Stroke>
        requires { unit ≤ 131072 }
        ensures moved { self.new ≡ spec.slid self.old dx dy unit }
        ensures drawn { option_to_list result ≡ spec.line self.old self.new z }
        ensures in_range { z ≤ 15 → IfSome result IsStroke }
    {
        let (x0, y0) = (self.x, self.y);
        self.x = shifted(x0, dx, unit);
        self.y = shifted(y0, dy, unit);
        if z == 0 {
            return None;
        }
        Some(Stroke {
            x0,
            y0,
            x1: self.x,
            y1: self.y,
            z,
        })
    }
}

// Returns how far a magnitude of 1 moves the beam, at the scales `global` and `local`, in 1/512 of
// a screen unit.
fn unit(global: u8, local: u8) -> u32
    requires { global + local ≤ 255 }
    ensures exact { result ≡ spec.unit ((global + local) % 16) }
    ensures small { result ≤ 512 }
{
    let effective = (global + local) % 16;
    if effective <= 9 { 1 << effective } else { 0 }
}

// Returns the position `from`, moved by `by` times `unit` round the circle.
fn shifted(from: u32, by: i16, unit: u32) -> u32
    requires { unit ≤ 131072 }
    ensures moved { result ≡ spec.shifted from by unit }
    ensures inside { result < 2097152 }
{
    let moved = i64::from(from) + i64::from(by) * i64::from(unit);
    moved.rem_euclid(i64::from(CIRCLE)) as u32
}
