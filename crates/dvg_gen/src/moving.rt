//! What an instruction did to the beam. A LABS is a move of intensity 0 with a mark, as it loads
//! counters of whole units, and a blank vector moves them.
ghost use Rattle.std.specs.Prelude.{◌≡◌, ◌<◌, ◌≤◌, IfSome, option_to_list};
ghost use Rattle.dvg_gen.specs.Drawing.{moved};
ghost use Rattle.dvg_gen.specs.Moving as spec;
ghost use Rattle.dvg_gen.specs.Position.{IsBeam};

use crate::beam::Beam;
use dvg_code::{Code, Instr};

/// What an instruction did to the beam, also where nothing is seen: a VCTR or an SVEC moved it, or
/// a LABS placed it. Positions are in 1/512 of a screen unit, below 2,097,152.
#[derive(Clone, Copy, Debug, PartialEq, Eq)]
pub struct Move {
    /// Where it begins along x.
    pub x0: u32,
    /// Where it begins along y.
    pub y0: u32,
    /// Where it ends along x.
    pub x1: u32,
    /// Where it ends along y.
    pub y1: u32,
    /// Its intensity, 0 (blank) to 15. That of a LABS is 0.
    pub z: u8,
    /// Whether a LABS placed the beam there.
    pub placed: bool,
    /// The address of the instruction's first word, below 4,096.
    pub address: u16,
}

impl Move {
    /// Returns what `code`, whose first word is at `address`, does to `beam`. `None` means that it
    /// is a HALT, JSRL, RTSL or JMPL, which leaves the beam as it is.
    pub fn of(beam: &Beam, code: &Code, address: u16) -> Option<Move>
        ensures moves { option_to_list result ≡ spec.made beam.now address code.now }
        ensures in_range { address < 4096 → IfSome result spec.IsMove }
    {
        match code.instr() {
            Instr::Vctr { z, .. } | Instr::Svec { z, .. } => {
                Some(going(beam, code, z, false, address))
            }
            Instr::Labs { .. } => Some(going(beam, code, 0, true, address)),
            Instr::Halt | Instr::Jsrl(_) | Instr::Rtsl | Instr::Jmpl(_) => None,
        }
    }
}

// Returns the move of intensity `z` that `code`, whose first word is at `address`, makes from
// `beam`; `placed` says whether it is a LABS.
fn going(beam: &Beam, code: &Code, z: u8, placed: bool, address: u16) -> Move
    ensures value { result ≡ spec.going beam.now (moved beam.now code.now) z placed address }
    ensures in_range { z ≤ 15 → address < 4096 → spec.IsMove result }
{
    let Beam { x, y, scale } = *beam;
    let mut after = Beam { x, y, scale };
    after.step(code);
    Move {
        x0: x,
        y0: y,
        x1: after.x,
        y1: after.y,
        z,
        placed,
        address,
    }
}
