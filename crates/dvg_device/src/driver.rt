//! What a world keeps of its driver, in a number.
ghost use Rattle.std.specs.Prelude.{◌≡◌, ◌<◌, ◌≤◌};
ghost use Rattle.dvg_device.specs.Resuming.{driver_in, driver_number, fields_of, half_bit, half_in};
ghost use Rattle.dvg_device.specs.Resuming.{phase_in, phase_number, state_of};

use crate::reply::bit;
use dvg_driver::{DriverState, Phase};
use dvg_frame::Draft;
use dvg_mem::Half;

/// All that a world keeps of its driver, but the operations of the frame that is being written, and
/// whether a strobe is under way.
///
/// As a number its lowest byte is 38. The phase stands in bits 8 to 15, by the order of `Phase`.
/// Bit 16 says whether the current half is half 1, 17 whether the driver has flipped, 18 whether
/// the frame is laid out for half 1, and 19 whether a strobe is under way. The number of bytes that
/// are still to be written stands in bits 24 to 39. Other bits may have any value.
#[derive(Clone, Copy, Debug, PartialEq, Eq)]
pub struct DriverFields {
    /// How far the driver is.
    pub phase: Phase,
    /// The current half.
    pub half: Half,
    /// Whether it has flipped since its reset.
    pub flipped: bool,
    /// The half that the frame is laid out for.
    pub frame_half: Half,
    /// How many bytes of the frame are still to be written.
    pub left: u16,
    /// Whether a strobe is under way.
    pub strobe_sent: bool,
}

impl DriverFields {
    // Returns the fields of `state`, and that a strobe is under way where `strobe_sent`.
    pub(crate) fn of(state: &DriverState, strobe_sent: bool) -> DriverFields
        ensures { result ≡ fields_of state.now strobe_sent }
    {
        DriverFields {
            phase: state.phase,
            half: state.half,
            flipped: state.flipped,
            frame_half: state.frame_half,
            left: state.left,
            strobe_sent,
        }
    }

    // Returns the state of a driver with these fields whose frame is `frame`.
    pub(crate) fn state(self, frame: Draft) -> DriverState
        ensures { result ≡ state_of self frame }
    {
        DriverState {
            phase: self.phase,
            half: self.half,
            flipped: self.flipped,
            frame,
            frame_half: self.frame_half,
            left: self.left,
        }
    }

    /// Returns the fields in `number`, or `None` where its phase is that of none.
    pub(crate) fn in_number(number: u64) -> Option<DriverFields>
        ensures { result ≡ driver_in number }
    {
        Some(DriverFields {
            phase: phase_in(number / 0x100 % 0x100)?,
            half: half_in(number / 0x1_0000),
            flipped: number / 0x2_0000 % 2 == 1,
            frame_half: half_in(number / 0x4_0000),
            left: (number / 0x100_0000 % 0x1_0000) as u16,
            strobe_sent: number / 0x8_0000 % 2 == 1,
        })
    }

    /// Returns the fields as a number.
    pub(crate) fn number(self) -> u64
        ensures { result ≡ driver_number self }
    {
        38 + 0x100 * phase_number(self.phase)
            + 0x1_0000 * half_bit(self.half)
            + 0x2_0000 * u64::from(bit(self.flipped))
            + 0x4_0000 * half_bit(self.frame_half)
            + 0x8_0000 * u64::from(bit(self.strobe_sent))
            + 0x100_0000 * u64::from(self.left)
    }
}

// Returns the number of `phase`.
fn phase_number(phase: Phase) -> u64
    ensures value { result ≡ phase_number phase }
    ensures small { result < 7 }
{
    match phase {
        Phase::Start => 0,
        Phase::Booting => 1,
        Phase::Resting => 2,
        Phase::Writing => 3,
        Phase::Flipping => 4,
        Phase::Waiting => 5,
        Phase::Sending => 6,
    }
}

// Returns the phase of the number `n`, if there is one.
fn phase_in(n: u64) -> Option<Phase>
    ensures { result ≡ phase_in n }
{
    match n {
        0 => Some(Phase::Start),
        1 => Some(Phase::Booting),
        2 => Some(Phase::Resting),
        3 => Some(Phase::Writing),
        4 => Some(Phase::Flipping),
        5 => Some(Phase::Waiting),
        6 => Some(Phase::Sending),
        _ => None,
    }
}

// Returns 1 for half 1, and 0 for half 0.
fn half_bit(half: Half) -> u64
    ensures value { result ≡ half_bit half }
    ensures small { result ≤ 1 }
{
    match half {
        Half::H0 => 0,
        Half::H1 => 1,
    }
}

// Returns half 1 where `n` is odd, and else half 0.
fn half_in(n: u64) -> Half
    ensures { result ≡ half_in n }
{
    if n % 2 == 1 { Half::H1 } else { Half::H0 }
}
