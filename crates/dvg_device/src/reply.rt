//! What a device replies.
ghost use Rattle.std.specs.Prelude.{◌≡◌, ◌≤◌, ◌<◌, ◌+◌, ◌*◌};
ghost use Rattle.dvg_device.specs.Bits.{bit};
ghost use Rattle.dvg_device.specs.Replies.{acted, came, judged, next, number_of, packed};
ghost use Rattle.dvg_device.specs.Replies.{placed, pushing, refusal};

use crate::driver::DriverFields;
use crate::operation::Operation;
use dvg_driver::Action;
use dvg_frame::{FrameFault, Place};
use dvg_log::Entry;

/// How the newest run of a log stands, of which a judge was told a line.
#[derive(Clone, Copy, Debug, PartialEq, Eq)]
pub enum RunState {
    /// No run is open.
    NoRun,
    /// A run is open, and so far it is consistent.
    OneMoment,
    /// A run is open, and it is mixed.
    NoMoment,
    /// The line is the HALT of a consistent run.
    Whole,
    /// The line is the HALT of a mixed run.
    Torn,
}

/// What a device replies. The lowest byte of a reply's number is its kind, which stands first here.
/// Bits 8 to 23 are an address, bits 24 to 39 are a value, and the bits above are 0. Some replies
/// differ:
///
/// - `Count`, `Point` and `Intensity` have no kind: the number is what was asked for;
/// - `Driver` and `Operation` are the numbers of requests;
/// - `State` has a word above its kind;
/// - `Onward` has the byte that is wanted next above its value.
#[derive(Clone, Copy, Debug, PartialEq, Eq)]
pub enum Reply {
    /// 0 to 17: what came of it, as a log shows it; the strokes of a run that came to a HALT can be
    /// asked for. In the order of `Entry`, which says what each is:
    ///
    /// - 0, `Offered`;
    /// - 1, `Refused`: the value is the fault's number, 1 to 9, as `dvg check` has it, and 0x100
    ///   more where its place is in the ROM; the address is the number of an operation, or there a
    ///   word address;
    /// - 2, `Busy`, and nothing has changed;
    /// - 3, `Asked`;
    /// - 4, `NothingPublished`, and nothing has changed;
    /// - 5 to 9, `Acted`: a peek at byte 001; a write of a value at a byte address; a read of the
    ///   HALT flag, 1 where it showed the generator halted, else 0; the sending of a strobe; or
    ///   nothing;
    /// - 10, `Started`;
    /// - 11, `NoStrobe`;
    /// - 12, `Low`: a word address, and the low byte as the value;
    /// - 13, `Fetched`, and 14, `Done`: a word address, and the word as the value;
    /// - 15, `Broke`: a word address, and as the value the fault's number, 1 to 3, as `dvg play`
    ///   has it;
    /// - 16, `Still`, and nothing has changed;
    /// - 17, `Cleared`: a reset was done, the draft or the staged bytes were cleared, or a part of
    ///   a state was taken.
    Came(Entry<()>),
    /// 10, 12 or 13 from a generator alone: the same as in `Came`, and the run goes on. The byte
    /// that is wanted next is the high byte (`true`) or the low byte of the word at this address.
    /// Bits 40 to 55 are its byte address: twice the word's, plus 1 for the high byte. Bit 60 is 1.
    Onward(Entry<()>, u16, bool),
    /// 18: the operation has this number in the draft.
    Pushed(u16),
    /// 19: the fields are those of no operation, and nothing has changed.
    NoOperation,
    /// 20: the draft has 511 operations, or more than 6,144 bytes would be staged. Nothing has
    /// changed.
    Full,
    /// 21: this many bytes are staged.
    Staged(u16),
    /// 22: it is open.
    Opened,
    /// 23: the number of staged bytes isn't one that it takes, and nothing has changed.
    WrongSize,
    /// 24: nothing is open, or not any more.
    Closed,
    /// 25: the byte that is wanted next is the high byte (1) or the low byte (0) of the word at
    /// this address.
    Wants(u16, bool),
    /// This many strokes.
    Count(u64),
    /// A place, in 1/512 of a screen unit, below 2,097,152 each: x in bits 0 to 31, and y in bits
    /// 32 to 63.
    Point(u32, u32),
    /// An intensity, 1 to 15, and 0 where there is no such stroke.
    Intensity(u8),
    /// 26 to 30, in the order of `RunState`: how the newest run stands, of which a judge was told
    /// this line, and whether the line reads what was not written (1, else 0).
    Judged(RunState, bool),
    /// 31: a move, by the instruction whose first word is at this address, with this intensity, 0
    /// (blank) to 15. The value is the intensity, and 0x100 more where a LABS places the beam.
    Moves(u16, u8, bool),
    /// 32: there is no move, or no such return address or byte.
    Nothing,
    /// 33: what a generator holds: the first word of the instruction whose second word comes next,
    /// or 0, and bits: the global scale in bits 0 to 3; in bit 4 whether a low byte waits, in bit 5
    /// whether there is such a first word, and in bit 6 whether the stack wraps; and from bit 8 on
    /// how many return addresses there are, 0 to 4. The word stands in the place of the address,
    /// and the bits are the value.
    Holds(u16, u16),
    /// 34: a return address.
    ReturnsTo(u16),
    /// 35: a part of a state. Its word, below 2^56, stands from bit 8 on.
    State(u64),
    /// 36: what was told is no part that suits the state before it, or what resumes can't be in
    /// that state. Nothing has changed, but that a world forgets what was told.
    NoState,
    /// 37: the byte of a RAM at this byte address, as the value.
    Byte(u16, u8),
    /// 38: what a world keeps of its driver. The number is that of the request `ResumeWorld` with
    /// these fields.
    Driver(DriverFields),
    /// An operation of the frame that is being written. The number is that of the request that
    /// pushes it.
    Operation(Operation),
    /// 254: there is no such request, or what is open has no such request. Nothing has changed.
    Unknown,
    /// 255: there was no memory for it, and nothing has changed.
    NoMemory,
}

impl Reply {
    /// Returns the number of the reply.
    #[inline(always)]
    pub fn number(self) -> u64
        ensures { result ≡ number_of self }
    {
        match self {
            Reply::Came(entry) => came(entry),
            Reply::Onward(entry, address, high) => came(entry) + next(address, high),
            Reply::Pushed(i) => packed(18, 0, i),
            Reply::NoOperation => packed(19, 0, 0),
            Reply::Full => packed(20, 0, 0),
            Reply::Staged(count) => packed(21, 0, count),
            Reply::Opened => packed(22, 0, 0),
            Reply::WrongSize => packed(23, 0, 0),
            Reply::Closed => packed(24, 0, 0),
            Reply::Wants(address, false) => packed(25, address, 0),
            Reply::Wants(address, true) => packed(25, address, 1),
            Reply::Count(n) => n,
            Reply::Point(x, y) => u64::from(x) + 0x1_0000_0000 * u64::from(y),
            Reply::Intensity(z) => u64::from(z),
            Reply::Judged(run, false) => judged(run, 0),
            Reply::Judged(run, true) => judged(run, 1),
            Reply::Moves(address, z, placed) => packed(31, address, move_bits(z, placed)),
            Reply::Nothing => packed(32, 0, 0),
            Reply::Holds(first, bits) => packed(33, first, bits),
            Reply::ReturnsTo(address) => packed(34, address, 0),
            Reply::State(word) => 35 + 0x100 * (word % 0x100_0000_0000_0000),
            Reply::NoState => packed(36, 0, 0),
            Reply::Byte(address, byte) => packed(37, address, u16::from(byte)),
            Reply::Driver(fields) => fields.number(),
            Reply::Operation(operation) => pushing(operation),
            Reply::Unknown => packed(254, 0, 0),
            Reply::NoMemory => packed(255, 0, 0),
        }
    }
}

// Returns the number of the request that pushes `operation`.
fn pushing(operation: Operation) -> u64
    ensures { result ≡ pushing operation }
{
    8 + 0x100 * u64::from(operation.kind)
        + 0x1_0000 * u64::from(operation.scale)
        + 0x100_0000 * u64::from(operation.z)
        + 0x1_0000_0000 * u64::from(operation.x)
        + 0x1_0000_0000_0000 * u64::from(operation.y)
}

// Returns 1 where `flag` is true, else 0.
pub(crate) fn bit(flag: bool) -> u16
    ensures value { result ≡ bit flag }
    ensures small { result ≤ 1 }
{
    if flag { 1 } else { 0 }
}

// Returns the intensity `z` of a move, and whether a LABS places the beam, in bits.
fn move_bits(z: u8, placed: bool) -> u16
    ensures { result ≡ z + 0x100 * bit placed }
{
    u16::from(z) + 0x100 * bit(placed)
}

// Returns the bits that say which byte is wanted next: the high byte of the word at `address` where
// `high`, else the low one.
#[inline(always)]
fn next(address: u16, high: bool) -> u64
    ensures value { result ≡ next address high }
    ensures small { result ≤ 0x11FF_FF00_0000_0000 }
{
    0x1000_0000_0000_0000 + 0x100_0000_0000 * (2 * u64::from(address) + u64::from(bit(high)))
}

// Returns the number of the reply of a judge, by which the newest run stands as `run` says, with
// `value`.
#[inline(always)]
fn judged(run: RunState, value: u16) -> u64
    ensures { result ≡ judged run value }
{
    match run {
        RunState::NoRun => packed(26, 0, value),
        RunState::OneMoment => packed(27, 0, value),
        RunState::NoMoment => packed(28, 0, value),
        RunState::Whole => packed(29, 0, value),
        RunState::Torn => packed(30, 0, value),
    }
}

// Returns the number of `entry`, what came of a request.
#[inline(always)]
fn came(entry: Entry<()>) -> u64
    ensures value { result ≡ came entry }
    ensures small { result < 0x100_0000_0000 }
{
    match entry {
        Entry::Offered => packed(0, 0, 0),
        Entry::Refused(fault) => refusal(fault),
        Entry::Busy => packed(2, 0, 0),
        Entry::Asked => packed(3, 0, 0),
        Entry::NothingPublished => packed(4, 0, 0),
        Entry::Acted(action) => acted(action),
        Entry::Started => packed(10, 0, 0),
        Entry::NoStrobe => packed(11, 0, 0),
        Entry::Low(address, byte) => packed(12, address, u16::from(byte)),
        Entry::Fetched(address, word) => packed(13, address, word),
        Entry::Done(address, word, ()) => packed(14, address, word),
        Entry::Broke(address, fault) => packed(15, address, u16::from(fault.number())),
        Entry::Still => packed(16, 0, 0),
        Entry::Cleared => packed(17, 0, 0),
    }
}

// Returns the number of `kind`, `address` and `value`.
#[inline(always)]
fn packed(kind: u8, address: u16, value: u16) -> u64
    ensures value { result ≡ packed kind address value }
    ensures small { result < 0x100_0000_0000 }
{
    u64::from(kind) + 0x100 * u64::from(address) + 0x100_0000 * u64::from(value)
}

// Returns the number of a refusal with the fault number `fault`, at `place`, if the fault names
// one.
fn placed(fault: u8, place: Option<Place>) -> u64
    ensures value { result ≡ placed fault place }
    ensures small { result < 0x100_0000_0000 }
{
    match place {
        None => packed(1, 0, u16::from(fault)),
        Some(Place::InFrame(i)) => packed(1, i, u16::from(fault)),
        Some(Place::InRom(a)) => packed(1, a, 0x100 + u16::from(fault)),
    }
}

// Returns the number of a refusal with `fault`.
fn refusal(fault: FrameFault) -> u64
    ensures value { result ≡ refusal fault }
    ensures small { result < 0x100_0000_0000 }
{
    placed(fault.number(), fault.place())
}

// Returns the number of `action`.
#[inline(always)]
fn acted(action: Action) -> u64
    ensures value { result ≡ acted action }
    ensures small { result < 0x100_0000_0000 }
{
    match action {
        Action::Peek => packed(5, 0, 0),
        Action::Wrote(a, byte) => packed(6, a, u16::from(byte)),
        Action::Read(false) => packed(7, 0, 0),
        Action::Read(true) => packed(7, 0, 1),
        Action::Sent => packed(8, 0, 0),
        Action::Idle => packed(9, 0, 0),
    }
}
