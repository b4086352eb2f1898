//! What a device is asked for. Questions are apart, as they made ticks slower. A move is told by
//! three answers, so that nothing is kept from one to the next.
ghost use Rattle.std.specs.Prelude.{◌≡◌};
ghost use Rattle.dvg_device.specs.Requests.{byte_of, flag_of, handed, line_in, operation_of};
ghost use Rattle.dvg_device.specs.Requests.{request_of, resuming, telling};

use crate::driver::DriverFields;
use crate::judging::JudgeLine;
use crate::operation::Operation;

/// What a generator alone is asked, or that of a world, which changes nothing. Of these `Byte`,
/// `Driver` and `Operation` are asked of a world alone.
#[derive(Clone, Copy, Debug, PartialEq, Eq)]
pub enum Question {
    /// Which move would this byte make, or `None`, by the flag, if it were handed over next?
    Move(Option<u8>),
    /// Where would the beam be after this byte, or `None`, by the flag?
    MoveTo(Option<u8>),
    /// Where is the beam?
    Beam,
    /// What else does it hold: its global scale, a low byte, a first word, return addresses?
    Holds,
    /// Which return address has this number? The newest one has the number 0.
    ReturnTo(u64),
    /// Which part of its state has this number? The first one has the number 0.
    State(u64),
    /// Which byte does the RAM hold at this byte address?
    Byte(u64),
    /// What does it keep of its driver, but the operations of the frame that is being written?
    Driver,
    /// Which operation has this number in the frame that is being written? The first one has the
    /// number 0.
    Operation(u64),
}

/// What a device is asked for. As a number, its lowest byte is the code, which stands first here,
/// and what it brings stands above: a flag in bit 8, a byte in bits 16 to 23, a count in bits 24 to
/// 39, and a byte address, or the number of a stroke, a return address or a part of a state, from
/// bit 8 on. Bits that mean nothing may have any value.
#[derive(Clone, Copy, Debug, PartialEq, Eq)]
pub enum Request {
    /// 0: the driver is handed the draft.
    Offer,
    /// 1: the driver is asked to have the published frame drawn again.
    Redraw,
    /// 2: the driver does one action. A driver alone reads what is handed in here; a world reads
    /// its own.
    Tick {
        /// The flag: the HALT flag, true where the generator is halted.
        halted: bool,
        /// The byte: byte 001 of the RAM.
        byte1: u8,
    },
    /// 3: a start strobe reaches the generator. A generator alone begins a run; in a world there is
    /// no effect unless the driver has sent one.
    Strobe,
    /// 4: the generator fetches a byte: the low byte of a word, and then its high byte. A generator
    /// alone is handed this one, or `None`, by the flag, where no memory answers; a world reads its
    /// own.
    Fetch(Option<u8>),
    /// 5: a reset of the generator alone.
    ResetGenerator,
    /// 6: a reset of the processor alone, which is one of the driver.
    ResetProcessor,
    /// 7: a reset of the whole system, which takes no memory. The RAM holds the 2,048 bytes that
    /// were staged.
    ResetAll,
    /// 8: one more operation for the draft. The kind stands in bits 8 to 15, the scale in 16 to 23,
    /// the intensity in 24 to 31, x in 32 to 47, and y in 48 to 63.
    Push(Operation),
    /// 9: the draft has no operation any more.
    ClearDraft,
    /// 10: a byte is staged as often as the count says.
    Stage {
        /// The byte.
        byte: u8,
        /// The count, of 16 bits.
        count: u16,
    },
    /// 11: no byte is staged any more.
    Unstage,
    /// 12: a world begins. The first 2,048 bytes that were staged are those of its RAM, and the
    /// other 2,048 or 4,096 those of its ROM.
    OpenWorld,
    /// 13: a driver alone begins, just reset. The 2,048 or 4,096 bytes that were staged are those
    /// of the ROM over which its drafts are checked.
    OpenDriver,
    /// 14: a generator alone begins, halted, with the beam at 0, 0 and scale 0.
    OpenGenerator,
    /// 15: what is open ends, and its memory is given back, with that of the staged bytes and of
    /// the strokes. The draft is empty again.
    Close,
    /// 16: of a generator alone, which byte is wanted next?
    Wants,
    /// 17: how many strokes did the newest run draw that came to a HALT?
    CountStrokes,
    /// 18: where does the stroke of this number begin? The first one has the number 0.
    StrokeFrom(u64),
    /// 19: where does the stroke of this number end?
    StrokeTo(u64),
    /// 20: what is the intensity of the stroke of this number?
    StrokeIntensity(u64),
    /// 21: a judge of moments begins, which was told nothing. The requests 5, 6 and 7 tell it that
    /// this reset was done.
    OpenJudge,
    /// 22: a judge is told this line of a log. What stands above the code is the number of the
    /// reply that the line's event had: its kind in bits 8 to 15, its address in 16 to 31, and its
    /// value in 32 to 47. A kind above 16 is that of no line.
    Tell(JudgeLine),
    /// 23 to 28, and then 31 to 33, in the order of `Question`: what is asked of a generator alone,
    /// or of a world.
    Ask(Question),
    /// 29: a generator alone begins in the state that was told, which is forgotten. Before any part
    /// was told, that is the state of a new one. Strokes of a finished run are no part of it.
    Resume,
    /// 30: a generator alone whose stack wraps begins, as hardware goes on: halted, with the beam
    /// at 0, 0 and scale 0, and four return addresses of 0.
    OpenWrapping,
    /// 34: a generator alone whose stack wraps begins in the state that was told, which is
    /// forgotten. That state has four return addresses, the oldest first: the registers.
    ResumeWrapping,
    /// 35: a part of a state is told. Its word stands above the code, so the number of the reply
    /// that tells a part is the request by which another device is told it. `StatePart` says which
    /// there are.
    TellState(u64),
    /// 38: the world that is open goes on in the state that was told, which is forgotten. Its
    /// generator's parts were told; the 2,048 bytes that are staged are those of its RAM; and the
    /// draft is the frame that is being written. What it keeps of its driver stands above the code:
    /// the number of the reply to `Driver` is this request. Its ROM and its picture stay.
    ResumeWorld(DriverFields),
    /// Any other number.
    Unknown,
}

impl Request {
    // Returns the request that tells a judge of `line`, or `Unknown` where there is no line.
    fn telling(line: Option<JudgeLine>) -> Request
        ensures { result ≡ telling line }
    {
        match line {
            Some(line) => Request::Tell(line),
            None => Request::Unknown,
        }
    }

    // Returns the request that resumes a world with `fields`, or `Unknown` where there are none.
    fn resuming(fields: Option<DriverFields>) -> Request
        ensures { result ≡ resuming fields }
    {
        match fields {
            Some(fields) => Request::ResumeWorld(fields),
            None => Request::Unknown,
        }
    }

    /// Returns the request that `number` is.
    #[inline(always)]
    pub fn of(number: u64) -> Request
        ensures { result ≡ request_of number }
    {
        match number % 0x100 {
            0 => Request::Offer,
            1 => Request::Redraw,
            2 => Request::Tick {
                halted: flag_in(number),
                byte1: byte_in(number),
            },
            3 => Request::Strobe,
            4 => Request::Fetch(handed(flag_in(number), byte_in(number))),
            5 => Request::ResetGenerator,
            6 => Request::ResetProcessor,
            7 => Request::ResetAll,
            8 => Request::Push(operation(number)),
            9 => Request::ClearDraft,
            10 => Request::Stage {
                byte: byte_in(number),
                count: (number / 0x100_0000 % 0x1_0000) as u16,
            },
            11 => Request::Unstage,
            12 => Request::OpenWorld,
            13 => Request::OpenDriver,
            14 => Request::OpenGenerator,
            15 => Request::Close,
            16 => Request::Wants,
            17 => Request::CountStrokes,
            18 => Request::StrokeFrom(number / 0x100),
            19 => Request::StrokeTo(number / 0x100),
            20 => Request::StrokeIntensity(number / 0x100),
            21 => Request::OpenJudge,
            22 => Request::telling(line_in(number)),
            23 => Request::Ask(Question::Move(handed(flag_in(number), byte_in(number)))),
            24 => Request::Ask(Question::MoveTo(handed(flag_in(number), byte_in(number)))),
            25 => Request::Ask(Question::Beam),
            26 => Request::Ask(Question::Holds),
            27 => Request::Ask(Question::ReturnTo(number / 0x100)),
            28 => Request::Ask(Question::State(number / 0x100)),
            29 => Request::Resume,
            30 => Request::OpenWrapping,
            31 => Request::Ask(Question::Byte(number / 0x100)),
            32 => Request::Ask(Question::Driver),
            33 => Request::Ask(Question::Operation(number / 0x100)),
            34 => Request::ResumeWrapping,
            35 => Request::TellState(number / 0x100),
            38 => Request::resuming(DriverFields::in_number(number)),
            _ => Request::Unknown,
        }
    }
}

// Returns the flag in `number`.
#[inline(always)]
fn flag_in(number: u64) -> bool
    ensures { result ≡ flag_of number }
{
    number / 0x100 % 2 == 1
}

// Returns the byte in `number`, above a flag.
#[inline(always)]
fn byte_in(number: u64) -> u8
    ensures { result ≡ byte_of number }
{
    (number / 0x1_0000 % 0x100) as u8
}

// Returns `byte`, or `None` where `flag` says that no memory answers.
#[inline(always)]
fn handed(flag: bool, byte: u8) -> Option<u8>
    ensures { result ≡ handed flag byte }
{
    if flag { None } else { Some(byte) }
}

// Returns the operation in `number`.
fn operation(number: u64) -> Operation
    ensures { result ≡ operation_of number }
{
    Operation {
        kind: (number / 0x100 % 0x100) as u8,
        scale: (number / 0x1_0000 % 0x100) as u8,
        z: (number / 0x100_0000 % 0x100) as u8,
        x: (number / 0x1_0000_0000 % 0x1_0000) as u16,
        y: (number / 0x1_0000_0000_0000 % 0x1_0000) as u16,
    }
}

// Returns the line of a log in `number`, if its kind is that of one.
fn line_in(number: u64) -> Option<JudgeLine>
    ensures { result ≡ line_in number }
{
    let address = (number / 0x1_0000 % 0x1_0000) as u16;
    let value = (number / 0x1_0000_0000 % 0x1_0000) as u16;
    match number / 0x100 % 0x100 {
        6 => Some(JudgeLine::Wrote(address, (value % 0x100) as u8)),
        10 => Some(JudgeLine::Started),
        12 => Some(JudgeLine::Low(address, (value % 0x100) as u8)),
        13 => Some(JudgeLine::Fetched(address, value)),
        14 => Some(JudgeLine::Done(address, value)),
        15 => Some(JudgeLine::Ended),
        kind if kind < 17 => Some(JudgeLine::Passed),
        _ => None,
    }
}
