//! Instructions as they are printed.
use crate::program::Program;
use std::fmt;

/// The names of the 6502's documented opcodes, three letters each; `...` is none.
const NAMES: &[u8; 768] = b"\
    brkora.........oraasl...phporaasl......oraasl...\
    bplora.........oraasl...clcora.........oraasl...\
    jsrand......bitandrol...plpandrol...bitandrol...\
    bmiand.........androl...secand.........androl...\
    rtieor.........eorlsr...phaeorlsr...jmpeorlsr...\
    bvceor.........eorlsr...clieor.........eorlsr...\
    rtsadc.........adcror...plaadcror...jmpadcror...\
    bvsadc.........adcror...seiadc.........adcror...\
    ...sta......stystastx...dey...txa...stystastx...\
    bccsta......stystastx...tyastatxs......sta......\
    ldyldaldx...ldyldaldx...tayldatax...ldyldaldx...\
    bcslda......ldyldaldx...clvldatsx...ldyldaldx...\
    cpycmp......cpycmpdec...inycmpdex...cpycmpdec...\
    bnecmp.........cmpdec...cldcmp.........cmpdec...\
    cpxsbc......cpxsbcinc...inxsbcnop...cpxsbcinc...\
    beqsbc.........sbcinc...sedsbc.........sbcinc...";

/// The modes of the opcodes, a letter each, as `mode_of` reads them.
const MODES: &[u8; 256] = b"\
    .(???zz?.#.??aa?r)???xx?.Y???XX?\
    a(??zzz?.#.?aaa?r)???xx?.Y???XX?\
    .(???zz?.#.?aaa?r)???xx?.Y???XX?\
    .(???zz?.#.?jaa?r)???xx?.Y???XX?\
    ?(??zzz?.?.?aaa?r)??xxy?.Y.??X??\
    #(#?zzz?.#.?aaa?r)??xxy?.Y.?XXY?\
    #(??zzz?.#.?aaa?r)???xx?.Y???XX?\
    #(??zzz?.#.?aaa?r)???xx?.Y???XX?";

/// How an instruction names what it takes.
#[derive(Clone, Copy, PartialEq, Eq)]
pub(crate) enum Mode {
    Implied,
    Immediate,
    ZeroPage,
    ZeroPageX,
    ZeroPageY,
    Absolute,
    AbsoluteX,
    AbsoluteY,
    IndirectX,
    IndirectY,
    Relative,
    Indirect,
    /// There is no such opcode.
    Unknown,
}

// Returns the mode of a letter.
fn mode_of(letter: u8) -> Mode {
    match letter {
        b'.' => Mode::Implied,
        b'#' => Mode::Immediate,
        b'z' => Mode::ZeroPage,
        b'x' => Mode::ZeroPageX,
        b'y' => Mode::ZeroPageY,
        b'a' => Mode::Absolute,
        b'X' => Mode::AbsoluteX,
        b'Y' => Mode::AbsoluteY,
        b'(' => Mode::IndirectX,
        b')' => Mode::IndirectY,
        b'r' => Mode::Relative,
        b'j' => Mode::Indirect,
        _ => Mode::Unknown,
    }
}

/// An instruction of a program.
#[derive(Clone, Copy)]
pub(crate) struct Instruction {
    pub at: u32,
    pub opcode: u8,
    pub mode: Mode,
    /// The byte behind the opcode, and the word there.
    pub low: u8,
    pub word: u16,
}

impl Instruction {
    /// Returns the instruction at an address of a program.
    pub(crate) fn new(program: &Program<'_>, at: u32) -> Instruction {
        let opcode = program.byte(at);
        Instruction {
            at,
            opcode,
            mode: mode_of(MODES[usize::from(opcode)]),
            low: program.byte(at.wrapping_add(1)),
            word: program.word(at.wrapping_add(1)),
        }
    }

    /// Returns how many bytes it has.
    pub(crate) fn size(&self) -> u32 {
        match self.mode {
            Mode::Implied | Mode::Unknown => 1,
            Mode::Absolute | Mode::AbsoluteX | Mode::AbsoluteY | Mode::Indirect => 3,
            _ => 2,
        }
    }

    /// Returns where a branch leads.
    fn branch(&self) -> u16 {
        let back = if 128 <= self.low { 65280 } else { 0 };
        let to = self.at.wrapping_add(2 + u32::from(self.low) + back) % 65536;
        to as u16
    }

    /// Returns the address that it names, or where it leads.
    pub(crate) fn operand(&self) -> u16 {
        match self.mode {
            Mode::Absolute | Mode::AbsoluteX | Mode::AbsoluteY | Mode::Indirect => self.word,
            Mode::Relative => self.branch(),
            _ => u16::from(self.low),
        }
    }

    /// Returns the address behind it.
    pub(crate) fn next(&self) -> u32 {
        self.at.wrapping_add(self.size())
    }

    /// Writes its name.
    fn write_name<W: fmt::Write>(&self, f: &mut fmt::Formatter<W>) -> fmt::Result {
        if self.mode == Mode::Unknown {
            return write!(f, "none");
        }
        let from = 3 * usize::from(self.opcode);
        for k in 0..3usize {
            write!(f, "{}", char::from(NAMES[from + k]))?;
        }
        Ok(())
    }
}

impl fmt::Display for Instruction {
    fn fmt<W: fmt::Write>(&self, f: &mut fmt::Formatter<W>) -> fmt::Result {
        self.write_name(f)?;
        let (low, word) = (self.low, self.operand());
        match self.mode {
            Mode::Implied | Mode::Unknown => Ok(()),
            Mode::Immediate => write!(f, " #${low:02X}"),
            Mode::ZeroPage => write!(f, " ${low:02X}"),
            Mode::ZeroPageX => write!(f, " ${low:02X},x"),
            Mode::ZeroPageY => write!(f, " ${low:02X},y"),
            Mode::Absolute | Mode::Relative => write!(f, " ${word:04X}"),
            Mode::AbsoluteX => write!(f, " ${word:04X},x"),
            Mode::AbsoluteY => write!(f, " ${word:04X},y"),
            Mode::IndirectX => write!(f, " (${low:02X},x)"),
            Mode::IndirectY => write!(f, " (${low:02X}),y"),
            Mode::Indirect => write!(f, " (${word:04X})"),
        }
    }
}
