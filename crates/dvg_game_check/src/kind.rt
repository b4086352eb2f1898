//! The kinds of the 6502's instructions.
ghost use Rattle.std.specs.Prelude.{◌≡◌, slice_index};
ghost use Rattle.dvg_game_words.specs.Kinds.{kind_of, size as bytes_at};
ghost use Rattle.dvg_game_check.specs.Meant.{kind_meant, place_meant};
ghost use Rattle.dvg_game_check.specs.Letters.{lettered};

use Kind::{
    Branch, Call, Finish, Jump, Pull, PullFlags, Push, PushFlags, Quiet, Reads, Return, Stores,
    Transfer, Wild,
};
use Operand::{Absolute, AbsoluteIndexed, ZeroPage, ZeroPageIndexed};
use Register::{A, X, Y};
use Sets::{Nothing, Only};

/// A register.
#[derive(Clone, Copy, Debug, PartialEq, Eq)]
pub enum Register {
    A,
    X,
    Y,
}

/// Which byte is read or written: zp, zp,X or zp,Y, abs, abs,X or abs,Y.
#[derive(Clone, Copy, Debug, PartialEq, Eq)]
pub enum Operand {
    ZeroPage,
    ZeroPageIndexed,
    Absolute,
    AbsoluteIndexed,
}

/// Which register is set.
#[derive(Clone, Copy, Debug, PartialEq, Eq)]
pub enum Sets {
    Nothing,
    Only(Register),
}

/// What an instruction does to PC, S, A, X, Y and memory, whatever it computes and reads.
#[derive(Clone, Copy, Debug, PartialEq, Eq)]
pub enum Kind {
    /// It has this many bytes, sets flags and this register, and reads in the zero page, through a
    /// pointer, or nothing.
    Quiet(Sets, u8),
    /// The same, and it reads this byte.
    Reads(Sets, Operand),
    /// TAX, TXA, TAY, TYA.
    Transfer(Register, Register),
    /// It writes one byte.
    Stores(Operand),
    Push,
    PushFlags,
    Pull,
    PullFlags,
    Branch,
    Jump,
    Call,
    Return,
    Finish,
    /// It may go anywhere, or write anywhere.
    Wild,
}

/// A letter for the kind of each opcode, 32 to a line.
const KINDS: &[u8; 256] = b"\
    .a...az.FaA..ls.ba...aw.QL...Lv.\
    ca..qaz.HaA.ols.ba...aw.QL...Lv.\
    ta...az.PaA.jls.ba...aw.QL...Lv.\
    ra...az.GaA..ls.ba...aw.QL...Lv.\
    ....zzz.Y.3.sss.b...www.4v...v..\
    yax.yax.2a1.nlm.ba..yax.QLX.NLM.\
    qq..qqz.YqX.oos.bq...qw.QO...Ov.\
    qa..qaz.XaQ.ols.ba...aw.QL...Lv.";

// Returns the kind of a letter.
fn lettered(letter: u8) -> Kind
    ensures { kind_meant result ≡ lettered letter }
{
    match letter {
        b'a' => Quiet(Only(A), 2),
        b'x' => Quiet(Only(X), 2),
        b'y' => Quiet(Only(Y), 2),
        b'q' => Quiet(Nothing, 2),
        b'A' => Quiet(Only(A), 1),
        b'X' => Quiet(Only(X), 1),
        b'Y' => Quiet(Only(Y), 1),
        b'Q' => Quiet(Nothing, 1),
        b'l' => Reads(Only(A), Absolute),
        b'm' => Reads(Only(X), Absolute),
        b'n' => Reads(Only(Y), Absolute),
        b'o' => Reads(Nothing, Absolute),
        b'L' => Reads(Only(A), AbsoluteIndexed),
        b'M' => Reads(Only(X), AbsoluteIndexed),
        b'N' => Reads(Only(Y), AbsoluteIndexed),
        b'O' => Reads(Nothing, AbsoluteIndexed),
        b'z' => Stores(ZeroPage),
        b'w' => Stores(ZeroPageIndexed),
        b's' => Stores(Absolute),
        b'v' => Stores(AbsoluteIndexed),
        b'1' => Transfer(A, X),
        b'2' => Transfer(A, Y),
        b'3' => Transfer(X, A),
        b'4' => Transfer(Y, A),
        b'P' => Push,
        b'F' => PushFlags,
        b'G' => Pull,
        b'H' => PullFlags,
        b'b' => Branch,
        b'j' => Jump,
        b'c' => Call,
        b'r' => Return,
        b't' => Finish,
        _ => Wild,
    }
}

// Returns the letter of an opcode.
fn letter_of(opcode: u8) -> u8
    ensures { result ≡ slice_index KINDS.now opcode }
{
    KINDS[usize::from(opcode)]
}

/// Returns the kind of an opcode.
pub fn kind_of(opcode: u8) -> Kind
    ensures { kind_meant result ≡ kind_of opcode }
{
    lettered(letter_of(opcode))
}

/// Returns how many bytes an instruction has that reads or writes this byte.
pub fn size(place: Operand) -> u8
    ensures { result ≡ bytes_at (place_meant place) }
{
    match place {
        ZeroPage | ZeroPageIndexed => 2,
        Absolute | AbsoluteIndexed => 3,
    }
}
