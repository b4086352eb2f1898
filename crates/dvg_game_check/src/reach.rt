//! Which addresses an instruction may read or write, and whether it may.
ghost use Rattle.std.specs.Prelude.{◌≡◌, ◌+◌, ◌*◌, ◌%◌, ◌&&◌, not};
ghost use Rattle.dvg_game_words.specs.Checker as rules;
ghost use Rattle.dvg_game_words.specs.Checker.{all_under};
ghost use Rattle.dvg_game_words.specs.Machine as machine;
ghost use Rattle.dvg_game_check.specs.Meant.{place_meant};
ghost use Rattle.dvg_game_check.specs.Rules.{level_meant, reached_by, test_meant};

use crate::kind::Operand;
use crate::note::Level;

/// What is asked of each address that an instruction may read or write.
#[derive(Clone, Copy)]
pub enum Test {
    /// No read of it sends the generator's strobe.
    NoStrobe,
    /// Code of this level may write it.
    Writable(Level),
    /// It is none of the driver's bytes but `dvg_y` and `dvg_x`.
    NotOwn,
}

/// Returns whether `dvg_y` and `dvg_x` are there.
pub fn is_operand(a: u16) -> bool
    ensures { result ≡ machine.is_operand a }
{
    0x1B <= a && a < 0x1F
}

/// Returns whether another byte of the driver's is there.
pub fn is_own(a: u16) -> bool
    ensures { result ≡ machine.is_own a }
{
    (0x10 <= a && a < 0x21) && !is_operand(a)
}

/// Returns whether the generator's strobe is there, or its mirror.
pub fn is_strobe(a: u16) -> bool
    ensures { result ≡ rules.is_strobe a }
{
    0x3000 <= a % 0x8000 && a % 0x8000 < 0x3200
}

/// Returns whether an output is there.
pub fn is_output(a: u16) -> bool
    ensures { result ≡ rules.is_output a }
{
    a == 0x3200
        || (a == 0x3400
            || (a == 0x3600 || (a == 0x3A00 || (a == 0x3E00 || (0x3C00 <= a && a < 0x3C06)))))
}

/// Returns whether the game's RAM or an output is there.
pub fn is_free(a: u16) -> bool
    ensures { result ≡ rules.is_free a }
{
    a < 0x10 || ((0x21 <= a && a < 0x100) || ((0x200 <= a && a < 0x400) || is_output(a)))
}

/// Returns whether code of this level may write there.
pub fn may_write(level: Level, a: u16) -> bool
    ensures { result ≡ rules.may_write (level_meant level) a }
{
    match level {
        Level::Main => is_free(a) || (is_operand(a) || is_own(a)),
        Level::Sub => is_free(a) || is_operand(a),
        Level::Nmi => is_free(a),
    }
}

/// Returns whether an address passes a test.
pub fn passes(test: Test, a: u16) -> bool
    ensures { result ≡ test_meant test a }
{
    match test {
        Test::NoStrobe => !is_strobe(a),
        Test::Writable(level) => may_write(level, a),
        Test::NotOwn => !is_own(a),
    }
}

// Returns whether each of 256 addresses passes a test.
fn all_pass(test: Test, from: u16) -> bool
    ensures { result ≡ all_under 256 (λ k. test_meant test ((from + k) % 65536)) }
{
    for k in 0..256u32 {
        if !passes(test, ((u32::from(from) + k) % 65536) as u16) {
            return false;
        }
    }
    true
}

/// Returns whether each address passes a test that an instruction with these bytes may reach.
pub fn reached(place: Operand, low: u8, word: u16, test: Test) -> bool
    ensures { result ≡ reached_by (place_meant place) low word (test_meant test) }
{
    match place {
        Operand::ZeroPage => passes(test, u16::from(low)),
        Operand::ZeroPageIndexed => all_pass(test, 0),
        Operand::Absolute => passes(test, word),
        Operand::AbsoluteIndexed => all_pass(test, word),
    }
}
