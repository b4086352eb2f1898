//! What is told of a program.
use dvg_game_check::Verdict;
use std::alloc::{Allocator, Global};

/// What is told of one instruction: a line of text.
#[derive(Debug, Drop)]
pub struct PlaceLine<A: Allocator = Global> {
    /// The address of the instruction.
    pub at: u32,
    /// The bytes of the line: the address, and what is wrong there.
    pub bytes: Vec<u8, A>,
}

/// What is told of a program.
#[derive(Debug, Drop)]
pub struct Told<A: Allocator = Global> {
    /// What the judge says of it.
    pub verdict: Verdict,
    /// A line for each instruction of which something is told, the causes first.
    pub lines: Vec<PlaceLine<A>, A>,
    /// What is told after these lines.
    pub more: Vec<u8, A>,
}

impl<A: Allocator> Told<A> {
    ghost use Rattle.std.specs.Prelude.{◌≡◌};
    ghost use Rattle.dvg_game.specs.Telling.{opening_of};

    /// Returns how the text begins.
    pub fn opening(&self) -> &'static [u8]
        ensures { result.now ≡ opening_of self.now.verdict }
    {
        match self.verdict {
            Verdict::Keeps(_) => b"no run of these bytes tears a picture\n",
            Verdict::Unseen(_, _) => {
                b"keeps to the rules, but not all that it offers and puts is seen: \
                it may tear a picture\n"
            }
            Verdict::Refused(_) => b"refused: ",
            Verdict::Unsettled(_) => b"not accepted: ",
        }
    }
}
