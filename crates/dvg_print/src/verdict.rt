//! What `check` says of a draft. A verdict with the bound is a type of its own, so `check` can't
//! return one by mistake.
ghost use Rattle.std.specs.Prelude.{◌≡◌};
ghost use Rattle.dvg_print.specs.Verdicts.{without_bound};

use dvg_frame::FrameFault;

/// What the check says of a draft over a ROM.
#[derive(Clone, Copy, Debug, PartialEq, Eq)]
pub enum Verdict {
    /// It may be drawn, and has this many words.
    Good(u16),
    /// It is refused, for this fault.
    Refused(FrameFault),
}

/// What the check says of a draft over a ROM, with the bound of a good one.
#[derive(Clone, Copy, Debug, PartialEq, Eq)]
pub enum BoundedVerdict {
    /// It may be drawn. `words` is how many words it has. `bound` is how many words the generator
    /// fetches in the whole run, word zero included.
    Good { words: u16, bound: u64 },
    /// It is refused, for this fault.
    Refused(FrameFault),
}

impl BoundedVerdict {
    /// Returns the verdict without its bound.
    pub fn verdict(self) -> Verdict
        ensures { result ≡ without_bound self }
    {
        match self {
            BoundedVerdict::Good { words, .. } => Verdict::Good(words),
            BoundedVerdict::Refused(fault) => Verdict::Refused(fault),
        }
    }
}
