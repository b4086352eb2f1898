//! Lines that the program `dvg` writes, in memory: of instructions, ROMs, verdicts, entries, runs
//! and strokes (all formats are this project's own choice). A line is written without taking
//! memory.
#![tactic(auto)]

mod digits;
mod eight_digits;
mod entry_lines;
mod instr_line;
mod line;
mod log_line;
mod log_verdict;
mod moment_verdict;
mod run_line;
mod stroke_lines;
mod svg_line;
mod verdict;

pub use entry_lines::EntryLines;
pub use instr_line::InstrLine;
pub use line::{LINE_WORDS, Line, glyph};
pub use log_verdict::{LogCounts, LogFinding, LogVerdict};
pub use moment_verdict::{MomentVerdict, Reading};
pub use stroke_lines::StrokeLines;
pub use verdict::{BoundedVerdict, Verdict};
