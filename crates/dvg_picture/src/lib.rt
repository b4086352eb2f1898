//! The engines `picture` and `picture_svg` of the program `dvg`: the run over a dump of vector
//! memory as text, and what it draws as SVG.
#![tactic(auto)]

mod engine;
mod moves;
mod svg;
mod undrawn;
mod writes;

pub use dvg_dump::Outcome;
pub use engine::picture;
pub use svg::picture_svg;
pub use undrawn::Undrawn;
