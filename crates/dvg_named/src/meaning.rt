//! What the text of a sketch denotes, with the lines that it comes from.
use dvg_frame::Op;
use dvg_rows::Source;

/// A frame of a sketch.
#[derive(Clone, Copy)]
pub struct NamedFrame<'a> {
    /// Its name, if it has one.
    pub name: Option<&'a [u8]>,
    /// The line that begins it. A frame before the first section begins with the text's first line.
    pub begin: Source<'a>,
    /// Its operations, in order.
    pub ops: &'a [Op],
    /// The line of each operation.
    pub sources: &'a [Source<'a>],
}

/// A name of the ROM.
#[derive(Clone, Copy)]
pub struct RomName<'a> {
    /// The name.
    pub name: &'a [u8],
    /// The word address that it names.
    pub address: u16,
}
