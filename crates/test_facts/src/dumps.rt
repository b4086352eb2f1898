//! What follows from the contracts of dumps.
ghost use Rattle.std.specs.Prelude.{◌≡◌, [], length, IfOk, IsErrOf, IsOk, Some};
ghost use Rattle.dvg_dump.specs.Endings.{end_of};
ghost use Rattle.dvg_dump.specs.Ends.{Complete};
ghost use Rattle.dvg_dump.specs.Memory.{memory_of};

use dvg_code::OutOfMemory;
use dvg_dump::laws::one_end;
use dvg_dump::{Dump, DumpFault, Ending};
use std::alloc::Global;

/// Refuses `bytes`, a dump that lacks a byte, for their size.
pub fn short_dump_is_refused(alloc: Global, bytes: &[u8]) -> Result<Dump, DumpFault>
    requires { length bytes.now ≡ 4095 }
    ensures { IsErrOf result DumpFault.Size }
{
    Dump::new(alloc, bytes)
}

/// A `dump` whose word zero is a HALT has a picture without strokes, after one word, and no
/// allocation fails for it.
pub fn halts_at_once(dump: &Dump) -> Result<Ending, OutOfMemory>
    requires { memory_of dump.now 0 ≡ Some 0xB000 }
    ensures ends { IfOk result (λ ending. end_of ending ≡ Complete 1 []) }
    ensures room { IsOk result }
{
    one_end();
    dump.run()
}
