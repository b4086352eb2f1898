//! The words of the ROM's sections, in the bytes of a ROM.
ghost use Rattle.std.specs.Prelude.{◌≡◌, ◌⊎◌, ◌+◌, ◌-◌, ◌*◌, ◌/◌, ◌<◌, ◌≤◌, ℕ, List, [], All};
ghost use Rattle.std.specs.Prelude.{length, IfNone, IfSome, OnSome};
ghost use Rattle.dvg_mem.specs.declared.TheConstants.{LARGE_ROM_BYTES, MEMORY_BYTES, ROM_END};
ghost use Rattle.dvg_code.specs.declared.instr.Instr.TheVariants.{Jmpl, Jsrl};
ghost use Rattle.dvg_code.specs.Spelling.{canon};
ghost use Rattle.dvg_frame.specs.declared.op.OpKind.TheVariants.{Call, Jump};
ghost use Rattle.dvg_frame.specs.Ops.{IsOp};
ghost use Rattle.dvg_read.specs.RomTexts.{IsRomOf, RomText};
ghost use Rattle.dvg_rows.specs.HeldRows.{rows_of};
ghost use Rattle.dvg_named.specs.LaidValues.{AreLow, IsAddressIn, NoneNames, laid_section};
ghost use Rattle.dvg_named.specs.LaidValues.{laid_sections};
ghost use Rattle.dvg_named.specs.Meanings.{IsEncoded};
ghost use Rattle.dvg_named.specs.SketchFaults.{IsUngiven};
ghost use Rattle.dvg_named.specs.Places.{IsAddress, Laid, laid_end};
ghost use Rattle.dvg_named.specs.FirstUnknown.{WantsNone};
ghost use Rattle.dvg_named.specs.RomBytes.{ArePut, KnowsRom, LieInRom, MayBeEncoded};
ghost use Rattle.dvg_named.specs.RomBytes.{MayStandInRom, PutsSection, TellsSections};
ghost use Rattle.dvg_rows.specs.RowValues.{doing_of};
ghost use Rattle.dvg_rows.specs.Rows.{plainly};
ghost use Rattle.dvg_named.specs.Ungiven.{WantsInRom, in_rom};

use crate::laid::{LaidNames, LaidRows, address_of};
use dvg_code::{Code, Instr, encode};
use dvg_frame::OpKind;
use dvg_mem::ROM_END;
use dvg_read::put_word;
use dvg_rows::Doing;
use std::alloc::Allocator;

/// Puts the canonical words of the laid `sections` into `rom`, the 2,048 or 4,096 bytes of a ROM.
/// Each section goes to its address, the low byte of a word first. So bytes of which lines `rom`
/// gave the words become those that the same words would have made of them, given by further lines.
/// Returns `None` where a row needs a name that isn't given; what was put before it stays. No
/// memory is taken. The time grows with the number of rows.
pub(crate) fn put_sections<A: Allocator + Copy>(
    rom: &mut [u8],
    sections: &LaidNames<'_, '_, '_, A>,
) -> Option<()>
    requires size { (length rom.old ≡ MEMORY_BYTES) ⊎ (length rom.old ≡ LARGE_ROM_BYTES) }
    requires lie { LieInRom (ROM_END - length rom.old / 2) (laid_sections sections.now) }
    requires may { All (λ section. MayStandInRom section.rows) (laid_sections sections.now) }
    ensures stated { OnSome result ((stated : RomText) → IsRomOf stated rom.old
        → TellsSections (laid_sections sections.now) (laid_sections sections.now) stated rom.new) }
    ensures unknown { IfNone result (¬ KnowsRom (laid_sections sections.now)) }
{
    let first = ROM_END as usize - rom.len() / 2;
    for section in sections.sections() {
        let Some(()) = put_section(rom, first, sections, section) else {
            return None;
        };
    }
    Some(())
}

// Puts the words of `section`, one of `sections`, into `rom`, the bytes of a ROM. `first` is the
// word address of the ROM's first word. Returns `None` where a row needs a name that isn't given.
fn put_section<A: Allocator + Copy>(
    rom: &mut [u8],
    first: usize,
    sections: &LaidNames<'_, '_, '_, A>,
    section: &LaidRows,
) -> Option<()>
    requires low { AreLow (laid_sections sections.now) }
    requires start { first ≤ section.now.start }
    requires end { laid_end (laid_section section.now) ≤ ROM_END }
    requires whole { 0x1800 ≤ length rom.old + 2 * first }
    requires may { MayStandInRom (rows_of section.now.rows.now) }
    ensures put { OnSome result (PutsSection sections.now section.now first rom.old rom.new) }
    ensures unknown { IfNone result
        (¬ WantsNone (laid_sections sections.now) (in_rom (rows_of section.now.rows.now))) }
{
    let mut next = section.start - first;
    for row in section.rows {
        if let Some(doing) = &row.doing {
            let Some(code) = code_of(sections, doing) else {
                return None;
            };
            next = put_code(rom, next, code);
        }
    }
    Some(())
}

// Puts the words of `code` into `rom` from `place` on. Returns the place after them. Places are
// counted in words.
fn put_code(rom: &mut [u8], place: usize, code: Code) -> usize
    requires { 2 * (place + length (canon code)) ≤ length rom.old }
    ensures put { ArePut place (canon code) rom.old rom.new }
    ensures next { result ≡ place + length (canon code) }
{
    let spelled = encode(&code);
    let words = spelled.as_slice();
    let mut next = place;
    for word in words {
        put_word(rom, next, *word);
        next += 1;
    }
    next
}

// Returns the instruction of `doing`, which a row of the ROM does. Returns `None` where it needs a
// name that `sections` don't give.
fn code_of<A: Allocator + Copy>(sections: &LaidNames<'_, '_, '_, A>, doing: &Doing) -> Option<Code>
    requires low { AreLow (laid_sections sections.now) }
    requires may { MayBeEncoded (doing_of doing.now) }
    ensures encoded { IfSome result (IsEncoded (laid_sections sections.now) (doing_of doing.now)) }
    ensures ungiven { IfNone result (WantsInRom sections.now doing.now) }
{
    match doing {
        Doing::Plainly(op) => Some(plain_code(op.kind())),
        Doing::Calls(name) => call_of(sections, name),
        Doing::Jumps(name) => jump_of(sections, name),
        Doing::CallsRom(name) => call_of(sections, name),
        Doing::JumpsRom(name) => jump_of(sections, name),
    }
}

// Returns the instruction of an operation of this `kind`, which has no name.
fn plain_code(kind: OpKind) -> Code
    requires op { IsOp kind }
    requires may { MayBeEncoded (plainly kind) }
    ensures { (laid : List Laid) → IsEncoded laid (plainly kind) result }
{
    match kind {
        OpKind::Draw(code) => code,
        OpKind::CallRom(address) => Code::within(Instr::Jsrl(address)),
        OpKind::JumpRom(address) => Code::within(Instr::Jmpl(address)),
        OpKind::Return => Code::within(Instr::Rtsl),
        OpKind::Halt => Code::within(Instr::Halt),
        OpKind::Call(_) | OpKind::Jump(_) => unreachable!(),
    }
}

// Returns the call of `name`, or `None` where `sections` don't give it.
fn call_of<A: Allocator + Copy>(sections: &LaidNames<'_, '_, '_, A>, name: &[u8]) -> Option<Code>
    requires { AreLow (laid_sections sections.now) }
    ensures call { IfSome result (λ code. (address : ℕ) × IsAddressIn sections.now name.now address
        × (code ≡ Jsrl address)) }
    ensures ungiven { IfNone result (NoneNames sections.now name.now) }
{
    match address_of(sections, name) {
        Some(address) => Some(Code::within(Instr::Jsrl(address))),
        None => None,
    }
}

// Returns the jump to `name`, or `None` where `sections` don't give it.
fn jump_of<A: Allocator + Copy>(sections: &LaidNames<'_, '_, '_, A>, name: &[u8]) -> Option<Code>
    requires { AreLow (laid_sections sections.now) }
    ensures jump { IfSome result (λ code. (address : ℕ) × IsAddressIn sections.now name.now address
        × (code ≡ Jmpl address)) }
    ensures ungiven { IfNone result (NoneNames sections.now name.now) }
{
    match address_of(sections, name) {
        Some(address) => Some(Code::within(Instr::Jmpl(address))),
        None => None,
    }
}
