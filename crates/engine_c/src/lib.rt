// The engine for C: the functions of crate engine under C's names, with the same promises. A slice passes as a pointer and then a length. c/engine.h has what a
// caller owes.
#![tactic(auto)]

ghost use Rattle.std.specs.Prelude.{◌≡◌};
ghost use Rattle.layout.specs.Lent.{lent_start};
ghost use Rattle.rules.specs.Sheets.{number};
ghost use Rattle.sheet.specs.Writing.{ruled, buffer_of};
ghost use Rattle.engine.specs.Told.{good_number, sheet_number, told_step, told_rehearsal};

// BAD WORLD for bytes that are no good world.
#[unsafe(no_mangle)]
pub extern "C" fn world_good(w: &[u8]) -> u8
    ensures { result ≡ good_number w.now }
{
    engine::world_good(w)
}

#[unsafe(no_mangle)]
pub extern "C" fn world_start(w: &mut [u8], mask: u8) -> u8
    ensures answer { result ≡ (lent_start w.old mask).answer }
    ensures buffer { w.new ≡ (lent_start w.old mask).buffer }
{
    engine::world_start(w, mask)
}

// An accepted step's columns go into the first nine bytes of `told`; where it is shorter, NO ROOM, so that no event is lost.
#[unsafe(no_mangle)]
pub extern "C" fn world_step(w: &mut [u8], kind: u8, id: u8, value: u32, told: &mut [u8]) -> u8
    ensures answer { result ≡ (told_step w.old kind id value told.old).answer }
    ensures buffer { w.new ≡ (told_step w.old kind id value told.old).buffer }
    ensures columns { told.new ≡ (told_step w.old kind id value told.old).told }
{
    engine::world_step(w, kind, id, value, told)
}

// BAD SHEET for bytes that are no sheet.
#[unsafe(no_mangle)]
pub extern "C" fn sheet_check(sheet: &[u8]) -> u8
    ensures { result ≡ sheet_number sheet.now }
{
    engine::sheet_check(sheet)
}

// A sheet of n steps takes 6 + 8 * n bytes.
#[unsafe(no_mangle)]
pub extern "C" fn sheet_write(
    buf: &mut [u8],
    mask: u8,
    kinds: &[u8],
    ids: &[u8],
    values: &[u32],
) -> u8
    ensures answer { result ≡ number (ruled buf.old mask kinds.now ids.now values.now) }
    ensures left { buf.new
        ≡ buffer_of buf.old (ruled buf.old mask kinds.now ids.now values.now) }
{
    engine::sheet_write(buf, mask, kinds, ids, values)
}

// Of an accepted sheet, the record's length goes into the first four bytes of `told`; where it is shorter, NO ROOM.
#[unsafe(no_mangle)]
pub extern "C" fn sheet_rehearse(
    sheet: &[u8],
    world: &mut [u8],
    out: &mut [u8],
    told: &mut [u8],
) -> u8
    ensures answer { result ≡ (told_rehearsal sheet.now world.old out.old told.old).answer }
    ensures last { world.new ≡ (told_rehearsal sheet.now world.old out.old told.old).last }
    ensures printed { out.new ≡ (told_rehearsal sheet.now world.old out.old told.old).printed }
    ensures length { told.new ≡ (told_rehearsal sheet.now world.old out.old told.old).told }
{
    engine::sheet_rehearse(sheet, world, out, told)
}
