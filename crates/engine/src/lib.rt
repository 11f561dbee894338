// The engine for C and Rust: byte slices and numbers only. Crate engine_c exports it to C.
#![tactic(auto)]

ghost use Rattle.std.specs.Prelude.{◌≡◌};
ghost use Rattle.rows.specs.Bytes.{placed, be32};
ghost use Rattle.layout.specs.Lent.{lent_start};
ghost use Rattle.rules.specs.Sheets.{number};
ghost use Rattle.sheet.specs.Writing.{ruled, buffer_of};
ghost use Rattle.world.specs.Tracing.{columns_of};
ghost use Rattle.engine.specs.Told.{number_told, good_number, sheet_number, told_bytes, told_step, told_rehearsal};

use rows::Field;
use rules::{Refusal, Step};
use world::run::Columns;

// What a step tells: event 1, who 1, count 2, desk 1, value or view 4.
const COLUMNS: usize = 9;

// What a rehearsal tells: how long the record is.
const LENGTH: usize = 4;

// (Like a row of a trace without its answer, which C gets as the number.)
fn put_columns(told: &mut [u8], c: Columns)
    ensures { told.new ≡ placed told.old 0 (told_bytes (columns_of c)) }
{
    let fields = [
        Field::Byte(c.event),
        Field::Byte(c.who),
        Field::U16(c.count),
        Field::Byte(c.desk),
        Field::U32(c.last),
    ];
    rows::put_row(told, 0, &fields);
}

fn put_length(told: &mut [u8], n: u32)
    ensures { told.new ≡ placed told.old 0 (be32 n) }
{
    rows::put_row(told, 0, &[Field::U32(n)]);
}

// 0 for what is done, and else the refusal's number.
fn answer_number(refused: Option<Refusal>) -> u8
    ensures { result ≡ number_told refused }
{
    refused.map_or(0, Refusal::number)
}

// BAD WORLD for bytes that are no good world.
pub fn world_good(w: &[u8]) -> u8
    ensures { result ≡ good_number w.now }
{
    answer_number((!good::is_good(w)).then_some(Refusal::BadWorld))
}

pub fn world_start(w: &mut [u8], mask: u8) -> u8
    ensures answer { result ≡ (lent_start w.old mask).answer }
    ensures buffer { w.new ≡ (lent_start w.old mask).buffer }
{
    world::start(w, mask).number
}

// An accepted step's columns go into the first nine bytes of `told`; where it is shorter, NO ROOM, so that no event is lost.
pub fn world_step(w: &mut [u8], kind: u8, id: u8, value: u32, told: &mut [u8]) -> u8
    ensures answer { result ≡ (told_step w.old kind id value told.old).answer }
    ensures buffer { w.new ≡ (told_step w.old kind id value told.old).buffer }
    ensures columns { told.new ≡ (told_step w.old kind id value told.old).told }
{
    if told.len() < COLUMNS {
        return answer_number(Some(Refusal::NoRoom));
    }
    let answer = world::step(w, Step { kind, id, value });
    if answer.number == 0 {
        put_columns(told, world::run::columns_of(answer));
    }
    answer.number
}

// BAD SHEET for bytes that are no sheet.
pub fn sheet_check(sheet: &[u8]) -> u8
    ensures { result ≡ sheet_number sheet.now }
{
    answer_number(sheet::check(sheet).err())
}

// A sheet of n steps takes 6 + 8 * n bytes.
pub fn sheet_write(buf: &mut [u8], mask: u8, kinds: &[u8], ids: &[u8], values: &[u32]) -> u8
    ensures answer { result ≡ number (ruled buf.old mask kinds.now ids.now values.now) }
    ensures left { buf.new
        ≡ buffer_of buf.old (ruled buf.old mask kinds.now ids.now values.now) }
{
    answer_number(sheet::write(buf, mask, kinds, ids, values).err())
}

// Of an accepted sheet, the record's length goes into the first four bytes of `told`; where it is shorter, NO ROOM.
pub fn sheet_rehearse(sheet: &[u8], world: &mut [u8], out: &mut [u8], told: &mut [u8]) -> u8
    ensures answer { result ≡ (told_rehearsal sheet.now world.old out.old told.old).answer }
    ensures last { world.new ≡ (told_rehearsal sheet.now world.old out.old told.old).last }
    ensures printed { out.new ≡ (told_rehearsal sheet.now world.old out.old told.old).printed }
    ensures length { told.new ≡ (told_rehearsal sheet.now world.old out.old told.old).told }
{
    if told.len() < LENGTH {
        return answer_number(Some(Refusal::NoRoom));
    }
    let done = rehearsal::rehearse(sheet, world, out);
    let number = answer_number(done.refused);
    if number == 0 {
        put_length(told, done.length as u32);
    }
    number
}
