// A whole run of a sheet: a row of its trace for each step, and the last world. Document 01, "Sheets and the printed record".
ghost use Rattle.std.specs.Prelude.{◌≡◌, true, false, [], ◌∷◌, ◌*◌, ◌≤◌, length};
ghost use Rattle.rows.specs.Bytes.{placed};
ghost use Rattle.rules.specs.Sheets.{is_bad_sheet};
ghost use Rattle.rules.specs.Runs.{fields, outcomes, last_world};
ghost use Rattle.layout.specs.Image.{image, world_at, good_bytes};
ghost use Rattle.sheet.specs.Reading.{steps_from};
ghost use Rattle.world.specs.Answer.{report_of, columns};
ghost use Rattle.world.specs.Tracing.{columns_of, trace_row_width, columns_bytes, trace_rows, Stepped, trace_answer, trace_world, trace_left};

use super::{Answer, Report};
use rows::Field;
use rules::{Refusal, Step};
use stamps::Pair;

// ---- columns

// "event, who, stamp count, stamp desk [..], and value (events 2, 3) or view (event 1), zeros where none"
#[derive(Clone, Copy)]
pub struct Columns {
    pub event: u8,
    pub who: u8,
    pub count: u16,
    pub desk: u8,
    pub last: u32,
}

fn ended(event: u8, who: u8, pair: Pair) -> Columns
    ensures { columns_of result ≡ event ∷ who ∷ pair.stamp.count ∷ pair.stamp.desk ∷ pair.value ∷ [] }
{
    Columns {
        event,
        who,
        count: pair.stamp.count,
        desk: pair.stamp.desk,
        last: pair.value,
    }
}

pub fn columns_of(a: Answer) -> Columns
    ensures { columns_of result ≡ fields (report_of a.report).event (report_of a.report).who }
{
    match a.report {
        Report::Nothing => Columns {
            event: 0,
            who: 0,
            count: 0,
            desk: 0,
            last: 0,
        },
        Report::Opened { relay, view } => Columns {
            event: 1,
            who: relay,
            count: 0,
            desk: 0,
            last: view as u32,
        },
        Report::ReadDone { desk, pair } => ended(2, desk, pair),
        Report::WriteDone { desk, pair } => ended(3, desk, pair),
    }
}

// ---- a row of the trace: where each column stands in it, and how wide it is, as specs/Tracing.antt has it

pub const TRACE_ANSWER: usize = 0;

pub const TRACE_EVENT: usize = TRACE_ANSWER + layout::BYTE_WIDTH;

pub const TRACE_WHO: usize = TRACE_EVENT + layout::BYTE_WIDTH;

pub const TRACE_COUNT: usize = TRACE_WHO + layout::BYTE_WIDTH;

pub const TRACE_DESK: usize = TRACE_COUNT + layout::U16_WIDTH;

pub const TRACE_LAST: usize = TRACE_DESK + layout::BYTE_WIDTH;

pub const TRACE_ROW: usize = TRACE_LAST + layout::U32_WIDTH;

// (Like the columns that engine tells, with the answer before them: a row of a trace has a width and places of its own.)
fn put_row(rows: &mut [u8], at: usize, a: Answer)
    ensures { rows.new ≡ placed rows.old at (columns_bytes (columns a)) }
{
    let c = columns_of(a);
    let fields = [
        Field::Byte(a.number),
        Field::Byte(c.event),
        Field::Byte(c.who),
        Field::U16(c.count),
        Field::Byte(c.desk),
        Field::U32(c.last),
    ];
    rows::put_row(rows, at, &fields);
}

// ---- steps

// One step of a good world, and its row.
fn turn(w: &mut [u8], rows: &mut [u8], at: usize, k: Step)
    requires { good_bytes w.old ≡ true }
    ensures { Stepped (world_at w.old) k at rows.old w.new rows.new }
{
    let a = Answer::from(super::step_good(w, k));
    put_row(rows, at, a);
}

// "It is read from the front one step at a time"
fn turns(sheet: &[u8], w: &mut [u8], rows: &mut [u8])
    requires w_value { (good_bytes w.old ≡ true) × (is_bad_sheet sheet.now ≡ false) }
    requires trace_row_width_in_bounds { length (steps_from sheet.now 6) * trace_row_width ≤ length rows.old }
    ensures world { w.new ≡ image (last_world (world_at w.old) (steps_from sheet.now 6)) }
    ensures rows { rows.new
        ≡ placed rows.old 0 (trace_rows (outcomes (world_at w.old) (steps_from sheet.now 6))) }
{
    let mut at = 0;
    for step in sheet::reader::new(sheet) {
        turn(w, rows, at, step);
        at += TRACE_ROW;
    }
}

// ---- the whole

// The trace of a sheet's run from the start of its mask, laid from the front of `rows`, and the last world; how many rows those are is answered. Whether there
// is room is decided before anything is done.
pub fn trace(sheet: &[u8], world: &mut [u8], rows: &mut [u8]) -> Result<usize, Refusal>
    ensures answer { result ≡ trace_answer sheet.now world.old rows.old }
    ensures last { world.new ≡ trace_world sheet.now world.old rows.old }
    ensures rows { rows.new ≡ trace_left sheet.now world.old rows.old }
{
    if world.len() != layout::WORLD_WIDTH {
        return Err(Refusal::BadWorld);
    }
    let found = sheet::check(sheet)?;
    if rows.len() < found.steps * TRACE_ROW {
        return Err(Refusal::NoRoom);
    }
    super::start(world, found.mask);
    turns(sheet, world, rows);
    Ok(found.steps)
}
