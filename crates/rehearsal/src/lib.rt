// A rehearsal: a sheet's run in the world's buffer, and its printed record, laid from the run's trace. Document 01, "Sheets and the printed record".
#![tactic(auto)]

ghost use Rattle.std.specs.Prelude.{◌≡◌, true, false, ◌+◌, ◌*◌, ◌≤◌, length, get_or};
ghost use Rattle.rules.specs.State.{World, start};
ghost use Rattle.rules.specs.Sending.{waiting_in};
ghost use Rattle.rules.specs.WellFormed.{well_formed};
ghost use Rattle.rules.specs.Sheets.{is_bad_sheet};
ghost use Rattle.rules.specs.Runs.{outcomes, last_world, printed, end_of};
ghost use Rattle.layout.specs.Layout.{world_width};
ghost use Rattle.layout.specs.Image.{image};
ghost use Rattle.sheet.specs.Reading.{steps_from};
ghost use Rattle.record.specs.Lines.{laid, past};
ghost use Rattle.world.specs.Tracing.{bad_sheet, trace_row_width, trace_rows};
ghost use Rattle.rehearsal.specs.Playing.{moved, Begins, Lined, AllLined, answer_by, laid_by, rehearse_answer, world_left, record_left};

use rules::{Refusal, StepKind};
use world::run::{
    TRACE_ANSWER, TRACE_COUNT, TRACE_DESK, TRACE_EVENT, TRACE_LAST, TRACE_ROW, TRACE_WHO,
};

// ---- lines

// The position past the lines, and how many messages the accepted steps delivered and dropped.
#[derive(Clone, Copy)]
struct Tally {
    at: usize,
    delivered: u32,
    dropped: u32,
}

// 1 for an accepted step of that kind, 0 for any other.
fn moved(answer: u8, kind: u8, that: u8) -> u32
    ensures { result ≡ moved answer kind that }
{
    (answer == 0 && kind == that) as u32
}

// "a line a step: number from 1, answer, event, who, stamp count, stamp desk": of the row at `row`. Its answer and the step's kind tell what the step
// delivered and dropped.
fn put_row(rows: &[u8], row: usize, kind: u8, out: &mut [u8], at: usize, number: u32) -> Tally
    requires { row + trace_row_width ≤ length rows.now }
    ensures { Lined rows.now row kind number at out.old out.new result }
{
    let answer = rows::byte_at(rows, row + TRACE_ANSWER);
    let event = rows::byte_at(rows, row + TRACE_EVENT);
    let who = rows::byte_at(rows, row + TRACE_WHO);
    let count = rows::read_u16(rows, row + TRACE_COUNT);
    let desk = rows::byte_at(rows, row + TRACE_DESK);
    let last = rows::read_u32(rows, row + TRACE_LAST);
    let next = record::put_step(out, at, number, answer, event, who, count, desk, last);
    Tally {
        at: next,
        delivered: moved(answer, kind, StepKind::Deliver as u8),
        dropped: moved(answer, kind, StepKind::Drop as u8),
    }
}

// A line for each step of a sheet, whose trace is in `rows`.
fn put_rows(sheet: &[u8], rows: &[u8], out: &mut [u8], at: usize) -> Tally
    requires sheet_value { is_bad_sheet sheet.now ≡ false }
    requires begins { Begins rows.now (trace_rows (outcomes (start (get_or sheet.now 5 0)) (steps_from sheet.now 6))) }
    ensures { AllLined (start (get_or sheet.now 5 0)) (steps_from sheet.now 6) at out.old out.new result }
{
    let mut row = 0;
    let mut number: u32 = 1;
    let mut tally = Tally {
        at,
        delivered: 0,
        dropped: 0,
    };
    for step in sheet::reader::new(sheet) {
        let line = put_row(rows, row, step.kind, out, tally.at, number);
        tally = Tally {
            at: line.at,
            delivered: tally.delivered + line.delivered,
            dropped: tally.dropped + line.dropped,
        };
        number += 1;
        row += TRACE_ROW;
    }
    tally
}

// ---- the whole

// "The first three are counted from the accepted steps, waiting from the last world; sent is the sum of the others."
fn put_totals(w: &[u8], out: &mut [u8], t: Tally) -> usize
    requires { (t.delivered ≤ 8000) × (t.dropped ≤ 8000) }
    ensures position { (W : World) → well_formed W ≡ true → w.now ≡ image W
        → result ≡ past t.at (end_of (t.delivered + t.dropped + waiting_in W.places) t.delivered t.dropped (waiting_in W.places)) }
    ensures bytes { (W : World) → well_formed W ≡ true → w.now ≡ image W
        → out.new
        ≡ laid out.old t.at (end_of (t.delivered + t.dropped + waiting_in W.places) t.delivered t.dropped (waiting_in W.places)) }
{
    let waiting = world::waiting(w);
    record::put_end(
        out,
        t.at,
        t.delivered + t.dropped + waiting,
        t.delivered,
        t.dropped,
        waiting,
    )
}

// Room for the trace of any sheet: 80,000 bytes of the stack.
const ROWS: usize = sheet::MOST * TRACE_ROW;

// An accepted sheet.
fn play(sheet: &[u8], mask: u8, w: &mut [u8], out: &mut [u8]) -> usize
    requires { (length w.old ≡ world_width) × ((is_bad_sheet sheet.now ≡ false) × (mask ≡ get_or sheet.now 5 0)) }
    ensures position { result ≡ past 0 (printed mask (steps_from sheet.now 6)) }
    ensures bytes { out.new ≡ laid out.old 0 (printed mask (steps_from sheet.now 6)) }
    ensures world { w.new ≡ image (last_world (start mask) (steps_from sheet.now 6)) }
{
    let mut rows = [0u8; ROWS];
    let _ = world::run::trace(sheet, w, &mut rows);
    let at = record::put_start(out, mask);
    let t = put_rows(sheet, &rows, out, at);
    put_totals(w, out, t)
}

// A refusal, if it is one, and how many bytes of a record stand in the buffer for it: "For BAD SHEET it prints `bad 9` only".
#[derive(Clone, Copy)]
pub struct Rehearsed {
    pub refused: Option<Refusal>,
    pub length: usize,
}

// The longest start and end of a record, and the longest line of a step.
const ENDS: usize = 33;

const LINE: usize = 30;

// The longest record: that of as many steps as a sheet can have.
pub const LONGEST: usize = ENDS + LINE * sheet::MOST;

// `bad 9`, and the newline.
const BAD: usize = 6;

// "For BAD SHEET it prints `bad 9` only": whole, or not at all.
fn refuse_sheet(out: &mut [u8]) -> Rehearsed
    ensures answer { result ≡ answer_by out.old bad_sheet }
    ensures bytes { out.new ≡ laid_by out.old bad_sheet }
{
    let length = if out.len() < BAD {
        0
    } else {
        record::put_bad(out)
    };
    Rehearsed {
        refused: Some(Refusal::BadSheet),
        length,
    }
}

// What `rehearse` prints for a sheet, and the last world. Whether there is room is decided before anything is done.
pub fn rehearse(sheet: &[u8], world: &mut [u8], out: &mut [u8]) -> Rehearsed
    ensures answer { result ≡ rehearse_answer sheet.now world.old out.old }
    ensures last { world.new ≡ world_left sheet.now world.old out.old }
    ensures printed { out.new ≡ record_left sheet.now world.old out.old }
{
    if world.len() != layout::WORLD_WIDTH {
        return Rehearsed {
            refused: Some(Refusal::BadWorld),
            length: 0,
        };
    }
    match sheet::check(sheet) {
        Err(_) => refuse_sheet(out),
        Ok(found) if out.len() < ENDS + LINE * found.steps => Rehearsed {
            refused: Some(Refusal::NoRoom),
            length: 0,
        },
        Ok(found) => Rehearsed {
            refused: None,
            length: play(sheet, found.mask, world, out),
        },
    }
}
