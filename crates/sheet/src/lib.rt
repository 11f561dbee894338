// Sheets: bytes are checked, read from the front one step at a time, and written. Document 01, "Sheets and the printed record".
#![tactic(auto)]

ghost use Rattle.std.specs.Prelude.{◌≡◌, ◌≤◌, ◌/◌, ◌||◌, eqb, ltb, length};
ghost use Rattle.rows.specs.Bytes.{placed};
ghost use Rattle.rules.specs.Sheets.{version1, marked, header_width, header_bytes, is_bad_sheet, all_zeros_in};
ghost use Rattle.rules.specs.Sheets.{step_bytes, steps_bytes, step_width, sheet_width, number};
ghost use Rattle.sheet.specs.Reading.{check_of, front_of, step_at, after_of};
ghost use Rattle.sheet.specs.Writing.{listed, unequal, ruled, ruled_size, buffer_of, number_of, size_of};

use rows::{Field, byte_at, has_room, is_zero, put_row, read_u16, read_u32};
use rules::{Refusal, Step};

pub mod reader; // a sheet's bytes and a position: the iterator of its steps

// The header: "the three bytes `ARS`, version 0x0001 [..], one byte of start mask". Where its version and its mask stand, and the first step.
const MARK: [u8; 3] = [65, 82, 83];

const VERSION: u16 = 1;

const VERSION_AT: usize = 3;

const MASK_AT: usize = 5;

pub const HEAD: usize = 6;

// A step of version 1: "8 bytes a step: kind, id, two zero bytes, value". Where its zero bytes stand, and how many; where its value stands.
const STEP: usize = 8;

const ZEROS_AT: usize = 2;

const ZEROS: usize = 2;

const VALUE_AT: usize = 4;

// "over 8,000 steps"
pub const MOST: usize = 8000;

// What an accepted sheet says before its steps, and how many those are.
#[derive(Clone, Copy, PartialEq, Eq)]
pub struct Sheet {
    pub mask: u8,
    pub steps: usize,
}

fn is_marked(b: &[u8]) -> bool
    ensures { result ≡ marked b.now }
{
    b.starts_with(&MARK)
}

// "non-zero in the two bytes", of each step: in what is past the header
fn is_blank(steps: &[u8]) -> bool
    ensures { result ≡ all_zeros_in version1 (length steps.now / step_width version1) steps.now }
{
    let (whole, _) = steps.as_chunks::<STEP>();
    whole.iter().all(|step| is_zero(step, ZEROS_AT, ZEROS))
}

// "BAD SHEET: under six bytes, wrong mark, version, mask 0, a part step, non-zero in the two bytes, over 8,000 steps."
#[tactic(auto, unfolding(rules::specs::Sheets::form_of))]
fn is_bad(b: &[u8]) -> bool
    ensures { result ≡ is_bad_sheet b.now }
{
    b.len() < HEAD
        || !is_marked(b)
        || read_u16(b, VERSION_AT) != VERSION
        || byte_at(b, MASK_AT) == 0
        || (b.len() - HEAD) % STEP != 0
        || !is_blank(&b[HEAD..])
        || MOST < (b.len() - HEAD) / STEP
}

#[tactic(auto, unfolding(rules::specs::Sheets::form_of, crate::specs::Reading::check_of))]
pub fn check(b: &[u8]) -> Result<Sheet, Refusal>
    ensures { result ≡ check_of b.now }
{
    if is_bad(b) {
        Err(Refusal::BadSheet)
    } else {
        Ok(Sheet {
            mask: byte_at(b, MASK_AT),
            steps: (b.len() - HEAD) / STEP,
        })
    }
}

// The position of the first step. Every header has as many bytes.
fn front(b: &[u8]) -> usize
    ensures { result ≡ front_of b.now }
{
    HEAD
}

// The step at a position, if one is left there. Every sheet has the steps of version 1, so their width is a constant.
pub fn step_at(b: &[u8], at: usize) -> Option<Step>
    ensures { result ≡ step_at b.now at }
{
    let step = b.get(at..)?.first_chunk::<STEP>()?;
    Some(Step {
        kind: step[0],
        id: step[1],
        value: read_u32(step, VALUE_AT),
    })
}

// The position past it; at the end the same.
#[tactic(auto, unfolding(rules::specs::Sheets::form_of, crate::specs::Reading::after_of))]
pub fn after(b: &[u8], at: usize) -> usize
    ensures { result ≡ after_of b.now at }
{
    if has_room(b.len(), at, STEP) {
        at + STEP
    } else {
        at
    }
}

fn put_head(buf: &mut [u8], mask: u8)
    ensures { buf.new ≡ placed buf.old 0 (header_bytes version1 mask) }
{
    let fields = [
        Field::Byte(MARK[0]),
        Field::Byte(MARK[1]),
        Field::Byte(MARK[2]),
        Field::U16(VERSION),
        Field::Byte(mask),
    ];
    put_row(buf, 0, &fields);
}

// "8 bytes a step: kind, id, two zero bytes, value"
fn put_step(buf: &mut [u8], at: usize, step: Step)
    ensures { buf.new ≡ placed buf.old at (step_bytes version1 step) }
{
    let fields = [
        Field::Byte(step.kind),
        Field::Byte(step.id),
        Field::Zeros(ZEROS as u8),
        Field::U32(step.value),
    ];
    put_row(buf, at, &fields);
}

fn put_steps(buf: &mut [u8], kinds: &[u8], ids: &[u8], values: &[u32])
    requires { sheet_width version1 (length (listed kinds.now ids.now values.now)) ≤ length buf.old }
    ensures { buf.new
        ≡ placed buf.old (header_width version1) (steps_bytes version1 (listed kinds.now ids.now values.now)) }
{
    let mut at = HEAD;
    for ((kind, id), value) in kinds.iter().zip(ids).zip(values) {
        let step = Step {
            kind: *kind,
            id: *id,
            value: *value,
        };
        put_step(buf, at, step);
        at += STEP;
    }
}

// "BAD SHEET for mask 0 or over 8,000 steps". Three slices of unequal lengths are no list.
fn is_no_sheet(mask: u8, kinds: &[u8], ids: &[u8], values: &[u32]) -> bool
    ensures { result
        ≡ (unequal kinds.now ids.now values.now || eqb mask 0 || ltb version1.most_steps (length kinds.now)) }
{
    let steps = kinds.len();
    ids.len() != steps || values.len() != steps || mask == 0 || MOST < steps
}

// "A list with its mask is written into a lent buffer: BAD SHEET for mask 0 or over 8,000 steps, then NO ROOM; bytes past the sheet stay."
// Answers how many bytes the sheet has. (Three slices side by side, as C hands them to `engine::sheet_write`.)
pub fn write(
    buf: &mut [u8],
    mask: u8,
    kinds: &[u8],
    ids: &[u8],
    values: &[u32],
) -> Result<usize, Refusal>
    ensures answer { (number_of result ≡ number (ruled buf.old mask kinds.now ids.now values.now))
        × (size_of result ≡ ruled_size buf.old mask kinds.now ids.now values.now) }
    ensures left { buf.new
        ≡ buffer_of buf.old (ruled buf.old mask kinds.now ids.now values.now) }
{
    if is_no_sheet(mask, kinds, ids, values) {
        return Err(Refusal::BadSheet);
    }
    let size = HEAD + STEP * kinds.len();
    if buf.len() < size {
        return Err(Refusal::NoRoom);
    }
    put_head(buf, mask);
    put_steps(buf, kinds, ids, values);
    Ok(size)
}
