// The world's parts in the rows of a lent buffer: each read, and each written over its row. Document 01, "The world"; where each field stands is crate layout. Every
// function is total: past the end a buffer reads zero, and a row that does not fit wholly is not written. A row past the end is read as one that begins at the
// end, so that what is added to its index stays in range.
#![tactic(auto)]

ghost use Rattle.std.specs.Prelude.{◌≡◌, [], ◌+◌, ◌≤◌, length};
ghost use Rattle.rows.specs.Bytes.{placed};
ghost use Rattle.views.specs.Row.{views_of};
ghost use Rattle.layout.specs.Layout.{generator_width};
ghost use Rattle.layout.specs.Image.{sequence_bytes, pair_at, head_bytes, generator_bytes};
ghost use Rattle.layout.specs.Image.{transfer_bytes, phase_number, phase_of, desk_bytes, desk_at, row_bytes};
ghost use Rattle.state.specs.Meaning.{notes_of, generator_of, transfer_of, relay_of};
ghost use Rattle.image.specs.Parts.{notes_bytes, head_at, message_row};
ghost use Rattle.image.specs.Parts.{sequence_row_at, notes_row_at, generator_row_at, transfer_row_at, message_row_at};

use rows::Field;
use rules::{Desk, Phase};
use stamps::{Pair, Stamp};
use state::{Body, Generator, Head, Message, Notes, Transfer};
use views::Sequence;

pub fn sequence_at(s: &[u8], at: usize) -> Sequence
    ensures { result ≡ sequence_row_at s.now at }
{
    let a = at.min(s.len());
    let len = rows::byte_at(s, a + layout::SEQUENCE_COUNT) as usize;
    let mut views = [0; rules::VIEWS];
    for (i, view) in views[..len.min(rules::VIEWS)].iter_mut().enumerate() {
        *view = rows::read_u16(s, a + layout::U16_WIDTH * i);
    }
    Sequence { views, len }
}

pub fn put_sequence(s: &mut [u8], at: usize, q: Sequence)
    ensures { s.new ≡ placed s.old at (sequence_bytes (views_of q)) }
{
    if !rows::has_room(s.len(), at, layout::SEQUENCE_WIDTH) {
        return;
    }
    let n = views::count(q);
    if n == 0 {
        rows::clear(s, at, layout::SEQUENCE_WIDTH);
        return;
    }
    // By an index: past the length a view is zero, which `view_at` says and the row's array need not hold.
    for i in 0..rules::VIEWS {
        let v = views::view_at(q, i);
        rows::put_u16(s, at + layout::U16_WIDTH * i, v);
    }
    rows::put_byte(s, at + layout::SEQUENCE_COUNT, n as u8);
}

pub fn pair_at(s: &[u8], at: usize) -> Pair
    ensures { result ≡ pair_at s.now at }
{
    let a = at.min(s.len());
    let count = rows::read_u16(s, a);
    let desk = rows::byte_at(s, a + layout::PAIR_DESK);
    let value = rows::read_u32(s, a + layout::PAIR_VALUE);
    Pair {
        stamp: Stamp { count, desk },
        value,
    }
}

pub fn head_at(s: &[u8], at: usize) -> Head
    ensures { result ≡ head_at s.now at }
{
    let a = at.min(s.len());
    let alive = rows::byte_at(s, a) == 1;
    let entered = rows::byte_at(s, a + layout::HEAD_ENTERED) == 1;
    let active = rows::byte_at(s, a + layout::HEAD_ACTIVE) == 1;
    let view = rows::read_u16(s, a + layout::HEAD_VIEW);
    let known = rows::read_u16(s, a + layout::HEAD_KNOWN);
    let pending = rows::read_u16(s, a + layout::HEAD_PENDING);
    let holds = pair_at(s, a + layout::HEAD_HOLDS);
    Head {
        alive,
        entered,
        active,
        view,
        known,
        pending,
        holds,
    }
}

// (In the callers' own frames, as a desk's row: so a start takes fewer than 256 bytes of the stack, as docs/CERTIFICATE.md has it.)
#[inline(always)]
pub fn put_head(s: &mut [u8], at: usize, h: Head)
    ensures { s.new ≡ placed s.old at (head_bytes (relay_of h [] [])) }
{
    let row = [
        Field::Flag(h.alive),
        Field::Flag(h.entered),
        Field::Flag(h.active),
        Field::U16(h.view),
        Field::U16(h.known),
        Field::U16(h.pending),
        Field::U16(h.holds.stamp.count),
        Field::Byte(h.holds.stamp.desk),
        Field::U32(h.holds.value),
        Field::Zeros(layout::HEAD_REST),
    ];
    rows::put_row(s, at, &row);
}

pub fn notes_at(s: &[u8], at: usize) -> Notes
    ensures { result ≡ notes_row_at s.now at }
{
    let a = at.min(s.len());
    let mut of = [views::empty(); rules::RELAYS];
    for (i, q) in of.iter_mut().enumerate() {
        *q = sequence_at(s, a + i * layout::SEQUENCE_WIDTH);
    }
    Notes { of }
}

pub fn put_notes(s: &mut [u8], at: usize, n: Notes)
    ensures { s.new ≡ placed s.old at (notes_bytes (notes_of n)) }
{
    if !rows::has_room(s.len(), at, layout::NOTES_WIDTH) {
        return;
    }
    for (i, q) in n.of.iter().enumerate() {
        put_sequence(s, at + i * layout::SEQUENCE_WIDTH, *q);
    }
}

pub fn generator_at(s: &[u8], at: usize) -> Generator
    ensures { result ≡ generator_row_at s.now at }
{
    let a = at.min(s.len());
    let view = rows::read_u16(s, a);
    let own = sequence_at(s, a + layout::GENERATOR_OWN);
    let converged = sequence_at(s, a + layout::GENERATOR_CONVERGED);
    let raised = sequence_at(s, a + layout::GENERATOR_RAISED);
    let proposals = notes_at(s, a + layout::GENERATOR_PROPOSALS);
    let convergences = notes_at(s, a + layout::GENERATOR_CONVERGENCES);
    Generator {
        view,
        own,
        converged,
        raised,
        proposals,
        convergences,
    }
}

fn put_generator_fields(s: &mut [u8], at: usize, g: Generator)
    requires { at + generator_width ≤ length s.old }
    ensures { s.new ≡ placed s.old at (generator_bytes (generator_of g)) }
{
    rows::put_u16(s, at, g.view);
    put_sequence(s, at + layout::GENERATOR_OWN, g.own);
    put_sequence(s, at + layout::GENERATOR_CONVERGED, g.converged);
    put_sequence(s, at + layout::GENERATOR_RAISED, g.raised);
    put_notes(s, at + layout::GENERATOR_PROPOSALS, g.proposals);
    put_notes(s, at + layout::GENERATOR_CONVERGENCES, g.convergences);
    rows::clear(s, at + layout::GENERATOR_ZEROS, layout::GENERATOR_REST);
}

pub fn put_generator(s: &mut [u8], at: usize, g: Generator)
    ensures { s.new ≡ placed s.old at (generator_bytes (generator_of g)) }
{
    if !rows::has_room(s.len(), at, layout::GENERATOR_WIDTH) {
        return;
    }
    put_generator_fields(s, at, g);
}

pub fn transfer_at(s: &[u8], at: usize) -> Transfer
    ensures { result ≡ transfer_row_at s.now at }
{
    let a = at.min(s.len());
    let old = rows::read_u16(s, a);
    let new = rows::read_u16(s, a + layout::TRANSFER_NEW);
    let sequence = sequence_at(s, a + layout::TRANSFER_SEQUENCE);
    let senders = rows::byte_at(s, a + layout::TRANSFER_SENDERS);
    let best = pair_at(s, a + layout::TRANSFER_BEST);
    let gathered = rows::read_u16(s, a + layout::TRANSFER_GATHERED);
    Transfer {
        old,
        new,
        sequence,
        senders,
        best,
        gathered,
    }
}

pub fn put_transfer(s: &mut [u8], at: usize, t: Transfer)
    ensures { s.new ≡ placed s.old at (transfer_bytes (transfer_of t)) }
{
    if !rows::has_room(s.len(), at, layout::TRANSFER_WIDTH) {
        return;
    }
    let first = [Field::U16(t.old), Field::U16(t.new)];
    let last = [
        Field::Byte(t.senders),
        Field::U16(t.best.stamp.count),
        Field::Byte(t.best.stamp.desk),
        Field::U32(t.best.value),
        Field::U16(t.gathered),
        Field::Zeros(layout::TRANSFER_REST),
    ];
    rows::put_row(s, at, &first);
    put_sequence(s, at + layout::TRANSFER_SEQUENCE, t.sequence);
    rows::put_row(s, at + layout::TRANSFER_SENDERS, &last);
}

// A phase in a desk's row. (Two functions of this module and no `From`: an impl would stand in crate rules, which knows no row.)
fn phase_number(p: Phase) -> u8
    ensures { result ≡ phase_number p }
{
    p as u8
}

fn phase_of(n: u8) -> Phase
    ensures { result ≡ phase_of n }
{
    match n {
        1 => Phase::Read1,
        2 => Phase::Read2,
        3 => Phase::Write1,
        4 => Phase::Write2,
        _ => Phase::Idle,
    }
}

pub fn desk_at(s: &[u8], at: usize) -> Desk
    ensures { result ≡ desk_at s.now at }
{
    let a = at.min(s.len());
    let alive = rows::byte_at(s, a) == 1;
    let phase = phase_of(rows::byte_at(s, a + layout::DESK_PHASE));
    let view = rows::read_u16(s, a + layout::DESK_VIEW);
    let tries = rows::read_u16(s, a + layout::DESK_TRIES);
    let holds = pair_at(s, a + layout::DESK_HOLDS);
    let replied = rows::byte_at(s, a + layout::DESK_REPLIED);
    let best = pair_at(s, a + layout::DESK_BEST);
    let agreed = rows::byte_at(s, a + layout::DESK_AGREED) == 1;
    Desk {
        alive,
        view,
        phase,
        tries,
        holds,
        replied,
        best,
        agreed,
    }
}

#[inline(always)]
pub fn put_desk(s: &mut [u8], at: usize, d: Desk)
    ensures { s.new ≡ placed s.old at (desk_bytes d) }
{
    let row = [
        Field::Flag(d.alive),
        Field::Byte(phase_number(d.phase)),
        Field::U16(d.view),
        Field::U16(d.tries),
        Field::U16(d.holds.stamp.count),
        Field::Byte(d.holds.stamp.desk),
        Field::U32(d.holds.value),
        Field::Byte(d.replied),
        Field::U16(d.best.stamp.count),
        Field::Byte(d.best.stamp.desk),
        Field::U32(d.best.value),
        Field::Flag(d.agreed),
        Field::Zeros(layout::DESK_REST),
    ];
    rows::put_row(s, at, &row);
}

pub fn message_at(s: &[u8], at: usize) -> Message
    ensures { result ≡ message_row_at s.now at }
{
    let a = at.min(s.len());
    let kind = rows::byte_at(s, a);
    let from = rows::byte_at(s, a + layout::MESSAGE_FROM);
    let to = rows::byte_at(s, a + layout::MESSAGE_TO);
    let first = rows::read_u16(s, a + layout::MESSAGE_FIRST);
    let second = rows::read_u16(s, a + layout::MESSAGE_SECOND);
    let tries = rows::read_u16(s, a + layout::MESSAGE_TRIES);
    let sequence = sequence_at(s, a + layout::MESSAGE_SEQUENCE);
    let pair = pair_at(s, a + layout::MESSAGE_PAIR);
    let updates = rows::read_u16(s, a + layout::MESSAGE_UPDATES);
    let body = Body {
        kind,
        first,
        second,
        tries,
        sequence,
        pair,
        updates,
    };
    Message { from, to, body }
}

pub fn put_message(s: &mut [u8], at: usize, m: Message)
    ensures { s.new ≡ placed s.old at (row_bytes (message_row m)) }
{
    if !rows::has_room(s.len(), at, layout::MESSAGE_WIDTH) {
        return;
    }
    let b = m.body;
    let first = [
        Field::Byte(b.kind),
        Field::Byte(m.from),
        Field::Byte(m.to),
        Field::U16(b.first),
        Field::U16(b.second),
        Field::U16(b.tries),
    ];
    let last = [
        Field::U16(b.pair.stamp.count),
        Field::Byte(b.pair.stamp.desk),
        Field::U32(b.pair.value),
        Field::U16(b.updates),
        Field::Zeros(layout::MESSAGE_REST),
    ];
    rows::put_row(s, at, &first);
    put_sequence(s, at + layout::MESSAGE_SEQUENCE, b.sequence);
    rows::put_row(s, at + layout::MESSAGE_PAIR, &last);
}
