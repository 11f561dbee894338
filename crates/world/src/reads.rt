// What a step looks up in the lent buffer.
ghost use Rattle.std.specs.Prelude.{◌≡◌, true, ◌&&◌, ◌||◌, ℕ, ◌+◌, ◌≤◌, ◌<◌, eqb, leb, ltb, length, unwrap_or, if◌then◌else◌};
ghost use Rattle.rows.specs.Bytes.{u16_at};
ghost use Rattle.rules.specs.Messages as rules;
ghost use Rattle.rules.specs.State.{relay_at};
ghost use Rattle.rules.specs.Steps.{alive_in};
ghost use Rattle.layout.specs.Layout.{transfer_new};
ghost use Rattle.layout.specs.Image.{world_at, good_bytes};
ghost use Rattle.state.specs.Meaning.{part_of, generator_of, transfer_of, sendings_of, listed};
ghost use Rattle.locality.specs.Narrow.{Move, move, narrow, widened};
ghost use Rattle.world.specs.Commits.{Found, row_of, free_row, TakenTo, free_rows, ends_view, ends_move, receivers_below};

use super::relay_number::RelayNumber;
use state::{Generator, Part, Sendings, Transfer};

// ---- places

#[tactic(auto, unfolding(crate::specs::Commits::free_row))]
pub(crate) fn is_free(w: &[u8], p: usize) -> bool
    requires { p < 256 }
    ensures { result ≡ free_row w.now p }
{
    rows::byte_at(w, layout::WORLD_PLACES + p * layout::MESSAGE_WIDTH) == layout::NO_KIND
}

pub(crate) fn free_places(w: &[u8]) -> usize
    ensures { (result ≡ free_rows w.now 256) × (result ≤ 256) }
{
    (0..rules::PLACES).filter(|p| is_free(w, *p)).count()
}

// "the lowest free place", if any; none below `low` is free.
pub(crate) fn first_free(w: &[u8], low: usize) -> Option<usize>
    requires { TakenTo w.now low }
    ensures { Found 256 (free_row w.now) result }
{
    (low..rules::PLACES).find(|p| is_free(w, *p))
}

// "0..7 relays, 8..11 desks": a set of receivers is its twelve low bits.
const RECEIVERS: u16 = 1 << rules::EVERYONE;

pub(crate) fn receivers(m: u16) -> usize
    ensures { (result ≡ length (receivers_below m 12)) × (result ≤ 12) }
{
    (m % RECEIVERS).count_ones() as usize
}

// Whether n places are free: the walk ends with the n-th of them.
fn has_free(w: &[u8], n: usize) -> bool
    ensures { result ≡ leb n (free_rows w.now 256) }
{
    (0..rules::PLACES)
        .filter(|p| is_free(w, *p))
        .take(n)
        .count()
        == n
}

// How many messages go out, whoever sends these.
fn outgoing(x: Sendings) -> usize
    ensures { (from : ℕ) → result ≡ length (rules.outgoing from (sendings_of x)) }
{
    x.of.iter().map(|s| receivers(s.receivers)).sum()
}

// NO ROOM: "the step needs more messages [..] than are free at its begin, its own delivered place counted as free"
pub(crate) fn has_room(w: &[u8], p: Option<u8>, x: Sendings) -> bool
    ensures { (from : ℕ) → result ≡ leb (length (rules.outgoing from (sendings_of x))) (free_rows w.now 256 + (if ltb (unwrap_or p 256) 256 then 1 else 0)) }
{
    let own = p.is_some() as usize;
    has_free(w, outgoing(x).saturating_sub(own))
}

// ---- relays and desks

// The row of who: 0..7 relays, 8..11 desks. Its first byte says whether it is alive.
pub(crate) fn row_of(who: u8) -> usize
    ensures { result ≡ row_of who }
{
    let who = who as usize;
    if who < rules::RELAYS {
        who * layout::RELAY_WIDTH
    } else {
        layout::WORLD_DESKS + (who - rules::RELAYS) * layout::DESK_WIDTH
    }
}

pub(crate) fn alive_at(w: &[u8], who: u8) -> bool
    requires { who < 12 }
    ensures { result ≡ alive_in (world_at w.now) who }
{
    rows::byte_at(w, row_of(who)) == 1
}

// The row of a generator at `at` is not filled, or is for v.
fn ends_view(w: &[u8], at: usize, v: u16) -> bool
    ensures { result ≡ (eqb (u16_at w.now at) 0 || eqb (u16_at w.now at) v) }
{
    let x = rows::read_u16(w, at);
    x == 0 || x == v
}

// The seat of the generator for v among the rows from `at` on: its row, else the first that is not filled, if any.
pub(crate) fn generator_seat(w: &[u8], at: usize, v: u16) -> Option<usize>
    requires { at < 65536 }
    ensures { Found 8 (ends_view w.now at v) result }
{
    (0..rules::SEATS).find(|i| ends_view(w, at + *i * layout::GENERATOR_WIDTH, v))
}

fn ends_move(w: &[u8], at: usize, o: u16, n: u16) -> bool
    requires { at < 131072 }
    ensures { result ≡ (eqb (u16_at w.now (at + transfer_new)) 0 || (eqb (u16_at w.now at) o && eqb (u16_at w.now (at + transfer_new)) n)) }
{
    let new = rows::read_u16(w, at + layout::TRANSFER_NEW);
    new == 0 || rows::read_u16(w, at) == o && new == n
}

// The seat of the transfer from o to n, likewise.
pub(crate) fn transfer_seat(w: &[u8], at: usize, o: u16, n: u16) -> Option<usize>
    requires { at < 65536 }
    ensures { Found 8 (ends_move w.now at o n) result }
{
    (0..rules::SEATS).find(|i| ends_move(w, at + *i * layout::TRANSFER_WIDTH, o, n))
}

// The generator of the relay s for v, if it is there. (An early return and no `then`, and below a `match` by reference and no `is_none_or`: each closure would
// move the generator's 768 bytes once more.)
fn generator_in(w: &[u8], s: RelayNumber, v: u16) -> Option<Generator>
    requires { good_bytes w.now ≡ true }
    ensures { (m : Move) → listed generator_of result ≡ (narrow (relay_at (world_at w.now) s.number) v m).generators }
{
    let at = s.row() + layout::RELAY_GENERATORS;
    let row = at + generator_seat(w, at, v)? * layout::GENERATOR_WIDTH;
    if rows::read_u16(w, row) == 0 {
        return None;
    }
    Some(image::generator_at(w, row))
}

// Its transfer from o to n, likewise.
fn transfer_in(w: &[u8], s: RelayNumber, o: u16, n: u16) -> Option<Transfer>
    requires { good_bytes w.now ≡ true }
    ensures { (v : ℕ) → listed transfer_of result ≡ (narrow (relay_at (world_at w.now) s.number) v (move o n)).transfers }
{
    let at = s.row() + layout::RELAY_TRANSFERS;
    let row = at + transfer_seat(w, at, o, n)? * layout::TRANSFER_WIDTH;
    if rows::read_u16(w, row + layout::TRANSFER_NEW) == 0 {
        return None;
    }
    Some(image::transfer_at(w, row))
}

// The part of the relay s that shows the generator for v and the transfer from o to n.
pub(crate) fn part_at(w: &[u8], s: RelayNumber, v: u16, o: u16, n: u16) -> Part
    requires { good_bytes w.now ≡ true }
    ensures { part_of result ≡ narrow (relay_at (world_at w.now) s.number) v (move o n) }
{
    let at = s.row();
    Part {
        head: image::head_at(w, at),
        generator: generator_in(w, s, v),
        transfer: transfer_in(w, s, o, n),
    }
}

// ---- the seats of what a part has become

fn generator_seated(w: &[u8], s: RelayNumber, part: Part) -> bool
    requires { good_bytes w.now ≡ true }
    ensures { result ≡ leb (length (widened (relay_at (world_at w.now) s.number) (part_of part)).generators) 8 }
{
    let at = s.row() + layout::RELAY_GENERATORS;
    match &part.generator {
        Some(g) => generator_seat(w, at, g.view).is_some(),
        None => true,
    }
}

fn transfer_seated(w: &[u8], s: RelayNumber, part: Part) -> bool
    requires { good_bytes w.now ≡ true }
    ensures { result ≡ leb (length (widened (relay_at (world_at w.now) s.number) (part_of part)).transfers) 8 }
{
    let at = s.row();
    part.head.view != rows::read_u16(w, at + layout::HEAD_VIEW)
        || part.transfer.is_none_or(|t| transfer_seat(
            w,
            at + layout::RELAY_TRANSFERS,
            t.old,
            t.new,
        ).is_some())
}

// NO ROOM: "the step needs more [..] generators or transfers than are free at its begin"
pub(crate) fn has_seats(w: &[u8], s: RelayNumber, part: Part) -> bool
    requires { good_bytes w.now ≡ true }
    ensures { result ≡ (leb (length (widened (relay_at (world_at w.now) s.number) (part_of part)).generators) 8
        && leb (length (widened (relay_at (world_at w.now) s.number) (part_of part)).transfers) 8) }
{
    generator_seated(w, s, part) && transfer_seated(w, s, part)
}
