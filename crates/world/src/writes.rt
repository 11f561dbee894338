// What a step writes into the lent buffer.
ghost use Rattle.std.specs.Prelude.{◌≡◌, true, map, ℕ, ◌+◌, ◌≤◌, ◌<◌, leb, length, get_or, unwrap_or};
ghost use Rattle.rows.specs.Bytes.{placed, table};
ghost use Rattle.rules.specs.Messages.{copies, outgoing};
ghost use Rattle.rules.specs.State.{World, with_places, relay_at, with_relay, with_transfers};
ghost use Rattle.rules.specs.Sending as rules;
ghost use Rattle.rules.specs.Relays.{fresh_transfer};
ghost use Rattle.layout.specs.Layout.{transfers_width};
ghost use Rattle.layout.specs.Image.{transfer_bytes, image, world_at, good_bytes};
ghost use Rattle.state.specs.Meaning.{transfer_of, part_of, body_of, sending_of, sendings_of};
ghost use Rattle.locality.specs.Narrow.{widened};
ghost use Rattle.world.specs.Commits.{TakenTo, freed_at, kept_rows, message};

use super::relay_number::RelayNumber;
use state::{Body, Message, Part, Sending, Sendings, Transfer};

// ---- places

// "DELIVER frees its place first"
pub(crate) fn free(w: &mut [u8], p: Option<u8>)
    ensures { (W : World) → length W.places ≡ 256 → w.old ≡ image W → w.new ≡ image (freed_at W (unwrap_or p 256)) }
{
    if let Some(p) = p {
        rows::clear(
            w,
            layout::WORLD_PLACES + p as usize * layout::MESSAGE_WIDTH,
            layout::MESSAGE_WIDTH,
        );
    }
}

// "A new message takes the lowest free place", and none below `low` is free; none below the result is free afterwards.
fn place(w: &mut [u8], low: usize, from: u8, to: u8, body: Body) -> usize
    requires { TakenTo w.old low }
    ensures next { TakenTo w.new result }
    ensures bytes { (W : World) → length W.places ≡ 256 → w.old ≡ image W
        → w.new ≡ image (with_places W (rules.place (message from (body_of body) to) W.places)) }
{
    let Some(p) = super::reads::first_free(w, low) else {
        return low;
    };
    let m = Message {
        from,
        to,
        body: messages::plain(body),
    };
    image::put_message(w, layout::WORLD_PLACES + p * layout::MESSAGE_WIDTH, m);
    p
}

// "each to its receivers in ascending order"; each search goes on where the last one ended.
fn send(w: &mut [u8], from: u8, x: Sending)
    ensures { (W : World) → length W.places ≡ 256 → w.old ≡ image W
        → w.new ≡ image (with_places W (rules.place_all (copies from (sending_of x)) W.places)) }
{
    // most rules leave a sending empty
    if x.receivers == 0 {
        return;
    }
    let mut low = 0;
    // A number here is a receiver: its name and its bit.
    for to in (0..rules::EVERYONE as u8).filter(|n| (x.receivers >> *n) % 2 == 1) {
        low = place(w, low, from, to, x.body);
    }
}

// One sending after the other, in the order of the rule.
pub(crate) fn send_all(w: &mut [u8], from: u8, x: Sendings)
    ensures { (W : World) → length W.places ≡ 256 → w.old ≡ image W
        → w.new ≡ image (with_places W (rules.place_all (outgoing from (sendings_of x)) W.places)) }
{
    for s in x.of {
        send(w, from, s);
    }
}

// ---- transfers

// A row of zeros. (A literal: `relay` makes the transfers that it takes, and this is none.)
#[tactic(auto, unfolding(state::specs::Meaning::transfer_of, views::specs::Row::views_of, views::specs::Row::row_of, rules::specs::Relays::fresh_transfer))]
fn blank() -> Transfer
    ensures { transfer_of result ≡ fresh_transfer 0 0 }
{
    Transfer {
        old: 0,
        new: 0,
        sequence: views::empty(),
        senders: 0,
        best: stamps::fresh(),
        gathered: 0,
    }
}

// "transfers whose new view does not strictly include w are freed, and the rest move down in their order"; then blank ones
fn kept_transfers(w: &[u8], at: usize, v: u16) -> [Transfer; rules::SEATS]
    requires { at < 65536 }
    ensures { (k : ℕ) → k < 8 → get_or (map transfer_of result) k (fresh_transfer 0 0) ≡ get_or (kept_rows w.now at v 8) k (fresh_transfer 0 0) }
{
    let mut kept = [blank(); rules::SEATS];
    let rows = (0..rules::SEATS).map(|i| image::transfer_at(w, at + i * layout::TRANSFER_WIDTH));
    for (n, t) in rows.filter(|t| views::inside(v, t.new)).enumerate() {
        kept[n] = t;
    }
    kept
}

// (Like `image::put_notes` over rows of another kind, and not one function for both: what it shares with that is the `for`.)
fn put_kept(w: &mut [u8], at: usize, kept: &[Transfer; rules::SEATS])
    requires { at + transfers_width ≤ length w.old }
    ensures { w.new ≡ placed w.old at (table transfer_bytes (fresh_transfer 0 0) 8 (map transfer_of kept.now)) }
{
    for (i, t) in kept.iter().enumerate() {
        image::put_transfer(w, at + i * layout::TRANSFER_WIDTH, *t);
    }
}

// Only where `has_seats` is true, so that the seat is one of the eight; `put_part` likewise.
fn put_transfers(w: &mut [u8], s: RelayNumber, part: Part)
    requires { good_bytes w.old ≡ true }
    ensures { leb (length (widened (relay_at (world_at w.old) s.number) (part_of part)).transfers) 8 ≡ true
        → w.new ≡ image (with_relay (world_at w.old) s.number
        (with_transfers (relay_at (world_at w.old) s.number) (widened (relay_at (world_at w.old) s.number) (part_of part)).transfers)) }
{
    let at = s.row();
    let transfers = at + layout::RELAY_TRANSFERS;
    let view = part.head.view;
    if view != rows::read_u16(w, at + layout::HEAD_VIEW) {
        let kept = kept_transfers(w, transfers, view);
        put_kept(w, transfers, &kept);
        return;
    }
    let Some(t) = part.transfer else {
        return;
    };
    let Some(i) = super::reads::transfer_seat(w, transfers, t.old, t.new) else {
        return;
    };
    image::put_transfer(w, transfers + i * layout::TRANSFER_WIDTH, t);
}

// ---- a relay

// The relay s, of whose part a rule has made this one.
pub(crate) fn put_part(w: &mut [u8], s: RelayNumber, part: Part)
    requires { good_bytes w.old ≡ true }
    ensures { leb (length (widened (relay_at (world_at w.old) s.number) (part_of part)).generators) 8 ≡ true
        → leb (length (widened (relay_at (world_at w.old) s.number) (part_of part)).transfers) 8 ≡ true
        → w.new ≡ image (with_relay (world_at w.old) s.number (widened (relay_at (world_at w.old) s.number) (part_of part))) }
{
    let at = s.row();
    let generators = at + layout::RELAY_GENERATORS;
    // looked up before anything is written (by reference: a closure would move the generator)
    let seat = match &part.generator {
        Some(g) => super::reads::generator_seat(w, generators, g.view),
        None => None,
    };
    put_transfers(w, s, part);
    image::put_head(w, at, part.head);
    let Some(g) = part.generator else {
        return;
    };
    let Some(i) = seat else {
        return;
    };
    image::put_generator(w, generators + i * layout::GENERATOR_WIDTH, g);
}
