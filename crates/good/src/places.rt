// The 256 places of messages.
#![tactic(auto, unfolding(rules::specs::WellFormed::good_place, rules::specs::WellFormed::good_body, rules::specs::Sets::all_hold))]

ghost use Rattle.std.specs.Prelude.{◌≡◌, not, ◌+◌, ◌≤◌, ◌<◌, eqb, ltb, length, ◌&&◌};
ghost use Rattle.rows.specs.Tests.{all};
ghost use Rattle.views.specs.Row.{views_of};
ghost use Rattle.rules.specs.Sets.{joins, leaves, member, within};
ghost use Rattle.rules.specs.Messages.{request, view, proposal, converged, install, state, get, put, view_reply, pair_reply, ack};
ghost use Rattle.rules.specs.State.{waiting};
ghost use Rattle.rules.specs.WellFormed.{is_desk, good_request, good_place};
ghost use Rattle.layout.specs.Layout.{message_width, world_width, place_begin};
ghost use Rattle.state.specs.Meaning.{message_of};
ghost use Rattle.layout.specs.Image.{place_bytes};
ghost use Rattle.image.specs.Parts.{message_row_at};
ghost use Rattle.layout.proofs.Widths.{length-place};
ghost use Rattle.good.specs.Rows.{sent, place_good, message_good};
ghost use Rattle.good.specs.Meant.{message_means};

use super::parts;
use super::row::{Row, good_row};
use layout::{MESSAGE_WIDTH, MessageKind};
use stamps::Pair;
use state::Message;
use views::Sequence;

fn is_desk(who: u8) -> bool
    ensures { result ≡ is_desk who }
{
    (rules::RELAYS..rules::EVERYONE).contains(&(who as usize))
}

fn is_relay(who: u8) -> bool
    ensures { result ≡ ltb who 8 }
{
    (who as usize) < rules::RELAYS
}

// A message's sender and receiver.
#[derive(Clone, Copy)]
struct Ends {
    from: u8,
    to: u8,
}

impl Ends {
    // From a member of v to a member of w.
    fn between(self, v: u16, w: u16) -> bool
        ensures { result ≡ (member v self.from && member w self.to) }
    {
        views::is_member(v, self.from) && views::is_member(w, self.to)
    }

    // From a desk to a member of the view asked for.
    fn asks(self, c: u16) -> bool
        ensures { result ≡ (is_desk self.from && member c self.to) }
    {
        is_desk(self.from) && views::is_member(c, self.to)
    }

    // From a relay to a desk.
    fn replies(self) -> bool
        ensures { result ≡ (ltb self.from 8 && is_desk self.to) }
    {
        is_relay(self.from) && is_desk(self.to)
    }
}

// u is +s, and not in c.
fn asks_to_join(s: u8, u: u16, c: u16) -> bool
    requires { s < 8 }
    ensures { result ≡ (eqb u (joins s) && not (within u c)) }
{
    u == 1u16 << s && !views::within(u, c)
}

// u is -s, and s a member of c.
fn asks_to_leave(s: u8, u: u16, c: u16) -> bool
    requires { s < 8 }
    ensures { result ≡ (eqb u (leaves s) && member c s) }
{
    u == 1u16 << (s as usize + rules::RELAYS) && views::is_member(c, s)
}

fn good_update(s: u8, u: u16, c: u16) -> bool
    requires { s < 8 }
    ensures { result ≡ good_request s u c }
{
    asks_to_join(s, u, c) || asks_to_leave(s, u, c)
}

fn good_request(ends: Ends, u: u16, c: u16) -> bool
    ensures { result ≡ good_place (sent ends.from ends.to (request u c)) }
{
    is_relay(ends.from) && good_update(ends.from, u, c) && views::is_member(c, ends.to)
}

fn good_view(ends: Ends, v: u16) -> bool
    ensures { result ≡ good_place (sent ends.from ends.to (view v)) }
{
    is_relay(ends.from) && is_relay(ends.to) && v != 0
}

// A proposal, and a convergence.
fn good_proposal(ends: Ends, v: u16, q: Sequence) -> bool
    ensures { (result ≡ good_place (sent ends.from ends.to (proposal v (views_of q))))
        × (result ≡ good_place (sent ends.from ends.to (converged v (views_of q)))) }
{
    ends.between(v, v) && views::above(v, q) && views::count(q) != 0
}

fn good_install(ends: Ends, o: u16, w: u16, q: Sequence) -> bool
    ensures { result ≡ good_place (sent ends.from ends.to (install o w (views_of q))) }
{
    parts::good_move(o, w)
        && parts::good_installed(o, w, q)
        && (ends.between(o, o) || ends.between(o, w))
}

fn good_state(ends: Ends, o: u16, w: u16, p: Pair, u: u16) -> bool
    ensures { result ≡ good_place (sent ends.from ends.to (state o w p u)) }
{
    parts::good_move(o, w) && ends.between(o, w) && parts::good_pair(p)
}

fn good_get(ends: Ends, tries: u16, c: u16) -> bool
    ensures { result ≡ good_place (sent ends.from ends.to (get tries c)) }
{
    ends.asks(c)
}

fn good_put(ends: Ends, tries: u16, c: u16, p: Pair) -> bool
    ensures { result ≡ good_place (sent ends.from ends.to (put tries c p)) }
{
    ends.asks(c) && parts::good_pair(p)
}

fn good_view_reply(ends: Ends, tries: u16, v: u16) -> bool
    ensures { result ≡ good_place (sent ends.from ends.to (view_reply tries v)) }
{
    ends.replies()
}

fn good_pair_reply(ends: Ends, tries: u16, p: Pair) -> bool
    ensures { result ≡ good_place (sent ends.from ends.to (pair_reply tries p)) }
{
    parts::good_pair(p) && ends.replies()
}

fn good_ack(ends: Ends, tries: u16) -> bool
    ensures { result ≡ good_place (sent ends.from ends.to (ack tries)) }
{
    ends.replies()
}

#[tactic(auto, unfolding(state::specs::Meaning::message_of, state::specs::Meaning::body_of, layout::specs::Image::body_in))]
fn good_message(m: Message) -> bool
    ensures { result ≡ good_place (waiting (message_of m)) }
{
    let ends = Ends {
        from: m.from,
        to: m.to,
    };
    let b = m.body;
    let q = b.sequence;
    let p = b.pair;
    match MessageKind::from(b.kind) {
        MessageKind::Request => good_request(ends, b.updates, b.first),
        MessageKind::View => good_view(ends, b.first),
        MessageKind::Proposal | MessageKind::Converged => good_proposal(ends, b.first, q),
        MessageKind::Install => good_install(ends, b.first, b.second, q),
        MessageKind::State => good_state(ends, b.first, b.second, p, b.updates),
        MessageKind::Get => good_get(ends, b.tries, b.first),
        MessageKind::Put => good_put(ends, b.tries, b.first, p),
        MessageKind::ViewReply => good_view_reply(ends, b.tries, b.first),
        MessageKind::PairReply => good_pair_reply(ends, b.tries, p),
        MessageKind::Ack => good_ack(ends, b.tries),
    }
}

// A message's row. What is written is what its kind says, so that a field that it does not say must be zero.
impl Row<MESSAGE_WIDTH> for Message {
    ghost row_at = { message_row_at };

    ghost tested = { λ _ m. good_place (waiting (message_of m)) };

    ghost bytes = { λ m. place_bytes (waiting (message_of m)) };

    ghost good = { λ l _ o. message_good l o };

    fn read(w: &[u8], at: usize) -> Message {
        image::message_at(w, at)
    }

    fn is_good(self, _s: u8) -> bool {
        good_message(self)
    }

    #[tactic(auto, using(crate::proofs::Messages::plain_place), unfolding(layout::specs::Image::place_bytes, state::specs::Meaning::message_of))]
    fn put(&self, row: &mut [u8]) {
        let body = messages::plain(self.body);
        image::put_message(row, 0, Message { body, ..*self });
    }

    ghost wide = { λ m. length-place (waiting (message_of m)) };

    ghost means = { message_means };
}

// A free place is all zero.
#[tactic(auto, using(crate::proofs::Messages::no_kind_lem, crate::proofs::Messages::above_kinds, crate::proofs::Messages::place_says))]
fn good_place_row(w: &[u8], at: usize) -> bool
    requires { at + message_width ≤ length w.now }
    ensures { result ≡ place_good w.now at }
{
    match rows::byte_at(w, at) {
        layout::NO_KIND => rows::is_zero(w, at, MESSAGE_WIDTH),
        layout::FIRST_KIND..=layout::LAST_KIND => good_row::<Message, MESSAGE_WIDTH>(w, 0, at),
        _ => false,
    }
}

pub(crate) fn good_places(w: &[u8]) -> bool
    requires { length w.now ≡ world_width }
    ensures { result ≡ all 256 (λ p. place_good w.now (place_begin p)) }
{
    (0..rules::PLACES).all(|p| good_place_row(w, layout::WORLD_PLACES + p * MESSAGE_WIDTH))
}
