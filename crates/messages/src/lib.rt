// The messages' bodies, and to whom they are sent. Document 01, "Steps", "Delivery at a relay", "Delivery at a desk".
#![tactic(auto, unfolding(crate::specs::Made::blank_of, crate::specs::Made::made_with, crate::specs::Made::all_sent, crate::specs::Made::plan_of_all))]

ghost use Rattle.std.specs.Prelude.{◌≡◌, [], ◌∷◌};
ghost use Rattle.views.specs.Row.{views_of};
ghost use Rattle.rules.specs.Sets.{members, joined};
ghost use Rattle.rules.specs.Messages as rules;
ghost use Rattle.layout.specs.Kinds.{number_of_kind};
ghost use Rattle.state.specs.declared.Event.TheVariants.{Nothing};
ghost use Rattle.state.specs.Meaning.{body_of};
ghost use Rattle.messages.specs.Made.{blank_of, made_with, made, send_to, to_nobody, all_sent, one_of, plan_of_all};

use layout::MessageKind;
use stamps::Pair;
use state::{Body, Event, MOST, Plan, Sending, Sendings};
use views::Sequence;

// Of this kind, and it says nothing yet.
fn blank(kind: MessageKind) -> Body
    ensures { result ≡ blank_of (number_of_kind kind) }
{
    Body {
        kind: kind.number(),
        first: 0,
        second: 0,
        tries: 0,
        sequence: views::empty(),
        pair: stamps::fresh(),
        updates: 0,
    }
}

pub fn request(u: u16, c: u16) -> Body
    ensures { result ≡ made (rules.request u c) }
{
    Body {
        first: c,
        updates: u,
        ..blank(MessageKind::Request)
    }
}

pub fn view(v: u16) -> Body
    ensures { result ≡ made (rules.view v) }
{
    Body {
        first: v,
        ..blank(MessageKind::View)
    }
}

pub fn proposal(v: u16, q: Sequence) -> Body
    ensures { result ≡ made_with q (rules.proposal v (views_of q)) }
{
    Body {
        first: v,
        sequence: q,
        ..blank(MessageKind::Proposal)
    }
}

pub fn converged(v: u16, q: Sequence) -> Body
    ensures { result ≡ made_with q (rules.converged v (views_of q)) }
{
    Body {
        first: v,
        sequence: q,
        ..blank(MessageKind::Converged)
    }
}

pub fn install(o: u16, w: u16, q: Sequence) -> Body
    ensures { result ≡ made_with q (rules.install o w (views_of q)) }
{
    Body {
        first: o,
        second: w,
        sequence: q,
        ..blank(MessageKind::Install)
    }
}

pub fn state(o: u16, w: u16, p: Pair, updates: u16) -> Body
    ensures { result ≡ made (rules.state o w p updates) }
{
    Body {
        first: o,
        second: w,
        pair: p,
        updates,
        ..blank(MessageKind::State)
    }
}

pub fn get(tries: u16, c: u16) -> Body
    ensures { result ≡ made (rules.get tries c) }
{
    Body {
        tries,
        first: c,
        ..blank(MessageKind::Get)
    }
}

pub fn put(tries: u16, c: u16, p: Pair) -> Body
    ensures { result ≡ made (rules.put tries c p) }
{
    Body {
        tries,
        first: c,
        pair: p,
        ..blank(MessageKind::Put)
    }
}

pub fn view_reply(tries: u16, v: u16) -> Body
    ensures { result ≡ made (rules.view_reply tries v) }
{
    Body {
        tries,
        first: v,
        ..blank(MessageKind::ViewReply)
    }
}

pub fn pair_reply(tries: u16, p: Pair) -> Body
    ensures { result ≡ made (rules.pair_reply tries p) }
{
    Body {
        tries,
        pair: p,
        ..blank(MessageKind::PairReply)
    }
}

pub fn ack(tries: u16) -> Body
    ensures { result ≡ made (rules.ack tries) }
{
    Body {
        tries,
        ..blank(MessageKind::Ack)
    }
}

// The same body as its own kind has it: "unused room is zero". A number that is no kind is an acknowledgement's.
#[tactic(auto, unfolding(crate::specs::Made::made_with, state::specs::Meaning::body_of, layout::specs::Image::body_in))]
pub fn plain(b: Body) -> Body
    ensures { result ≡ made_with b.sequence (body_of b) }
{
    let q = b.sequence;
    let p = b.pair;
    match MessageKind::from(b.kind) {
        MessageKind::Request => request(b.updates, b.first),
        MessageKind::View => view(b.first),
        MessageKind::Proposal => proposal(b.first, q),
        MessageKind::Converged => converged(b.first, q),
        MessageKind::Install => install(b.first, b.second, q),
        MessageKind::State => state(b.first, b.second, p, b.updates),
        MessageKind::Get => get(b.tries, b.first),
        MessageKind::Put => put(b.tries, b.first, p),
        MessageKind::ViewReply => view_reply(b.tries, b.first),
        MessageKind::PairReply => pair_reply(b.tries, p),
        MessageKind::Ack => ack(b.tries),
    }
}

pub fn no_sending() -> Sending
    ensures { result ≡ to_nobody }
{
    Sending {
        body: ack(0),
        receivers: 0,
    }
}

fn to_all(receivers: u16, body: Body) -> Sending
    ensures { result ≡ send_to receivers body }
{
    Sending { body, receivers }
}

pub fn to_members(v: u16, body: Body) -> Sending
    ensures { result ≡ send_to (members v) body }
{
    to_all(views::members(v) as u16, body)
}

pub fn to_both(v: u16, w: u16, body: Body) -> Sending
    ensures { result ≡ send_to (joined (members v) (members w)) body }
{
    to_all(
        views::join(views::members(v) as u16, views::members(w) as u16),
        body,
    )
}

// A set of receivers has the numbers 0 to 15: of any other, nobody.
pub fn to_one(s: u8, body: Body) -> Sending
    ensures { result ≡ send_to (one_of s) body }
{
    to_all(1u16.checked_shl(s as u32).unwrap_or(0), body)
}

// ---- what a rule sends

pub fn nothing_sent() -> Sendings
    ensures { result ≡ all_sent [] }
{
    let nobody = no_sending();
    Sendings { of: [nobody; MOST] }
}

// One thing first, and then the rest, as far as there is room.
pub fn sent_before(s: Sending, rest: Sendings) -> Sendings
    ensures { result ≡ all_sent (s ∷ rest.of) }
{
    let mut of = [s; MOST];
    of[1..].copy_from_slice(&rest.of[..MOST - 1]);
    Sendings { of }
}

pub fn one_sent(s: Sending) -> Sendings
    ensures { result ≡ all_sent (s ∷ []) }
{
    sent_before(s, nothing_sent())
}

// ---- what one relay, or one desk, does

// Nothing is sent.
pub fn tells<T>(next: T, event: Event) -> Plan<T>
    ensures { result ≡ plan_of_all next [] event }
{
    Plan {
        next,
        sends: nothing_sent(),
        event,
    }
}

pub fn quietly<T>(next: T) -> Plan<T>
    ensures { result ≡ plan_of_all next [] Nothing }
{
    tells(next, Event::Nothing)
}

// A plan, with a sending that the rule names before the others.
pub fn sent_first<T>(s: Sending, later: Plan<T>) -> Plan<T>
    ensures { result ≡ plan_of_all later.next (s ∷ later.sends.of) later.event }
{
    Plan {
        sends: sent_before(s, later.sends),
        ..later
    }
}

pub fn sends<T>(next: T, s: Sending) -> Plan<T>
    ensures { result ≡ plan_of_all next (s ∷ []) Nothing }
{
    Plan {
        next,
        sends: one_sent(s),
        event: Event::Nothing,
    }
}
