// Document 01, "Delivery at a relay", and JOIN, LEAVE, TIMER: what a relay answers to each thing that is put to it.
#![tactic(auto, using(crate::proofs::Laws::plan_is, messages::proofs::Made::made_is), unfolding(state::specs::Meaning::part_of, state::specs::Meaning::relay_of, state::specs::Meaning::transfer_of, state::specs::Meaning::sending_of, state::specs::Meaning::event_of, state::specs::Meaning::body_of, state::specs::Plans::plan_of, state::specs::Plans::planned, rules::specs::Relays::join_asked, rules::specs::Relays::leave_asked, rules::specs::Relays::timer_rang, rules::specs::Relays::request_heard, rules::specs::Relays::gathers, rules::specs::Relays::takes_install, rules::specs::Relays::install_heard, rules::specs::Relays::state_heard, rules::specs::Relays::get_heard, rules::specs::Relays::put_heard, rules::specs::Relays::relay_hears, rules::specs::State::with_pending, rules::specs::State::with_holds, crate::specs::Fitting::join_answer, crate::specs::Fitting::timer_answer, crate::specs::Fitting::hears_answer, crate::specs::Fitting::hears_in_row, crate::specs::Fitting::fitting, layout::specs::Image::body_in))]

ghost use Rattle.std.specs.Prelude.{◌≡◌, true, ◌&&◌, [], ◌∷◌, ◌<◌, ltb};
ghost use Rattle.views.specs.Row.{views_of};
ghost use Rattle.rules.specs.Sets as sets;
ghost use Rattle.rules.specs.State.{no_relay, with_transfers};
ghost use Rattle.rules.specs.Generators.{generator_for};
ghost use Rattle.rules.specs.Generators as generators;
ghost use Rattle.rules.specs.Relays as rules;
ghost use Rattle.state.specs.declared.Generator.{Generator};
ghost use Rattle.state.specs.declared.Turn.{Turn};
ghost use Rattle.state.specs.Meaning.{generator_of, transfer_of, part_of, body_of};
ghost use Rattle.state.specs.Plans.{turn_of, turned, plan_of, planned};
ghost use Rattle.relay.specs.Fitting.{shows_view, shows_both, if_fitting, join_answer, timer_answer, hears_answer};

use layout::MessageKind;
use rules::Refusal;
use stamps::Pair;
use state::{Body, Event, Generator, Head, Part, Plan, Transfer, Turn};
use views::Sequence;

mod parts; // what a part shows
mod transfers; // transfers, and the head from view to view

// ---- steps

// The update "relay s joined".
fn joins(s: u8) -> u16
    requires { s < sets.relay_count }
    ensures { result ≡ sets.joins s }
{
    1 << s
}

// The update "relay s left".
fn leaves(s: u8) -> u16
    requires { s < sets.relay_count }
    ensures { result ≡ sets.leaves s }
{
    1 << (rules::RELAYS + s as usize)
}

// "JOIN is NOT NOW if the relay has entered any view or its join is in its known view; else it sends request(+s, known view) to that view's members."
pub fn join_asked(s: u8, p: Part) -> Result<Plan<Part>, Refusal>
    ensures { plan_of result ≡ planned no_relay (join_answer s (part_of p)) }
{
    if rules::RELAYS <= s as usize {
        return Err(Refusal::BadStep);
    }
    let known = p.head.known;
    let u = joins(s);
    if p.head.entered || views::within(u, known) {
        return Err(Refusal::NotNow);
    }
    Ok(messages::sends(p, messages::to_members(known, messages::request(u, known))))
}

// "LEAVE is NOT NOW unless it is a member of its view; it sends request(-s, its view) likewise."
pub fn leave_asked(s: u8, p: Part) -> Result<Plan<Part>, Refusal>
    ensures { plan_of result ≡ planned no_relay (rules.leave_asked s (part_of p)) }
{
    let v = p.head.view;
    if !views::is_member(v, s) {
        return Err(Refusal::NotNow);
    }
    Ok(messages::sends(p, messages::to_members(v, messages::request(leaves(s), v))))
}

// "TIMER is NOT NOW unless active and its view lacks a pending update; it proposes the sequence of one view, its own joined with the pending updates."
pub fn timer_rang(p: Part) -> Result<Plan<Part>, Refusal>
    ensures { plan_of result ≡ planned no_relay (timer_answer (part_of p)) }
{
    let v = p.head.view;
    let pending = p.head.pending;
    if !parts::shows_view(p, v) {
        return Err(Refusal::BadStep);
    }
    if !p.head.active || views::within(pending, v) {
        return Err(Refusal::NotNow);
    }
    let q = views::single(views::join(v, pending));
    Ok(at_generator(p, generator::proposes(parts::generator_for(p, v), q)))
}

// A rule at a generator. "A generator or transfer that a rule notes into, proposes with or keeps an install in is taken if absent"
fn at_generator(p: Part, t: Turn) -> Plan<Part>
    ensures { (turn : generators.Turn) → shows_view turn.next.view (part_of p) ≡ true → turn_of t ≡ turned turn
        → plan_of (Ok result) ≡ planned no_relay (rules.at_generator (part_of p) turn) }
{
    Plan {
        next: Part {
            generator: Some(t.next),
            ..p
        },
        sends: t.sends,
        event: Event::Nothing,
    }
}

// ---- requests

// "Request(u, c), from s. Not entered: nothing. Own view c: add u to pending unless in the view. Another own view: send that one to s,"
fn request_heard(p: Part, from: u8, u: u16, c: u16) -> Result<Plan<Part>, Refusal>
    ensures { plan_of result ≡ planned no_relay (if_fitting (ltb from 12) (rules.request_heard (part_of p) from u c)) }
{
    if rules::EVERYONE <= from as usize {
        return Err(Refusal::BadStep);
    }
    if !p.head.entered {
        return Ok(messages::quietly(p));
    }
    let v = p.head.view;
    if v != c {
        return Ok(messages::sends(p, messages::to_one(from, messages::view(v))));
    }
    if views::within(u, v) {
        return Ok(messages::quietly(p));
    }
    let head = Head {
        pending: views::join(p.head.pending, u),
        ..p.head
    };
    Ok(messages::quietly(Part { head, ..p }))
}

// ---- proposals and convergences

// "Proposal(v, q): note it for the sender."; "Converged(v, q): note it." Which of the two rules the generator for v goes by, the caller says.
fn heard_at<F: FnOnce(Generator) -> Turn>(p: Part, v: u16, hear: F) -> Result<Plan<Part>, Refusal>
    requires { F.IsAlwaysCallable hear }
    ensures { (turn : generators.Turn) → turn.next.view ≡ v
        → ((g : Generator) (t : Turn) → generator_of g ≡ generator_for v (part_of p).generators → F.post hear g t → turn_of t ≡ turned turn)
        → plan_of result ≡ planned no_relay (if_fitting (shows_view v (part_of p)) (rules.at_generator (part_of p) turn)) }
{
    if !parts::shows_view(p, v) {
        return Err(Refusal::BadStep);
    }
    Ok(at_generator(p, hear(parts::generator_for(p, v))))
}

// ---- entry

// "If q has views above w, propose those for w, not active; else active, event 1."
fn enters(p: Part, t: Transfer) -> Plan<Part>
    requires { shows_view t.new (part_of p) ≡ true }
    ensures { plan_of (Ok result) ≡ planned no_relay (rules.enters (with_transfers (part_of p) (transfer_of t ∷ [])) (transfer_of t)) }
{
    let w = t.new;
    let onward = transfers::onward(t);
    if views::count(onward) == 0 {
        return messages::tells(transfers::moved(p, t, true), Event::Opened(w));
    }
    let turn = generator::proposes(parts::generator_for(p, w), onward);
    at_generator(transfers::moved(p, t, false), turn)
}

// The transfer t is put back, then the entry test.
fn tested(p: Part, t: Transfer) -> Plan<Part>
    requires { shows_both t.old t.new (part_of p) ≡ true }
    ensures { plan_of (Ok result) ≡ planned no_relay (rules.tested (part_of p) (transfer_of t)) }
{
    if transfers::passes(t) {
        enters(p, t)
    } else {
        messages::quietly(transfers::with_transfer(p, t))
    }
}

// "If its view is inside w and it is a member of w, the transfer keeps q unless it has one already; then the entry test."
fn takes_install(s: u8, p: Part, o: u16, w: u16, q: Sequence) -> Plan<Part>
    requires { shows_both o w (part_of p) ≡ true }
    ensures { plan_of (Ok result) ≡ planned no_relay (rules.takes_install s (part_of p) o w (views_of q)) }
{
    if views::inside(p.head.view, w) && views::is_member(w, s) {
        tested(p, transfers::keeps(transfers::transfer_for(p, o, w), q))
    } else {
        messages::quietly(p)
    }
}

// "Install(o, w, q)"
fn install_heard(s: u8, p: Part, o: u16, w: u16, q: Sequence) -> Result<Plan<Part>, Refusal>
    ensures { plan_of result ≡ planned no_relay (if_fitting (shows_both o w (part_of p)) (rules.install_heard s (part_of p) o w (views_of q))) }
{
    if !parts::shows(p, o, w) {
        return Err(Refusal::BadStep);
    }
    if transfers::early(s, p, o) {
        return Err(Refusal::NotYet);
    }
    let later = takes_install(s, transfers::stopped(s, p, o, w), o, w, q);
    if !views::is_member(o, s) {
        return Ok(later);
    }
    let body = messages::state(o, w, p.head.holds, p.head.pending);
    Ok(messages::sent_first(messages::to_members(w, body), later))
}

// "note sender, greatest stamp with its value, updates"
fn gathers(t: Transfer, from: u8, pair: Pair, updates: u16) -> Transfer
    requires { from < sets.relay_count }
    ensures { transfer_of result ≡ rules.gathers (transfer_of t) from pair updates }
{
    Transfer {
        senders: t.senders | 1 << from,
        best: stamps::greatest(t.best, pair),
        gathered: views::join(t.gathered, updates),
        ..t
    }
}

// "State(o, w, ..): nothing unless the receiver's view is inside w. Else note sender, greatest stamp with its value, updates; then the entry test."
fn state_heard(
    p: Part,
    from: u8,
    o: u16,
    w: u16,
    pair: Pair,
    updates: u16,
) -> Result<Plan<Part>, Refusal>
    ensures { plan_of result ≡ planned no_relay (if_fitting (ltb from 8 && shows_both o w (part_of p)) (rules.state_heard (part_of p) from o w pair updates)) }
{
    if rules::RELAYS <= from as usize || !parts::shows(p, o, w) {
        return Err(Refusal::BadStep);
    }
    if !views::inside(p.head.view, w) {
        return Ok(messages::quietly(p));
    }
    Ok(tested(
        p,
        gathers(transfers::transfer_for(p, o, w), from, pair, updates),
    ))
}

// ---- gets and puts

// "NOT YET unless active and c equals the own view or is inside it. If inside: reply with the own view." If equal, the relay is `next`, and `reply` goes out.
fn served(
    p: Part,
    next: Part,
    from: u8,
    tries: u16,
    c: u16,
    reply: Body,
) -> Result<Plan<Part>, Refusal>
    ensures { plan_of result ≡ planned no_relay (if_fitting (ltb from 12) (rules.served_by (part_of p) (part_of next) from tries c (body_of reply))) }
{
    if rules::EVERYONE <= from as usize {
        return Err(Refusal::BadStep);
    }
    if !transfers::serves(p, c) {
        return Err(Refusal::NotYet);
    }
    let v = p.head.view;
    if views::inside(c, v) {
        return Ok(messages::sends(p, messages::to_one(from, messages::view_reply(tries, v))));
    }
    Ok(messages::sends(next, messages::to_one(from, reply)))
}

// "If equal: Get replies stamp and value;"
fn get_heard(p: Part, from: u8, tries: u16, c: u16) -> Result<Plan<Part>, Refusal>
    ensures { plan_of result ≡ planned no_relay (if_fitting (ltb from 12) (rules.get_heard (part_of p) from tries c)) }
{
    served(
        p,
        p,
        from,
        tries,
        c,
        messages::pair_reply(tries, p.head.holds),
    )
}

// "Put stores if its stamp is greater, and acknowledges either way."
fn put_heard(p: Part, from: u8, tries: u16, c: u16, pair: Pair) -> Result<Plan<Part>, Refusal>
    ensures { plan_of result ≡ planned no_relay (if_fitting (ltb from 12) (rules.put_heard (part_of p) from tries c pair)) }
{
    let head = Head {
        holds: stamps::greatest(p.head.holds, pair),
        ..p.head
    };
    served(p, Part { head, ..p }, from, tries, c, messages::ack(tries))
}

// ---- a message

// A message comes to the relay s. (Replies go to desks only.)
pub fn hears(s: u8, p: Part, from: u8, b: Body) -> Result<Plan<Part>, Refusal>
    ensures { plan_of result ≡ planned no_relay (hears_answer s (part_of p) from (body_of b)) }
{
    let q = b.sequence;
    match MessageKind::from(b.kind) {
        MessageKind::Request => request_heard(p, from, b.updates, b.first),
        MessageKind::View => Ok(messages::quietly(transfers::learns(p, b.first))),
        MessageKind::Proposal => heard_at(p, b.first, |g| generator::proposal_heard(g, from, q)),
        MessageKind::Converged => heard_at(p, b.first, |g| generator::converged_heard(g, from, q)),
        MessageKind::Install => install_heard(s, p, b.first, b.second, q),
        MessageKind::State => state_heard(p, from, b.first, b.second, b.pair, b.updates),
        MessageKind::Get => get_heard(p, from, b.tries, b.first),
        MessageKind::Put => put_heard(p, from, b.tries, b.first, b.pair),
        MessageKind::ViewReply | MessageKind::PairReply | MessageKind::Ack => {
            Ok(messages::quietly(p))
        }
    }
}
