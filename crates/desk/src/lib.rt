// Document 01, "Delivery at a desk", and READ and WRITE: what a desk answers to each thing that is put to it.
#![tactic(auto, using(crate::proofs::Laws::plans))]

ghost use Rattle.std.specs.Prelude.{◌≡◌, true, [], ◌<◌, if◌then◌else◌};
ghost use Rattle.rules.specs.Sets.{relay_count};
ghost use Rattle.rules.specs.Messages.{not_now, refused};
ghost use Rattle.rules.specs.State.{no_desk};
ghost use Rattle.rules.specs.Desks as rule;
ghost use Rattle.state.specs.Meaning.{body_of};
ghost use Rattle.state.specs.Plans.{planned, desk_plan_of};
ghost use Rattle.messages.specs.Made.{plan_of_all};
ghost use Rattle.desk.specs.Replies.{reply_noted};

use layout::MessageKind;
use rules::{Desk, Phase, Refusal};
use stamps::{Pair, Stamp};
use state::{Body, Event, Plan};

fn is_first(phase: Phase) -> bool
    ensures { result ≡ rule.is_first phase }
{
    matches!(phase, Phase::Read1 | Phase::Write1)
}

#[tactic(auto, using(crate::proofs::Laws::asked))]
fn asks(phase: Phase, tries: u16, v: u16, p: Pair) -> Body
    ensures { body_of result ≡ rule.asks phase tries v p }
{
    if is_first(phase) {
        messages::get(tries, v)
    } else {
        messages::put(tries, v, p)
    }
}

// "Each phase begins by adding 1 to the try, clearing the replies and sending to all members of the desk's view"
#[tactic(auto, using(crate::proofs::Laws::plans), unfolding(rules::specs::Desks::begins))]
fn begins(d: Desk, phase: Phase, v: u16, p: Pair) -> Result<Plan<Desk>, Refusal>
    ensures { desk_plan_of result ≡ planned no_desk (rule.begins d phase v p) }
{
    let tries = d.tries.checked_add(1).ok_or(Refusal::Worn)?;
    let body = asks(phase, tries, v, p);
    Ok(messages::sends(d.begun(phase, v, p), messages::to_members(v, body)))
}

// "READ and WRITE are NOT NOW unless the desk is idle."
fn asked(d: Desk, phase: Phase, p: Pair) -> Result<Plan<Desk>, Refusal>
    ensures { desk_plan_of result ≡ planned no_desk (if rule.is_idle d.phase then rule.begins d phase d.view p else refused not_now) }
{
    if d.phase == Phase::Idle {
        begins(d, phase, d.view, p)
    } else {
        Err(Refusal::NotNow)
    }
}

#[tactic(auto, unfolding(rules::specs::Desks::read_asked))]
pub fn read_asked(d: Desk) -> Result<Plan<Desk>, Refusal>
    ensures { desk_plan_of result ≡ planned no_desk (rule.read_asked d) }
{
    asked(d, Phase::Read1, stamps::fresh())
}

#[tactic(auto, unfolding(rules::specs::Desks::write_asked))]
pub fn write_asked(d: Desk, x: u32) -> Result<Plan<Desk>, Refusal>
    ensures { desk_plan_of result ≡ planned no_desk (rule.write_asked d x) }
{
    let p = Pair {
        value: x,
        ..stamps::fresh()
    };
    asked(d, Phase::Write1, p)
}

// A reply that may count: to a desk that is not idle, of its try, from a member of its view, and so from a relay.
#[tactic(auto, using(views::proofs::Sets::member_lt))]
fn current(d: Desk, from: u8, tries: u16) -> bool
    ensures { (result ≡ rule.current d from tries) × (result ≡ true → from < relay_count) }
{
    d.phase != Phase::Idle && tries == d.tries && views::is_member(d.view, from)
}

// "A view reply that strictly includes the desk's view is adopted and the phase starts again; any other does nothing."
#[tactic(auto, using(crate::proofs::Laws::plans), unfolding(rules::specs::Desks::view_came))]
fn view_came(d: Desk, from: u8, tries: u16, v: u16) -> Result<Plan<Desk>, Refusal>
    ensures { desk_plan_of result ≡ planned no_desk (rule.view_came d from tries v) }
{
    if current(d, from, tries) && views::inside(d.view, v) {
        begins(d, d.phase, v, d.holds)
    } else {
        Ok(messages::quietly(d))
    }
}

// "an acknowledgement sets only who replied."
fn notes_ack(d: Desk, from: u8) -> Desk
    requires { from < relay_count }
    ensures { result ≡ rule.notes_ack d from }
{
    Desk {
        replied: d.replied | (1u8 << from),
        ..d
    }
}

// One comparison tells whether the reply is the best, and whether it agrees with those before. Only the relays 0 to 7 have a bit to be noted by.
fn notes_pair(d: Desk, from: u8, p: Pair) -> Desk
    ensures { result ≡ reply_noted d from p }
{
    if rules::RELAYS <= from as usize {
        return d;
    }
    let order = stamps::compare(p.stamp, d.best.stamp);
    let is_greater = order == 1;
    let is_same = order == 0;
    Desk {
        best: if is_greater { p } else { d.best },
        agreed: d.replied == 0 || d.agreed && is_same,
        ..notes_ack(d, from)
    }
}

// "who replied, best reply, whether all stamps agreed": the one thin function that notes a reply in a desk record lent by &mut. Its
// work is done by value, above.
pub fn note_reply(desk: &mut Desk, from: u8, p: Pair)
    ensures { desk.new ≡ reply_noted desk.old from p }
{
    *desk = notes_pair(*desk, from, p);
}

// Lends a record that came by value.
fn with_reply(d: Desk, from: u8, p: Pair) -> Desk
    ensures { result ≡ reply_noted d from p }
{
    let mut held = d;
    note_reply(&mut held, from, p);
    held
}

// "Idle, only alive, view and try stay."
fn ends(d: Desk, event: Event) -> Plan<Desk>
    ensures { result ≡ plan_of_all (rule.ended d) [] event }
{
    messages::tells(d.ended(), event)
}

// "write 1 takes (greatest count + 1, own number) and starts write 2"
#[tactic(auto, using(crate::proofs::Laws::plans), unfolding(rules::specs::Desks::takes_stamp))]
fn takes_stamp(n: u8, d: Desk) -> Result<Plan<Desk>, Refusal>
    ensures { desk_plan_of result ≡ planned no_desk (rule.takes_stamp n d) }
{
    let count = d.best.stamp.count.checked_add(1).ok_or(Refusal::Worn)?;
    let p = Pair {
        stamp: Stamp { count, desk: n },
        ..d.holds
    };
    begins(d, Phase::Write2, d.view, p)
}

// "read 1 ends with event 2 if all stamps agreed, else read 2 puts back the greatest; read 2 ends, event 2"; "write 2 ends, event 3"
#[tactic(auto, using(crate::proofs::Laws::plans), unfolding(rules::specs::Desks::completes, state::specs::Meaning::event_of))]
fn completes(n: u8, d: Desk) -> Result<Plan<Desk>, Refusal>
    ensures { desk_plan_of result ≡ planned no_desk (rule.completes n d d.phase) }
{
    match d.phase {
        Phase::Idle => Ok(messages::quietly(d)),
        Phase::Read1 if d.agreed => Ok(ends(d, Event::ReadDone(d.best))),
        Phase::Read1 => begins(d, Phase::Read2, d.view, d.best),
        Phase::Read2 => Ok(ends(d, Event::ReadDone(d.holds))),
        Phase::Write1 => takes_stamp(n, d),
        Phase::Write2 => Ok(ends(d, Event::WriteDone(d.holds))),
    }
}

// "At a quorum of replies"
#[tactic(auto, using(crate::proofs::Laws::plans), unfolding(rules::specs::Desks::counted))]
fn counted(n: u8, d: Desk) -> Result<Plan<Desk>, Refusal>
    ensures { desk_plan_of result ≡ planned no_desk (rule.counted n d) }
{
    if views::reaches(d.view, d.replied) {
        completes(n, d)
    } else {
        Ok(messages::quietly(d))
    }
}

// A stamp and its value, which count in phase 1: of the other phase's kind, a reply does nothing.
#[tactic(auto, using(crate::proofs::Laws::plans), unfolding(rules::specs::Desks::pair_came, crate::specs::Replies::reply_noted))]
fn pair_came(n: u8, d: Desk, from: u8, tries: u16, p: Pair) -> Result<Plan<Desk>, Refusal>
    ensures { desk_plan_of result ≡ planned no_desk (rule.pair_came n d from tries p) }
{
    if current(d, from, tries) && is_first(d.phase) {
        counted(n, with_reply(d, from, p))
    } else {
        Ok(messages::quietly(d))
    }
}

// An acknowledgement, which counts in phase 2.
#[tactic(auto, using(crate::proofs::Laws::plans), unfolding(rules::specs::Desks::ack_came))]
fn ack_came(n: u8, d: Desk, from: u8, tries: u16) -> Result<Plan<Desk>, Refusal>
    ensures { desk_plan_of result ≡ planned no_desk (rule.ack_came n d from tries) }
{
    if current(d, from, tries) && matches!(d.phase, Phase::Read2 | Phase::Write2) {
        counted(n, notes_ack(d, from))
    } else {
        Ok(messages::quietly(d))
    }
}

// What comes to the desk n. All but replies go to relays only: a desk does nothing about them.
#[tactic(auto, using(crate::proofs::Laws::plans), unfolding(rules::specs::Desks::desk_hears, state::specs::Meaning::body_of, layout::specs::Image::body_in))]
pub fn hears(n: u8, d: Desk, from: u8, b: Body) -> Result<Plan<Desk>, Refusal>
    ensures { desk_plan_of result ≡ planned no_desk (rule.desk_hears n d from (body_of b)) }
{
    match MessageKind::from(b.kind) {
        MessageKind::ViewReply => view_came(d, from, b.tries, b.first),
        MessageKind::PairReply => pair_came(n, d, from, b.tries, b.pair),
        MessageKind::Ack => ack_came(n, d, from, b.tries),
        MessageKind::Request
        | MessageKind::View
        | MessageKind::Proposal
        | MessageKind::Converged
        | MessageKind::Install
        | MessageKind::State
        | MessageKind::Get
        | MessageKind::Put => Ok(messages::quietly(d)),
    }
}
