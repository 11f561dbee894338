// Document 01, "The world" and "Steps": start and one step on a lent buffer. A step makes a plan by value, and only a plan that finds room is written:
// so a refused step changes no byte.
//
// That the buffer is a good world stands in clauses, and no type keeps it: between the writes of one step it is none, and a type that holds a `&mut` would have
// to keep it at each.
#![tactic(auto)]

ghost use Rattle.std.specs.Prelude.{◌≡◌, ◌≢◌, true, false, ℕ, ◌≤◌, ◌<◌, Result, unwrap_or};
ghost use Rattle.rules.specs.Messages as rules;
ghost use Rattle.rules.specs.State.{Relay, no_relay, no_desk, waiting, place_at};
ghost use Rattle.rules.specs.declared.Desk as code;
ghost use Rattle.rules.specs.Steps as steps;
ghost use Rattle.layout.specs.Image.{world_at, good_bytes};
ghost use Rattle.layout.specs.Lent as lent;
ghost use Rattle.state.specs.Meaning.{part_of, body_of, message_of, event_of};
ghost use Rattle.state.specs.Plans.{plan_of, desk_plan_of, planned};
ghost use Rattle.world.specs.Answer.{report_of, answer_of, lent_of, done_of};
ghost use Rattle.locality.specs.Narrow.{generator_of_body, move, move_of_body};
ghost use Rattle.locality.specs.Asked.{Few, relay_asked, desk_asked};
ghost use Rattle.relay.specs.Fitting.{shows_view};
ghost use Rattle.rules.specs.Coded.{kind_number};
ghost use Rattle.rules.specs.declared.StepKind.TheVariants.{Write};
ghost use Rattle.rules.specs.declared.Refusal as code-refusal;
ghost use Rattle.state.specs.declared.Part as code-part;
ghost use Rattle.state.specs.declared.Plan as code-plan;
ghost use Rattle.world.specs.Tracing.{waiting_rows};
ghost use Rattle.world.specs.Commits.{delivered, relay_left, desk_left, relay_steps, desk_steps, crash_steps};

use layout::MessageKind;
use relay_number::RelayNumber;
use rules::{Desk, Refusal, Step, StepKind};
use stamps::Pair;
use state::{Body, Event, Message, Part, Plan};

mod begin; // what a start writes
mod reads; // what a step looks up
mod relay_number; // which relay it is about
pub mod run; // a whole sheet
mod writes; // what it writes

// Who: "0..7 relays, 8..11 desks".
const FIRST_DESK: u8 = rules::RELAYS as u8;

const EVERYONE: u8 = rules::EVERYONE as u8;

// "event": none, a view opened, a read or a write ended.
#[derive(Clone, Copy)]
pub enum Report {
    Nothing,
    Opened { relay: u8, view: u16 },
    ReadDone { desk: u8, pair: Pair },
    WriteDone { desk: u8, pair: Pair },
}

// A step's answer: its number, and what it reports. (Document 01, "Places and their forms": "a step answer struct holding an event enum".)
#[derive(Clone, Copy)]
pub struct Answer {
    pub number: u8,
    pub report: Report,
}

// "All but 0 report event 0 with zero fields and change nothing."
impl From<Result<Report, Refusal>> for Answer {
    ghost from_gives = { λ done answer. answer ≡ answer_of done };

    #[tactic(auto, unfolding(crate::specs::Answer::answer_of))]
    fn from(done: Result<Report, Refusal>) -> Self {
        match done {
            Ok(report) => Answer { number: 0, report },
            Err(refusal) => Answer {
                number: refusal.number(),
                report: Report::Nothing,
            },
        }
    }
}

// Done: the event, and the relay or the desk that it is about.
#[tactic(auto, unfolding(crate::specs::Answer::report_of, state::specs::Meaning::event_of))]
fn tells(event: Event, who: u8) -> Report
    ensures { report_of result ≡ steps.reports (event_of event) who }
{
    match event {
        Event::Nothing => Report::Nothing,
        Event::Opened(view) => Report::Opened { relay: who, view },
        Event::ReadDone(pair) => Report::ReadDone { desk: who, pair },
        Event::WriteDone(pair) => Report::WriteDone { desk: who, pair },
    }
}

// ---- commits

// What the relay s answers is refused, or done; p is the delivered place, if any.
fn relay_commits(
    w: &mut [u8],
    s: RelayNumber,
    p: Option<u8>,
    plan: Result<Plan<Part>, Refusal>,
) -> Result<Report, Refusal>
    requires { good_bytes w.old ≡ true }
    ensures { (n : ℕ) (a : rules.Answer Relay) → plan_of plan ≡ planned no_relay a → Few a → delivered (world_at w.old) (unwrap_or p 256) ≡ true
        → done_of result w.new ≡ relay_left w.old n (unwrap_or p 256) s.number a }
{
    // no `?`, which moves a plan of a kilobyte twice more
    let plan = match plan {
        Ok(plan) => plan,
        Err(refusal) => return Err(refusal),
    };
    if !reads::has_room(w, p, plan.sends) {
        return Err(Refusal::NoRoom);
    }
    if !reads::has_seats(w, s, plan.next) {
        return Err(Refusal::NoRoom);
    }
    writes::put_part(w, s, plan.next);
    writes::free(w, p);
    writes::send_all(w, s.number, plan.sends);
    Ok(tells(plan.event, s.number))
}

// The same of the desk n. (Not one function for both: of the relay's answer seats are asked too, and each is written in its own way.)
fn desk_commits(
    w: &mut [u8],
    n: u8,
    p: Option<u8>,
    plan: Result<Plan<Desk>, Refusal>,
) -> Result<Report, Refusal>
    requires { (good_bytes w.old ≡ true) × (n < 4) }
    ensures { (k : ℕ) (a : rules.Answer code.Desk) → desk_plan_of plan ≡ planned no_desk a → Few a → delivered (world_at w.old) (unwrap_or p 256) ≡ true
        → done_of result w.new ≡ desk_left w.old k (unwrap_or p 256) n a }
{
    let plan = plan?;
    let number = FIRST_DESK + n;
    if !reads::has_room(w, p, plan.sends) {
        return Err(Refusal::NoRoom);
    }
    image::put_desk(w, reads::row_of(number), plan.next);
    writes::free(w, p);
    writes::send_all(w, number, plan.sends);
    Ok(tells(plan.event, n))
}

// ---- steps of a relay and of a desk

// "1 JOIN relay, 2 LEAVE relay, 3 TIMER relay": what the step asks of the relay s, of which it sees the generator of its own view.
fn relay_acts<F: FnOnce(u8, Part) -> Result<Plan<Part>, Refusal>>(
    w: &mut [u8],
    s: u8,
    ask: F,
) -> Result<Report, Refusal>
    requires good { good_bytes w.old ≡ true }
    requires callable { F.IsAlwaysCallable ask }
    ensures { (kind : ℕ)
        → ((part : code-part.Part) (plan : Result (code-plan.Plan code-part.Part) code-refusal.Refusal) → s < 8
        → shows_view (part_of part).view (part_of part) ≡ true
        → F.post ask s part plan → plan_of plan ≡ planned no_relay (relay_asked kind s (part_of part)))
        → done_of result w.new ≡ lent.left w.old (relay_steps (world_at w.old) kind s) }
{
    let Some(s) = RelayNumber::of(s) else {
        return Err(Refusal::BadStep);
    };
    if !reads::alive_at(w, s.number) {
        return Err(Refusal::Dead);
    }
    let view = rows::read_u16(w, s.row() + layout::HEAD_VIEW);
    let part = reads::part_at(w, s, view, 0, 0);
    relay_commits(w, s, None, ask(s.number, part))
}

// "4 READ desk, 5 WRITE desk value": what the step asks of the desk n.
fn desk_acts<F: FnOnce(Desk) -> Result<Plan<Desk>, Refusal>>(
    w: &mut [u8],
    n: u8,
    ask: F,
) -> Result<Report, Refusal>
    requires good { good_bytes w.old ≡ true }
    requires callable { F.IsAlwaysCallable ask }
    ensures { (kind x : ℕ)
        → ((desk : code.Desk) (plan : Result (code-plan.Plan code.Desk) code-refusal.Refusal)
        → F.post ask desk plan → desk_plan_of plan ≡ planned no_desk (desk_asked kind x desk))
        → done_of result w.new ≡ lent.left w.old (desk_steps (world_at w.old) kind n x) }
{
    if rules::DESKS <= n as usize {
        return Err(Refusal::BadStep);
    }
    let number = FIRST_DESK + n;
    if !reads::alive_at(w, number) {
        return Err(Refusal::Dead);
    }
    let desk = image::desk_at(w, reads::row_of(number));
    desk_commits(w, n, None, ask(desk))
}

// ---- delivery

// Which generator, and which transfer, a message is about; view 0, which is no view, where none (as `generator_of_body` and `move_of_body` have it).
#[derive(Clone, Copy)]
struct About {
    generator: u16,
    old: u16,
    new: u16,
}

#[tactic(auto, unfolding(state::specs::Meaning::body_of, layout::specs::Image::body_in))]
fn about_of(b: Body) -> About
    ensures { (result.generator ≡ generator_of_body (body_of b)) × (move result.old result.new ≡ move_of_body (body_of b)) }
{
    let none = About {
        generator: 0,
        old: 0,
        new: 0,
    };
    match MessageKind::from(b.kind) {
        MessageKind::Install | MessageKind::State => About {
            generator: b.second,
            old: b.first,
            new: b.second,
        },
        MessageKind::Proposal | MessageKind::Converged => About {
            generator: b.first,
            ..none
        },
        MessageKind::Request | MessageKind::View => none,
        MessageKind::Get | MessageKind::Put => none,
        MessageKind::ViewReply | MessageKind::PairReply | MessageKind::Ack => none,
    }
}

// (Not one function with `to_desk`: the row that is read, the rule and the commit differ; what they share is their order.)
fn to_relay(w: &mut [u8], p: u8, m: Message) -> Result<Report, Refusal>
    requires { (good_bytes w.old ≡ true) × ((place_at (world_at w.old) p ≡ waiting (message_of m)) × (m.to < 8)) }
    ensures { done_of result w.new ≡ lent.left w.old (steps.delivers (steps.freed (world_at w.old) p) (message_of m)) }
{
    let to = RelayNumber { number: m.to };
    let body = m.body;
    let about = about_of(body);
    let part = reads::part_at(w, to, about.generator, about.old, about.new);
    relay_commits(w, to, Some(p), relay::hears(m.to, part, m.from, body))
}

fn to_desk(w: &mut [u8], p: u8, m: Message) -> Result<Report, Refusal>
    requires { (good_bytes w.old ≡ true) × ((place_at (world_at w.old) p ≡ waiting (message_of m)) × ((8 ≤ m.to) × (m.to < 12))) }
    ensures { done_of result w.new ≡ lent.left w.old (steps.delivers (steps.freed (world_at w.old) p) (message_of m)) }
{
    let n = m.to - FIRST_DESK;
    let body = m.body;
    let desk = image::desk_at(w, reads::row_of(m.to));
    desk_commits(w, n, Some(p), desk::hears(n, desk, m.from, body))
}

// "6 DELIVER place"
fn deliver(w: &mut [u8], p: u8) -> Result<Report, Refusal>
    requires { good_bytes w.old ≡ true }
    ensures { done_of result w.new ≡ lent.left w.old (steps.acts (world_at w.old) (steps.deliver p)) }
{
    if reads::is_free(w, p as usize) {
        return Err(Refusal::Empty);
    }
    let m = image::message_at(w, layout::WORLD_PLACES + p as usize * layout::MESSAGE_WIDTH);
    if !reads::alive_at(w, m.to) {
        return Err(Refusal::Dead);
    }
    if m.to < FIRST_DESK {
        return to_relay(w, p, m);
    }
    to_desk(w, p, m)
}

// "7 DROP place"; "DROP only frees"
fn drops(w: &mut [u8], p: u8) -> Result<Report, Refusal>
    requires { good_bytes w.old ≡ true }
    ensures { done_of result w.new ≡ lent.left w.old (steps.acts (world_at w.old) (steps.drop p)) }
{
    if reads::is_free(w, p as usize) {
        return Err(Refusal::Empty);
    }
    writes::free(w, Some(p));
    Ok(Report::Nothing)
}

// "8 CRASH who"; "CRASH only ends alive"
fn crash(w: &mut [u8], who: u8) -> Result<Report, Refusal>
    requires { good_bytes w.old ≡ true }
    ensures { done_of result w.new ≡ lent.left w.old (crash_steps (world_at w.old) who) }
{
    if EVERYONE <= who {
        return Err(Refusal::BadStep);
    }
    if !reads::alive_at(w, who) {
        return Err(Refusal::Dead);
    }
    rows::put_byte(w, reads::row_of(who), 0);
    Ok(Report::Nothing)
}

// ---- one step

// "A value other than 0 belongs to WRITE only."
fn is_stray(kind: StepKind, value: u32) -> bool
    ensures stray { result ≡ true → (kind ≢ Write) × (value ≢ 0) }
    ensures allowed { result ≡ false → kind ≢ Write → value ≡ 0 }
{
    kind != StepKind::Write && value != 0
}

// What a step of this kind does to a good world.
fn acts(w: &mut [u8], kind: StepKind, k: Step) -> Result<Report, Refusal>
    requires good { good_bytes w.old ≡ true }
    requires kind { k.kind ≡ kind_number kind }
    requires value { kind ≢ Write → k.value ≡ 0 }
    ensures { done_of result w.new ≡ lent.lent_step w.old k }
{
    match kind {
        StepKind::Join => relay_acts(w, k.id, relay::join_asked),
        StepKind::Leave => relay_acts(w, k.id, relay::leave_asked),
        StepKind::Timer => relay_acts(w, k.id, |_s, part| relay::timer_rang(part)),
        StepKind::Read => desk_acts(w, k.id, desk::read_asked),
        StepKind::Write => desk_acts(w, k.id, |desk| desk::write_asked(desk, k.value)),
        StepKind::Deliver => deliver(w, k.id),
        StepKind::Drop => drops(w, k.id),
        StepKind::Crash => crash(w, k.id),
    }
}

// A step of a good world.
fn step_good(w: &mut [u8], k: Step) -> Result<Report, Refusal>
    requires { good_bytes w.old ≡ true }
    ensures { done_of result w.new ≡ lent.lent_step w.old k }
{
    let kind = StepKind::try_from(k.kind)?;
    if is_stray(kind, k.value) {
        return Err(Refusal::BadStep);
    }
    acts(w, kind, k)
}

// BAD WORLD: "world not good".
fn step_any(w: &mut [u8], k: Step) -> Result<Report, Refusal>
    ensures { done_of result w.new ≡ lent.lent_step w.old k }
{
    if !good::is_good(w) {
        return Err(Refusal::BadWorld);
    }
    step_good(w, k)
}

// Any step on any buffer.
pub fn step(w: &mut [u8], k: Step) -> Answer
    ensures { lent_of result w.new ≡ lent.lent_step w.old k }
{
    step_any(w, k).into()
}

// ---- the start

// BAD WORLD for another length, then BAD STEP for mask 0.
fn start_any(w: &mut [u8], mask: u8) -> Result<Report, Refusal>
    ensures { done_of result w.new ≡ lent.lent_start w.old mask }
{
    if w.len() != layout::WORLD_WIDTH {
        return Err(Refusal::BadWorld);
    }
    if mask == 0 {
        return Err(Refusal::BadStep);
    }
    rows::clear(w, 0, layout::WORLD_WIDTH);
    begin::put_relays(w, mask);
    begin::put_desks(w, mask);
    Ok(Report::Nothing)
}

// "Start: a mask 1..255 of relays."
pub fn start(w: &mut [u8], mask: u8) -> Answer
    ensures { lent_of result w.new ≡ lent.lent_start w.old mask }
{
    start_any(w, mask).into()
}

// ---- what waits

// How many places hold a message, of whatever bytes.
pub fn waiting(w: &[u8]) -> u32
    ensures { result ≡ waiting_rows w.now }
{
    (rules::PLACES - reads::free_places(w)) as u32
}
