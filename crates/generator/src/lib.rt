// The rules at one generator: Propose, Proposal, Converged. Document 01, "Delivery at a relay".
#![tactic(auto, using(messages::proofs::Sent::all_is, messages::proofs::Made::said_is, crate::proofs::Rows::noted_means, views::proofs::Rows::held), unfolding(crate::specs::Heard::merged_in_row, crate::specs::Heard::hears_in_row, crate::specs::Heard::heard_in_row, rules::specs::Generators::hears, crate::specs::Rows::fresh_row, crate::specs::Rows::noted_row, state::specs::Plans::turn_of, state::specs::Plans::turned, state::specs::Meaning::generator_of, state::specs::Meaning::sending_of, rules::specs::Generators::proposes, rules::specs::Generators::with_own, rules::specs::Generators::settles, rules::specs::Generators::converged_heard, rules::specs::Generators::notes_converged, rules::specs::Generators::raises))]

ghost use Rattle.std.specs.Prelude.{◌≡◌, [], ◌∷◌};
ghost use Rattle.views.specs.Row.{views_of};
ghost use Rattle.rules.specs.Generators as rules;
ghost use Rattle.state.specs.Meaning.{notes_of, generator_of, sending_of};
ghost use Rattle.state.specs.Plans.{turn_of, turned};
ghost use Rattle.generator.specs.Heard.{turn, merged_in_row, heard_in_row};
ghost use Rattle.generator.specs.Rows.{fresh_row, noted_row};

use state::{Generator, Notes, Sending, Turn};
use views::Sequence;

pub fn fresh(v: u16) -> Generator
    ensures { result ≡ fresh_row v }
{
    let none = views::empty();
    let notes = Notes {
        of: [none; rules::RELAYS],
    };
    Generator {
        view: v,
        own: none,
        converged: none,
        raised: none,
        proposals: notes,
        convergences: notes,
    }
}

// There is no note of a sender above 7.
pub fn noted(n: Notes, from: u8, q: Sequence) -> Notes
    ensures { result ≡ noted_row n from q }
{
    // (`get_mut` would tell a proof nothing of the notes that it leaves.)
    let at = from as usize;
    let mut r = n;
    if at < r.of.len() {
        r.of[at] = q;
    }
    r
}

// The set of those whose last note is q; the notes come from the highest on, so that relay 0 has the lowest bit.
pub fn agreeing(n: Notes, q: Sequence) -> u8
    ensures { result ≡ rules.agreeing (notes_of n) (views_of q) }
{
    n.of.iter()
        .rev()
        .fold(0, |mask, note| mask << 1 | views::same(*note, q) as u8)
}

pub fn agree(v: u16, n: Notes, q: Sequence) -> bool
    ensures { result ≡ rules.agree v (notes_of n) (views_of q) }
{
    views::reaches(v, agreeing(n, q))
}

fn quiet(next: Generator) -> Turn
    ensures { turn_of result ≡ turned (turn (generator_of next) []) }
{
    Turn {
        next,
        sends: messages::nothing_sent(),
    }
}

fn sends(next: Generator, s: Sending) -> Turn
    ensures { turn_of result ≡ turned (turn (generator_of next) (sending_of s ∷ [])) }
{
    Turn {
        next,
        sends: messages::one_sent(s),
    }
}

// "Propose q for v: if v's generator has an empty own sequence, it becomes q and goes as proposal to all members of v, oneself too; else nothing."
pub fn proposes(g: Generator, q: Sequence) -> Turn
    ensures { turn_of result ≡ turned (rules.proposes (generator_of g) (views_of q)) }
{
    if 0 < views::count(g.own) {
        return quiet(g);
    }
    let v = g.view;
    sends(
        Generator { own: q, ..g },
        messages::to_members(v, messages::proposal(v, q)),
    )
}

// "Then, if own differs from converged and a quorum of v's last noted proposals equal own, converged becomes own and goes out to all members."
fn settles(g: Generator) -> Turn
    ensures { turn_of result ≡ turned (rules.settles (generator_of g)) }
{
    let v = g.view;
    let own = g.own;
    if views::same(own, g.converged) || !agree(v, g.proposals, own) {
        return quiet(g);
    }
    sends(
        Generator {
            converged: own,
            ..g
        },
        messages::to_members(v, messages::converged(v, own)),
    )
}

// "note it for the sender. If q has a view that own lacks: [..] own becomes [..]"
fn merged(g: Generator, from: u8, q: Sequence) -> Generator
    ensures { generator_of result ≡ merged_in_row (generator_of g) from (views_of q) }
{
    Generator {
        own: views::heard(g.own, g.converged, q),
        proposals: noted(g.proposals, from, q),
        ..g
    }
}

// "Proposal(v, q)"
pub fn proposal_heard(g: Generator, from: u8, q: Sequence) -> Turn
    ensures { turn_of result ≡ turned (heard_in_row (generator_of g) from (views_of q)) }
{
    let v = g.view;
    let heard = merged(g, from, q);
    let settled = settles(heard);
    if !views::lacks(q, g.own) {
        return settled;
    }
    let sent = messages::to_members(v, messages::proposal(v, heard.own));
    Turn {
        sends: messages::sent_before(sent, settled.sends),
        ..settled
    }
}

// "Converged(v, q): note it. If a quorum's last notes equal q and q is not the last raised, raise it:
// install(v, least(q), q) goes to all who are members of v or of least(q)."
pub fn converged_heard(g: Generator, from: u8, q: Sequence) -> Turn
    ensures { turn_of result ≡ turned (rules.converged_heard (generator_of g) from (views_of q)) }
{
    let v = g.view;
    let convergences = noted(g.convergences, from, q);
    let heard = Generator { convergences, ..g };
    if !agree(v, convergences, q) || views::same(q, g.raised) {
        return quiet(heard);
    }
    let w = views::least(q);
    sends(
        Generator { raised: q, ..heard },
        messages::to_both(v, w, messages::install(v, w, q)),
    )
}
