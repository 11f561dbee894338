// Transfers, and a part's head as it goes from view to view.
#![tactic(auto, unfolding(state::specs::Meaning::part_of, state::specs::Meaning::relay_of, state::specs::Meaning::transfer_of, rules::specs::Relays::keeps, rules::specs::Relays::learns, rules::specs::State::with_known, rules::specs::State::with_active, rules::specs::State::with_transfers))]

ghost use Rattle.std.specs.Prelude.{◌≡◌, [], ◌∷◌, if◌then◌else◌};
ghost use Rattle.views.specs.Row.{views_of};
ghost use Rattle.rules.specs.Sets.{inside};
ghost use Rattle.rules.specs.Sets as sets;
ghost use Rattle.rules.specs.State.{with_transfers};
ghost use Rattle.rules.specs.Relays as rules;
ghost use Rattle.state.specs.Meaning.{transfer_of, part_of};

use state::{Head, Part, Transfer};
use views::Sequence;

pub(crate) fn fresh(o: u16, w: u16) -> Transfer
    ensures { transfer_of result ≡ rules.fresh_transfer o w }
{
    Transfer {
        old: o,
        new: w,
        sequence: views::empty(),
        senders: 0,
        best: stamps::fresh(),
        gathered: 0,
    }
}

// The transfer from o to w; one that is absent is fresh.
pub(crate) fn transfer_for(p: Part, o: u16, w: u16) -> Transfer
    ensures { transfer_of result ≡ rules.transfer_for o w (part_of p).transfers }
{
    match p.transfer {
        Some(t) if t.old == o && t.new == w => t,
        _ => fresh(o, w),
    }
}

pub(crate) fn with_transfer(p: Part, t: Transfer) -> Part
    ensures { part_of result ≡ with_transfers (part_of p) (transfer_of t ∷ []) }
{
    Part {
        transfer: Some(t),
        ..p
    }
}

// "the transfer keeps q unless it has one already"
pub(crate) fn keeps(t: Transfer, q: Sequence) -> Transfer
    ensures { transfer_of result ≡ rules.keeps (transfer_of t) (views_of q) }
{
    if 0 < views::count(t.sequence) {
        t
    } else {
        Transfer { sequence: q, ..t }
    }
}

// "Entry test: install present and a quorum of o has sent state."
pub(crate) fn passes(t: Transfer) -> bool
    ensures { result ≡ rules.passes (transfer_of t) }
{
    0 < views::count(t.sequence) && views::reaches(t.old, t.senders)
}

// The views above w.
pub(crate) fn onward(t: Transfer) -> Sequence
    ensures { views_of result ≡ rules.onward (transfer_of t) }
{
    views::beyond(t.new, t.sequence)
}

// The view known after v is told.
pub(crate) fn newer(known: u16, v: u16) -> u16
    ensures { result ≡ (if inside known v then v else known) }
{
    if views::inside(known, v) { v } else { known }
}

// "who keeps it as known view if the one known is inside it."
pub(crate) fn learns(p: Part, v: u16) -> Part
    ensures { part_of result ≡ rules.learns (part_of p) v }
{
    let known = newer(p.head.known, v);
    Part {
        head: Head { known, ..p.head },
        ..p
    }
}

// The updates of a that are not in b.
pub(crate) fn less(a: u16, b: u16) -> u16
    ensures { result ≡ sets.less a b }
{
    a - (a & b)
}

// The part after the entry by t. "transfers whose new view does not strictly include w are freed": t is one of them.
pub(crate) fn moved(p: Part, t: Transfer, active: bool) -> Part
    ensures { part_of result ≡ rules.moved (with_transfers (part_of p) (transfer_of t ∷ [])) (transfer_of t) active }
{
    let w = t.new;
    let head = Head {
        entered: true,
        active,
        view: w,
        known: newer(p.head.known, w),
        pending: less(views::join(p.head.pending, t.gathered), w),
        holds: t.best,
        ..p.head
    };
    Part {
        head,
        transfer: None,
        ..p
    }
}

// "NOT YET exactly if the receiver is a member of o and its own view neither equals nor includes o (view 0 never does)."
pub(crate) fn early(s: u8, p: Part, o: u16) -> bool
    ensures { result ≡ rules.early s (part_of p) o }
{
    views::is_member(o, s) && p.head.view != o && !views::inside(o, p.head.view)
}

// "A member of o, if its view is inside w, stops being active;"
pub(crate) fn stopped(s: u8, p: Part, o: u16, w: u16) -> Part
    ensures { part_of result ≡ rules.stopped s (part_of p) o w }
{
    if views::is_member(o, s) && views::inside(p.head.view, w) {
        Part {
            head: Head {
                active: false,
                ..p.head
            },
            ..p
        }
    } else {
        p
    }
}

// "NOT YET unless active and c equals the own view or is inside it."
pub(crate) fn serves(p: Part, c: u16) -> bool
    ensures { result ≡ rules.serves (part_of p) c }
{
    p.head.active && (c == p.head.view || views::inside(c, p.head.view))
}
