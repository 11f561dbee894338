// What rows of several kinds have in them.
ghost use Rattle.std.specs.Prelude.{◌≡◌};
ghost use Rattle.views.specs.Row.{views_of};
ghost use Rattle.rules.specs.Sets.{members, within};
ghost use Rattle.rules.specs.WellFormed.{is_pair, is_zero_pair, good_move, good_installed};

use stamps::Pair;
use views::Sequence;

#[tactic(auto, unfolding(rules::specs::WellFormed::is_pair))]
pub(crate) fn good_pair(p: Pair) -> bool
    ensures { result ≡ is_pair p }
{
    (p.stamp.desk as usize) < rules::DESKS
}

pub(crate) fn is_zero_pair(p: Pair) -> bool
    ensures { result ≡ is_zero_pair p }
{
    p.stamp.count == 0 && p.stamp.desk == 0 && p.value == 0
}

// An old view and a new one.
#[tactic(auto, unfolding(rules::specs::WellFormed::good_move, rules::specs::Sets::all_hold))]
pub(crate) fn good_move(o: u16, w: u16) -> bool
    ensures { result ≡ good_move o w }
{
    views::members(o) != 0 && views::inside(o, w)
}

// An install's sequence.
#[tactic(auto, unfolding(rules::specs::WellFormed::good_installed, rules::specs::Sets::all_hold, rules::specs::Sets::none))]
pub(crate) fn good_installed(o: u16, w: u16, q: Sequence) -> bool
    ensures { result ≡ good_installed o w (views_of q) }
{
    views::count(q) != 0 && views::above(o, q) && views::least(q) == w
}

// Only members of v are in the set `who`.
pub(crate) fn are_members(who: u8, v: u16) -> bool
    ensures { result ≡ within who (members v) }
{
    views::within(who as u16, views::members(v) as u16)
}
