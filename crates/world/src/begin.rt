// What a start writes: the relays, and the desks.
ghost use Rattle.std.specs.Prelude.{◌≡◌, []};
ghost use Rattle.rules.specs.State.{start_relay, start_desk};
ghost use Rattle.layout.specs.Image.{image};
ghost use Rattle.state.specs.Meaning.{relay_of};
ghost use Rattle.world.specs.Commits.{begun};

use super::relay_number::RelayNumber;
use rules::{Desk, Phase};
use state::Head;

// "its relays are entered and active, the others have view 0 and aren't"
fn start_head(mask: u8, s: RelayNumber) -> Head
    ensures { relay_of result [] [] ≡ start_relay mask s.number }
{
    let known = mask as u16;
    let joined = (mask >> s.number) % 2 == 1;
    Head {
        alive: true,
        entered: joined,
        active: joined,
        view: if joined { known } else { 0 },
        known,
        pending: 0,
        holds: stamps::fresh(),
    }
}

pub(crate) fn put_relays(w: &mut [u8], mask: u8)
    ensures { w.old ≡ image (begun mask 0 0) → w.new ≡ image (begun mask 8 0) }
{
    for number in 0..rules::RELAYS as u8 {
        let s = RelayNumber { number };
        image::put_head(w, s.row(), start_head(mask, s));
    }
}

#[tactic(auto, unfolding(rules::specs::State::start_desk))]
fn start_desk(mask: u8) -> Desk
    ensures { result ≡ start_desk mask }
{
    Desk {
        alive: true,
        view: mask as u16,
        phase: Phase::Idle,
        tries: 0,
        holds: stamps::fresh(),
        replied: 0,
        best: stamps::fresh(),
        agreed: false,
    }
}

pub(crate) fn put_desks(w: &mut [u8], mask: u8)
    ensures { w.old ≡ image (begun mask 8 0) → w.new ≡ image (begun mask 8 4) }
{
    let desk = start_desk(mask);
    // A number here is a desk: which row is written.
    for n in 0..rules::DESKS {
        image::put_desk(w, layout::WORLD_DESKS + n * layout::DESK_WIDTH, desk);
    }
}
