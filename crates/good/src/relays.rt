// The eight relays.
ghost use Rattle.std.specs.Prelude.{◌≡◌, not, [], ◌<◌, eqb, length, ◌&&◌};
ghost use Rattle.rows.specs.Tests.{all};
ghost use Rattle.rules.specs.Sets.{member};
ghost use Rattle.rules.specs.WellFormed.{implies, same_bool, good_relay};
ghost use Rattle.layout.specs.Layout.{world_width};
ghost use Rattle.layout.specs.Image.{head_bytes};
ghost use Rattle.state.specs.Meaning.{relay_of};
ghost use Rattle.image.specs.Parts.{head_at};
ghost use Rattle.image.proofs.Widths.{length_head};
ghost use Rattle.good.specs.Rows.{head_good, relay_good};
ghost use Rattle.good.specs.Meant.{head_means};

use super::parts;
use super::row::{Row, good_row};
use super::tables::good_table;
use layout::{GENERATOR_WIDTH, HEAD_WIDTH, TRANSFER_WIDTH};
use state::{Generator, Head, Transfer};

// "active implies entered and member"
fn good_active(active: bool, entered: bool, v: u16, s: u8) -> bool
    ensures { result ≡ implies active (entered && member v s) }
{
    !active || entered && views::is_member(v, s)
}

// "a relay has view 0 exactly when it hasn't entered"
fn good_entered(entered: bool, v: u16) -> bool
    ensures { result ≡ same_bool entered (not (eqb v 0)) }
{
    entered == (v != 0)
}

impl Row<HEAD_WIDTH> for Head {
    ghost row_at = { head_at };

    ghost tested = { λ s h. good_relay s (relay_of h [] []) };

    ghost bytes = { λ h. head_bytes (relay_of h [] []) };

    ghost good = { head_good };

    fn read(w: &[u8], at: usize) -> Head {
        image::head_at(w, at)
    }

    #[tactic(auto, using(crate::proofs::World::head_tested), unfolding(rules::specs::Sets::all_hold))]
    fn is_good(self, s: u8) -> bool {
        parts::good_pair(self.holds)
            && good_active(self.active, self.entered, self.view, s)
            && good_entered(self.entered, self.view)
    }

    fn put(&self, row: &mut [u8]) {
        image::put_head(row, 0, *self);
    }

    ghost wide = { λ h. length_head (relay_of h [] []) };

    ghost means = { head_means };
}

#[tactic(auto, unfolding(crate::specs::Rows::relay_good))]
fn good_relay(w: &[u8], s: u8) -> bool
    requires { (length w.now ≡ world_width) × (s < 8) }
    ensures { result ≡ relay_good w.now s }
{
    let at = s as usize * layout::RELAY_WIDTH;
    good_row::<Head, HEAD_WIDTH>(w, s, at)
        && good_table::<Generator, GENERATOR_WIDTH>(w, s, at + layout::RELAY_GENERATORS)
        && good_table::<Transfer, TRANSFER_WIDTH>(w, s, at + layout::RELAY_TRANSFERS)
}

pub(crate) fn good_relays(w: &[u8]) -> bool
    requires { length w.now ≡ world_width }
    ensures { result ≡ all 8 (relay_good w.now) }
{
    (0..rules::RELAYS as u8).all(|s| good_relay(w, s))
}
