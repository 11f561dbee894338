// A relay's eight transfers.
ghost use Rattle.std.specs.Prelude.{◌≡◌, ◌||◌};
ghost use Rattle.views.specs.Row.{views_of};
ghost use Rattle.rules.specs.Sets.{none};
ghost use Rattle.rules.specs.WellFormed.{good_installed, good_transfer};
ghost use Rattle.layout.specs.Image.{transfer_bytes};
ghost use Rattle.state.specs.Meaning.{transfer_of};
ghost use Rattle.image.specs.Parts.{transfer_row_at};
ghost use Rattle.image.proofs.Widths.{length_transfer};
ghost use Rattle.good.specs.Rows.{transfer_row_good, other_transfer};
ghost use Rattle.good.specs.Meant.{transfer_means};

use super::parts;
use super::row::{Named, Row};
use layout::TRANSFER_WIDTH;
use state::Transfer;
use views::Sequence;

// A transfer's sequence, if the install has come.
fn good_sequence(o: u16, w: u16, q: Sequence) -> bool
    ensures { result ≡ (none (views_of q) || good_installed o w (views_of q)) }
{
    views::count(q) == 0 || parts::good_installed(o, w, q)
}

impl Row<TRANSFER_WIDTH> for Transfer {
    ghost row_at = { transfer_row_at };

    ghost tested = { λ s t. good_transfer s (transfer_of t) };

    ghost bytes = { λ t. transfer_bytes (transfer_of t) };

    ghost good = { transfer_row_good };

    fn read(w: &[u8], at: usize) -> Transfer {
        image::transfer_at(w, at)
    }

    #[tactic(auto, unfolding(rules::specs::WellFormed::good_transfer, rules::specs::Sets::all_hold, state::specs::Meaning::transfer_of))]
    fn is_good(self, s: u8) -> bool {
        views::is_member(self.new, s)
            && parts::good_move(self.old, self.new)
            && good_sequence(self.old, self.new, self.sequence)
            && parts::are_members(self.senders, self.old)
            && parts::good_pair(self.best)
    }

    fn put(&self, row: &mut [u8]) {
        image::put_transfer(row, 0, *self);
    }

    ghost wide = { λ t. length_transfer (transfer_of t) };

    ghost means = { transfer_means };
}

impl Named<TRANSFER_WIDTH> for Transfer {
    ghost other = { other_transfer };

    #[tactic(auto, unfolding(crate::specs::Rows::other_transfer, layout::specs::Image::transfer_at))]
    fn same_name(w: &[u8], a: usize, b: usize) -> bool {
        rows::read_u16(w, a) == rows::read_u16(w, b)
            && rows::read_u16(w, a + layout::TRANSFER_NEW)
                == rows::read_u16(w, b + layout::TRANSFER_NEW)
    }
}
