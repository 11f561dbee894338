// The four desks.
ghost use Rattle.std.specs.Prelude.{◌≡◌, length};
ghost use Rattle.rows.specs.Tests.{all};
ghost use Rattle.rules.specs.WellFormed.{good_best, no_best, good_phase, good_desk};
ghost use Rattle.layout.specs.Layout.{world_width, desk_begin};
ghost use Rattle.layout.specs.Image.{desk_at, desk_bytes};
ghost use Rattle.image.proofs.Widths.{length-desk};
ghost use Rattle.good.specs.Rows.{desk_good};
ghost use Rattle.good.specs.Meant.{desk_means};

use super::parts;
use super::row::{Row, good_row};
use layout::DESK_WIDTH;
use rules::{Desk, Phase};

fn no_best(d: Desk) -> bool
    ensures { result ≡ no_best d }
{
    parts::is_zero_pair(d.best) && !d.agreed
}

fn good_best(d: Desk) -> bool
    ensures { result ≡ good_best d }
{
    parts::good_pair(d.best) && (d.replied != 0 || no_best(d))
}

#[tactic(auto, unfolding(rules::specs::WellFormed::good_phase, rules::specs::WellFormed::is_pair, rules::specs::Sets::all_hold))]
fn good_phase(d: Desk) -> bool
    ensures { result ≡ good_phase d.phase d }
{
    match d.phase {
        Phase::Idle => parts::is_zero_pair(d.holds) && d.replied == 0 && no_best(d),
        Phase::Read1 => parts::is_zero_pair(d.holds) && good_best(d),
        Phase::Write1 => d.holds.stamp.count == 0 && d.holds.stamp.desk == 0 && good_best(d),
        Phase::Read2 | Phase::Write2 => parts::good_pair(d.holds) && no_best(d),
    }
}

impl Row<DESK_WIDTH> for Desk {
    ghost row_at = { desk_at };

    ghost tested = { λ _ d. good_desk d };

    ghost bytes = { desk_bytes };

    ghost good = { λ l _ o. desk_good l o };

    fn read(w: &[u8], at: usize) -> Desk {
        image::desk_at(w, at)
    }

    #[tactic(auto, unfolding(rules::specs::WellFormed::good_desk, rules::specs::Sets::all_hold))]
    fn is_good(self, _s: u8) -> bool {
        parts::are_members(self.replied, self.view) && good_phase(self)
    }

    fn put(&self, row: &mut [u8]) {
        image::put_desk(row, 0, *self);
    }

    ghost wide = { length-desk };

    ghost means = { desk_means };
}

pub(crate) fn good_desks(w: &[u8]) -> bool
    requires { length w.now ≡ world_width }
    ensures { result ≡ all 4 (λ n. desk_good w.now (desk_begin n)) }
{
    (0..rules::DESKS).all(|n| good_row::<Desk, DESK_WIDTH>(
        w,
        0,
        layout::WORLD_DESKS + n * DESK_WIDTH,
    ))
}
