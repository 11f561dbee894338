// A relay's eight generators.
ghost use Rattle.std.specs.Prelude.{◌≡◌};
ghost use Rattle.views.specs.Row.{views_of};
ghost use Rattle.rules.specs.WellFormed.{good_note, good_notes, good_generator};
ghost use Rattle.layout.specs.Image.{generator_bytes};
ghost use Rattle.state.specs.Meaning.{notes_of, generator_of};
ghost use Rattle.image.specs.Parts.{generator_row_at};
ghost use Rattle.image.proofs.Widths.{length_generator};
ghost use Rattle.good.specs.Rows.{generator_row_good, other_generator};
ghost use Rattle.good.specs.Meant.{generator_means};

use super::row::{Named, Row};
use layout::GENERATOR_WIDTH;
use state::{Generator, Notes};
use views::Sequence;

fn good_note(v: u16, s: u8, q: Sequence) -> bool
    ensures { result ≡ good_note v s (views_of q) }
{
    views::above(v, q) && (views::count(q) == 0 || views::is_member(v, s))
}

fn good_notes(v: u16, n: Notes) -> bool
    ensures { result ≡ good_notes v (notes_of n) }
{
    n.of.iter()
        .enumerate()
        .all(|(i, q)| good_note(v, i as u8, *q))
}

impl Row<GENERATOR_WIDTH> for Generator {
    ghost row_at = { generator_row_at };

    ghost tested = { λ s g. good_generator s (generator_of g) };

    ghost bytes = { λ g. generator_bytes (generator_of g) };

    ghost good = { generator_row_good };

    fn read(w: &[u8], at: usize) -> Generator {
        image::generator_at(w, at)
    }

    #[tactic(auto, unfolding(rules::specs::WellFormed::good_generator, rules::specs::Sets::all_hold, state::specs::Meaning::generator_of))]
    fn is_good(self, s: u8) -> bool {
        let v = self.view;
        views::is_member(v, s)
            && views::above(v, self.own)
            && views::above(v, self.converged)
            && views::above(v, self.raised)
            && !views::lacks(self.converged, self.own)
            && good_notes(v, self.proposals)
            && good_notes(v, self.convergences)
    }

    fn put(&self, row: &mut [u8]) {
        image::put_generator(row, 0, *self);
    }

    ghost wide = { λ g. length_generator (generator_of g) };

    ghost means = { generator_means };
}

impl Named<GENERATOR_WIDTH> for Generator {
    ghost other = { other_generator };

    #[tactic(auto, unfolding(crate::specs::Rows::other_generator, layout::specs::Image::generator_at))]
    fn same_name(w: &[u8], a: usize, b: usize) -> bool {
        rows::read_u16(w, a) == rows::read_u16(w, b)
    }
}
