// A table of eight rows of a relay's: its generators, or its transfers. What a closure's call asks for is written at the closure: in generic code it is not
// inferred.
ghost use Rattle.std.specs.Prelude.{◌≡◌, not, ◌-◌, ◌+◌, ◌*◌, ◌≤◌, ◌<◌, length};
ghost use Rattle.rows.specs.Tests.{all, all_zero};
ghost use Rattle.rules.specs.Sets.{seat_count};
ghost use Rattle.good.specs.Rows.{differs, place_filled, filled_good};

use super::row::{Named, good_row};

// The rows before place i name others than the one there.
#[tactic(auto, using(rows::proofs::Laws::run_inside))]
fn other_names<T: Named<N>, const N: usize>(w: &[u8], at: usize, i: usize) -> bool
    requires { (at + seat_count * N ≤ length w.now) × (i < seat_count) }
    ensures { result ≡ differs (T.other w.now) (λ j. at + j * N) i }
{
    (0..i).all(
        |j|
            requires { (at + seat_count * N ≤ length w.now) × ((j < seat_count) × (i < seat_count)) }
            ensures { result ≡ T.other w.entry.now (at + j * N) (at + i * N) }
        { !T::same_name(w, at + j * N, at + i * N) },
    )
}

// The row at place i names another than those before it, and is good.
#[tactic(auto, unfolding(crate::specs::Rows::place_filled))]
fn good_place<T: Named<N>, const N: usize>(w: &[u8], s: u8, at: usize, i: usize) -> bool
    requires { (at + seat_count * N ≤ length w.now) × (i < seat_count) }
    ensures { result ≡ place_filled T.other T.good N w.now s at i }
{
    other_names::<T, N>(w, at, i) && good_row::<T, N>(w, s, at + i * N)
}

// Each place is filled and good, or all is zero from it on.
#[tactic(auto, using(rows::proofs::Laws::run_inside))]
pub(crate) fn good_table<T: Named<N>, const N: usize>(w: &[u8], s: u8, at: usize) -> bool
    requires { at + seat_count * N ≤ length w.now }
    ensures { result ≡ all seat_count (filled_good T.other T.good N w.now s at) }
{
    (0..rules::SEATS)
        .take_while(
            |i|
                requires { (at + seat_count * N ≤ length w.now) × (i.now < seat_count) }
                ensures { result ≡ not (all_zero w.entry.now (at + i.entry.now * N) ((seat_count - i.entry.now) * N)) }
            { !rows::is_zero(w, at + *i * N, (rules::SEATS - *i) * N) },
        )
        .all(
            |i|
                requires { (at + seat_count * N ≤ length w.now) × (i < seat_count) }
                ensures { result ≡ place_filled T.other T.good N w.entry.now s at i }
            { good_place::<T, N>(w, s, at, i) },
        )
}
