// Document 01, "The world": whether a lent buffer is a good world. Each row is read, what it means is tested by the rules' own conditions, and what was read
// is written to a row of its own and compared, so that no byte is left unseen.
#![tactic(auto)]

ghost use Rattle.std.specs.Prelude.{◌≡◌};
ghost use Rattle.layout.specs.Image.{good_bytes};

mod desks;
mod generators;
mod parts;
mod places;
mod relays;
mod row;
mod tables;
mod transfers;

#[tactic(auto, using(crate::proofs::World::bytes_good, crate::proofs::World::other_length), unfolding(crate::specs::Rows::rows_good))]
pub fn is_good(w: &[u8]) -> bool
    ensures { result ≡ good_bytes w.now }
{
    w.len() == layout::WORLD_WIDTH
        && relays::good_relays(w)
        && desks::good_desks(w)
        && places::good_places(w)
        && rows::is_zero(w, layout::WORLD_ZEROS, layout::WORLD_REST)
}
