// What a part shows.
ghost use Rattle.std.specs.Prelude.{◌≡◌};
ghost use Rattle.rules.specs.Generators as generators;
ghost use Rattle.state.specs.Meaning.{generator_of, part_of};
ghost use Rattle.relay.specs.Fitting.{shows_view, shows_move, shows_both};

use state::{Generator, Part};

// The generator for v; one that is absent is fresh.
pub(crate) fn generator_for(p: Part, v: u16) -> Generator
    ensures { generator_of result ≡ generators.generator_for v (part_of p).generators }
{
    match p.generator {
        Some(g) if g.view == v => g,
        _ => generator::fresh(v),
    }
}

// The generator that is shown, if any, is the one for v.
pub(crate) fn shows_view(p: Part, v: u16) -> bool
    ensures { result ≡ shows_view v (part_of p) }
{
    p.generator.is_none_or(|g| g.view == v)
}

// The transfer that is shown, if any, is the one from o to w.
pub(crate) fn shows_move(p: Part, o: u16, w: u16) -> bool
    ensures { result ≡ shows_move o w (part_of p) }
{
    p.transfer.is_none_or(|t| t.old == o && t.new == w)
}

// Both, as what is told of a move from o to w needs them.
pub(crate) fn shows(p: Part, o: u16, w: u16) -> bool
    ensures { result ≡ shows_both o w (part_of p) }
{
    shows_view(p, w) && shows_move(p, o, w)
}
