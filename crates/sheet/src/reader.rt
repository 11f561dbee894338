// "It is read from the front one step at a time": a reader holds the sheet's bytes and a position, and is the iterator of the steps from there on.
// `step_at`, `after` and `read_at` do the work on a plain slice and a number; `next` is thin.
ghost use Rattle.std.specs.Prelude.{◌≡◌};
ghost use Rattle.std.specs.Iterator.{YieldsFirst, item_count};
ghost use Rattle.sheet.specs.Reading.{front_of, step_at, after_of, taken_at, steps_left};

use super::{after, front, step_at};
use rules::Step;

#[derive(Clone, Copy)]
pub struct Reader<'a> {
    pub sheet: &'a [u8],
    pub at: usize,
}

// At the front: the first step.
pub fn new<'a>(sheet: &'a [u8]) -> Reader<'a>
    ensures { (result.sheet ≡ sheet.entry) × (result.at ≡ front_of sheet.now) }
{
    let at = front(sheet);
    Reader { sheet, at }
}

impl Iterator for Reader<'_> {
    type Item = Step;

    // The step at the reader's position, if one is left there; the reader past that step, and at the end where it was. So the first of the steps left.
    ghost next_gives = { λ s r t. (r ≡ step_at s.sheet.now s.at)
        × ((t.sheet ≡ s.sheet) × (t.at ≡ after_of s.sheet.now s.at))
        × YieldsFirst steps_left s r t };

    ghost remaining = { item_count steps_left };

    fn next(&mut self) -> Option<Step> {
        let (step, past) = read_at(self.sheet, self.at)?;
        self.at = past;
        Some(step)
    }
}

// One step: the step that is read at a position, if one is left there, and the position past it. The loops of a run and of its record go by it, through `next`.
pub fn read_at(sheet: &[u8], at: usize) -> Option<(Step, usize)>
    ensures { result ≡ taken_at sheet.now at }
{
    let step = step_at(sheet, at)?;
    Some((step, after(sheet, at)))
}
