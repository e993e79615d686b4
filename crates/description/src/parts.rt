//! One part of a description, and one step.
ghost use Rattle.std.specs.Prelude.{◌^◌, ◌<◌, ◌⊎◌};
ghost use Rattle.description.specs.Format.{scheme_of};
ghost use Rattle.description.specs.Faults.{Cut};
ghost use Rattle.description.specs.Parts.{PartRead, StepRead};

use crate::part::Part;
use crate::reader::Reader;
use crate::refusal::Refusal;
use crate::shape::Shape;
use crate::step::Step;

/// A window's tag.
const WINDOW: u8 = 6;

/// A range's tag.
const RANGE: u8 = 7;

/// A balance's tag.
const BALANCE: u8 = 8;

/// One part: cut off, outside its bounds, or granted.
impl<'a> Reader<'a> {
    /// The part that the next bytes hold. A fault of it is told at `at`: they may have a tag in front.
    pub(crate) fn part<const N: usize, P: Part<N>>(&mut self, at: usize) -> Result<P, Refusal>
        requires fits_memory { N < 2 ^ 63 }
        ensures { PartRead P.bytes_of P.within (λ n rest. Cut N n rest ⊎ P.outside n rest)
            at self.old self.new result }
    {
        let bytes = self.take().ok_or(Refusal::CutOff { at })?;
        P::of(bytes).ok_or(Refusal::Outside { at })
    }

    /// The next step, or nothing at the end of the input.
    pub(crate) fn step(&mut self, shape: Shape) -> Result<Option<Step>, Refusal>
        ensures { StepRead (scheme_of shape) self.old self.new result }
    {
        let at = self.at;
        let Some(tag) = self.byte() else {
            return Ok(None);
        };
        // The tags stay numbers: an enum of them would be matched once, here, after one more match that makes it.
        let step = match tag {
            WINDOW => {
                let window = self.part(at)?;
                // A window is for the shapes of the plane.
                if !shape.is_flat() {
                    return Err(Refusal::Outside { at });
                }
                Step::Window(window)
            }
            RANGE => Step::Range(self.part(at)?),
            BALANCE => Step::Balance,
            _ => return Err(Refusal::UnknownTag { at }),
        };
        Ok(Some(step))
    }
}
