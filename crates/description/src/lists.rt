//! The rows and the steps, part after part.
ghost use Rattle.std.specs.Prelude.{◌≡◌, ◌⊎◌, MatchResult};
ghost use Rattle.description.specs.Told.{told};
ghost use Rattle.description.specs.Format.{scheme_of};
ghost use Rattle.description.specs.Parts.{RowsRead, RowsStopped, StepsRead, StepsStopped};

use crate::reader::Reader;
use crate::refusal::Refusal;
use crate::shape::Shape;
use crate::step::Step;
use mesh::Joint;
use std::alloc::Global;

impl<'a> Reader<'a> {
    /// As many rows as the head counts.
    pub(crate) fn rows(&mut self, heap: Global, count: u16) -> Result<Vec<Joint>, Refusal>
        ensures { MatchResult result
            (λ v. RowsRead count self.old self.new v.items)
            (λ e. (told e ≡ (17, 0)) ⊎ RowsStopped count self.old (told e)) }
    {
        let mut joints = Vec::new(heap);
        for _ in 0..count {
            let joint = self.part(self.at)?;
            joints.push(joint)?;
        }
        Ok(joints)
    }

    /// The steps, to the end of the input.
    pub(crate) fn steps(&mut self, heap: Global, shape: Shape) -> Result<Vec<Step>, Refusal>
        ensures { MatchResult result
            (λ v. StepsRead (scheme_of shape) self.old v.items)
            (λ e. (told e ≡ (17, 0)) ⊎ StepsStopped (scheme_of shape) self.old (told e)) }
    {
        let mut steps = Vec::new(heap);
        while let Some(step) = self.step(shape)? {
            steps.push(step)?;
        }
        Ok(steps)
    }
}
