//! How many selections there may be, and how long an image may get.

ghost use Rattle.std.specs.Prelude.{◌≢◌, ◌≤◌, IfErr, MatchResult};
ghost use Rattle.image_slots.specs.Answers.{HasRoom, RefusalAnswer};

use crate::faults::DraftFault;

/// How much there may be.
#[derive(Clone, Copy, Debug, PartialEq, Eq)]
pub struct SlotLimits {
    /// So many selections may be made.
    pub selections: u32,

    /// So many bytes an image may have.
    pub image: u64,
}

impl SlotLimits {
    /// Whether there is room for an image of so many bytes behind so many selections, or the limit that it would pass.
    pub(crate) fn check(self, count: u32, image: u64) -> Result<(), DraftFault>
        requires { count ≤ self.selections }
        ensures answer { MatchResult result (λ _. HasRoom self count image) (λ fault. RefusalAnswer self count image fault) }
        ensures no_disk { IfErr result (λ fault. fault ≢ DraftFault.DiskFault) }
    {
        if count >= self.selections {
            return Err(DraftFault::CheckpointLimit);
        }
        if image > self.image {
            return Err(DraftFault::ImageLimit);
        }
        Ok(())
    }
}
