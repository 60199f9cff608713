//! The laws of batches.
ghost use Rattle.batch.specs.Soundness.{SoundnessLaw, BatchSoundnessLaw};

/// Running a batch never meets a call that doesn't fit or lacks room, an unbound label, or a test
/// that doesn't fit what its label holds.
pub fn runs_are_sound()
    ensures run { SoundnessLaw }
    ensures batch { BatchSoundnessLaw }
{}
