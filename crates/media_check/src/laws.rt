//! What holds of the opening of media sets.
ghost use Rattle.std.specs.Prelude.{ℕ, List};
ghost use Rattle.load_base.specs.Host.{Files};
ghost use Rattle.media_check.specs.HostNames.{ReadingOrder};
ghost use Rattle.media_check.specs.Openings.{CanRead, IsTooLong, IsTooLarge};

/// A set that can be read is refused for nothing but out of memory and a fault of the host.
/// `proofs/OpeningLemmas.antt` says the same to proofs.
// For the proof: does nothing.
pub fn opening_laws()
    ensures not_too_long { (files : Files) (reading : ReadingOrder) (name : List ℕ)
        → CanRead files reading
        → ¬ IsTooLong files reading name }
    ensures not_too_large { (files : Files) (reading : ReadingOrder) → CanRead files reading
        → ¬ IsTooLarge files reading }
{}
