//! What the type of a byte guarantees.
ghost use Rattle.std.specs.Prelude.{ℕ, ◌<◌, slice_index};
ghost use Rattle.std.specs.List.{AllByRecursion};

/// Does nothing. The items of a slice of bytes are below 256.
pub fn are_bytes(bytes: &[u8])
    ensures each { (i : ℕ) → slice_index bytes.now i < 256 }
    ensures all { AllByRecursion (λ b. b < 256) bytes.now }
{}
