//! What holds of the text of every number of functions.

ghost use Rattle.std.specs.Prelude.{◌<◌, ◌^◌, ℕ, All};
ghost use Rattle.load_text.specs.Load.{load_text};

/// It is of bytes.
#[tactic(auto, using(crate::proofs::Bytes::load_in_bytes))]
pub fn loads_are_bytes()
    ensures { (functions : ℕ) → All (λ byte. byte < 2 ^ 8) (load_text functions) }
{}
