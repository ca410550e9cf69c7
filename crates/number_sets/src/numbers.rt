//! Sets of numbers.

ghost use Rattle.std.specs.Prelude.{◌≡◌, ◌≤◌, ℕ, Bool, List, false, IsTrue, get_or};

/// A set of numbers, of which it is told of each from 0 on whether it has it.
pub trait Numbers {
    /// Whether it has each.
    ghost list: { Self → List Bool };

    /// Whether it has a number.
    fn has(&self, k: usize) -> bool
        ensures { result ≡ get_or (list self.now) k false };

    /// Whether it has none of the numbers from 6 on.
    fn is_short(&self) -> bool
        ensures { IsTrue result → (k : ℕ) → 6 ≤ k → get_or (list self.now) k false ≡ false };
}
