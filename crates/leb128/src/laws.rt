//! What the definitions come to.

ghost use Rattle.std.specs.Prelude.{◌≡◌, ◌+◌, ◌^◌, ◌<◌, ◌≤◌, ℕ, ℤ, List, All, length, Some};
ghost use Rattle.leb128.specs.Digits.{sleb_bytes, uleb_bytes};
ghost use Rattle.leb128.specs.Numbers.{NumbersReadBack};
ghost use Rattle.leb128.specs.Reading.{sleb, uleb};

/// A number is read from its bytes, whatever follows them.
pub fn numbers_read_back()
    ensures { NumbersReadBack }
{}

/// No bytes that read as a number are fewer than those that it is written in. Those that stand behind the number, `rest`,
/// are none of it.
pub fn numbers_are_least()
    ensures unsigned { (number : ℕ) (bytes rest : List ℕ) → All (λ byte. byte < 2 ^ 8) bytes
        → uleb bytes ≡ Some (number, rest)
        → length (uleb_bytes number) + length rest ≤ length bytes }
    ensures signed { (number : ℤ) (bytes rest : List ℕ) → All (λ byte. byte < 2 ^ 8) bytes
        → sleb bytes ≡ Some (number, rest)
        → length (sleb_bytes number) + length rest ≤ length bytes }
{}
