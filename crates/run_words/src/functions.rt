//! The number of functions that `--self-load N` asks for.

ghost use Rattle.std.specs.Prelude.{◌≡◌};
ghost use Rattle.std.specs.Option.{option_map};
ghost use Rattle.run_words.specs.Functions.{functions_in, functions_of, is_load, load_of};

use itoa::Buffer;

/// The most functions that a source is made of.
const MOST_FUNCTIONS: u32 = 100_000;

/// The number, where it is one of functions and the word is its text.
fn functions_in(number: u32, word: &str) -> Option<u32>
    ensures { result ≡ functions_in number word.now }
{
    let mut buffer = Buffer::new();
    if 1 <= number && number <= MOST_FUNCTIONS && buffer.format(number) == word {
        Some(number)
    } else {
        None
    }
}

/// The number of functions that a word asks for.
fn functions_of(word: &str) -> Option<u32>
    ensures { result ≡ functions_of word.now }
{
    match word.parse::<u32>() {
        Ok(number) => functions_in(number, word),
        Err(_) => None,
    }
}

/// The number of functions that a value asks for, if there is one.
pub fn load_of(value: Option<&str>) -> Option<u32>
    ensures { result ≡ load_of (option_map (λ text. text.now) value.entry) }
{
    match value {
        Some(word) => functions_of(word),
        None => None,
    }
}

/// Whether the option takes the value, if there is one, beside this FILE.
pub fn is_load(value: Option<&str>, file: Option<&str>) -> bool
    ensures { result ≡ is_load (option_map (λ text. text.now) value.entry)
        (option_map (λ text. text.now) file.entry) }
{
    match value {
        Some(word) => file.is_none() && functions_of(word).is_some(),
        None => true,
    }
}
