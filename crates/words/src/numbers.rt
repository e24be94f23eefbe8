// Numbers, decimal, or hexadecimal with an h behind the digits.
ghost use Rattle.std.specs.Prelude.{◌≡◌, ◌≢◌, ℕ, List, [], ◌∷◌, ◌++◌};
ghost use Rattle.words.specs.Numbers.{Written};

// The number that a text writes, or none.
pub fn number_written(text: &str) -> Option<u32>
    ensures hexadecimal { (digits : List ℕ) → text.now ≡ digits ++ (0x68 ∷ []) → Written 16 digits result }
    ensures decimal { ((digits : List ℕ) → text.now ≢ digits ++ (0x68 ∷ [])) → Written 10 text.now result }
{
    match text.strip_suffix('h') {
        Some(digits) => u32::from_str_radix(digits, 16).ok(),
        None => text.parse().ok(),
    }
}
