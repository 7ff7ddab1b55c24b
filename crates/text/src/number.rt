//! Numbers as the texts write them: in decimal, each in one way.
ghost use Rattle.std.specs.Prelude.{◌≡◌, ℕ, ◌<◌, ◌^◌, ℤ, IfSome, Some, decimal, FitsSigned};
ghost use Rattle.std.specs.Int.{w32};
ghost use Rattle.std.specs.Fmt.{signed_decimal};
ghost use Rattle.text.specs.Number.{number_in};

use itoa::Buffer;

/// The number of 64 bits whose decimal digits the word is.
fn digits_of(word: &[u8]) -> Option<u64>
    ensures found { IfSome result (λ n. (word.now ≡ decimal n) × (n < 2 ^ 64)) }
    ensures only { (n : ℕ) → n < 2 ^ 64 → word.now ≡ decimal n → result ≡ Some n }
{
    let Ok(text) = str::from_utf8(word) else {
        return None;
    };
    let Ok(number) = text.parse::<u64>() else {
        return None;
    };
    let mut buffer = Buffer::new();
    if buffer.format(number).as_bytes() == word {
        Some(number)
    } else {
        None
    }
}

/// The number that the word writes in decimal, without a zero or a sign in front. None where it writes none of 64 bits.
pub fn number_of(word: &[u8]) -> Option<u64>
    ensures found { IfSome result (λ n. word.now ≡ decimal n) }
    ensures only { (n : ℕ) → n < 2 ^ 64 → word.now ≡ decimal n → result ≡ Some n }
    ensures value { result ≡ number_in word.now }
{
    digits_of(word)
}

/// The reply that the word writes in decimal, with `-` in front of a negative one. None where it writes none of 32 bits.
pub fn reply_of(word: &[u8]) -> Option<i32>
    ensures found { IfSome result (λ z. FitsSigned w32 z × (word.now ≡ signed_decimal z)) }
    ensures only { (z : ℤ) → FitsSigned w32 z → word.now ≡ signed_decimal z → result ≡ Some z }
{
    let Ok(text) = str::from_utf8(word) else {
        return None;
    };
    let Ok(reply) = text.parse::<i32>() else {
        return None;
    };
    let mut buffer = Buffer::new();
    if buffer.format(reply).as_bytes() == word {
        Some(reply)
    } else {
        None
    }
}
