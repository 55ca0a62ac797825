// Bytes that are written as hexadecimal digits, two to a byte.
ghost use Rattle.std.specs.Prelude.{◌≡◌, ℕ, ◌/◌, ◌%◌, ◌<◌, IfOk, MatchResult, ◌≢◌};
ghost use Rattle.vectors.specs.Hex.{digit_of, spelled};

use crate::misread::Misread;
use std::alloc::Global;

// The number that a digit stands for. The library's `to_digit` is no use here, since it takes lower-case digits too.
fn number(digit: u8) -> Result<u8, Misread>
    ensures { MatchResult result (λ n. (n < 16) × (digit_of n ≡ digit)) (λ _. (n : ℕ) → n < 16 → digit_of n ≢ digit) }
{
    match digit {
        b'0'..=b'9' => Ok(digit - b'0'),
        b'A'..=b'F' => Ok(digit - b'A' + 10),
        _ => Err(Misread::NotHex),
    }
}

// The byte that two digits stand for.
fn byte(high: u8, low: u8) -> Result<u8, Misread>
    ensures { IfOk result (λ b. (digit_of (b / 16) ≡ high) × (digit_of (b % 16) ≡ low)) }
{
    Ok(number(high)? * 16 + number(low)?)
}

// The bytes that a text of digits stands for.
#[tactic(auto, using(crate::proofs::More::spelled_more, crate::proofs::More::pairs_more))]
pub(crate) fn bytes(heap: Global, text: &str) -> Result<Vec<u8>, Misread>
    ensures { IfOk result (λ bs. spelled bs.items ≡ text.now) }
{
    let (pairs, rest) = text.as_bytes().as_chunks::<2>();
    if !rest.is_empty() {
        return Err(Misread::NotHex);
    }
    let mut bytes = Vec::new(heap);
    for [high, low] in pairs {
        bytes.push(byte(*high, *low)?)?;
    }
    Ok(bytes)
}
