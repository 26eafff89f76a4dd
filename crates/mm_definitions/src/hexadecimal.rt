//! Hexadecimal text, whose bytes are guessed and spelled again.

ghost use Rattle.std.specs.Prelude.{◌≡◌, IfOk, IfSome, IsTrue, MatchOption, IsErr};
ghost use Rattle.hex.specs.Hex.{decode_of};

use hex::FromHexError;
use std::alloc::{AllocError, Global};

/// The value of a digit of either case, and of another byte any number below 16.
fn value_of(digit: u8) -> u8 {
    (digit & 15).wrapping_add(9u8.wrapping_mul(digit >> 6)) & 15
}

/// What the text spells where each of its bytes is a digit, and else any bytes.
fn guessed(alloc: Global, text: &[u8]) -> Result<Vec<u8>, AllocError> {
    let mut bytes = vec![in alloc; 0u8; text.len() / 2]?;
    let places = bytes.as_mut_slice();
    for i in 0..places.len() {
        places[i] = (value_of(text[2 * i]) << 4) | value_of(text[2 * i + 1]);
    }
    Ok(bytes)
}

/// Whether these bytes in lower case are spelled by the text.
fn spells(alloc: Global, text: &str, bytes: &[u8]) -> Result<bool, AllocError>
    ensures { IfOk result (λ yes. IsTrue yes → decode_of text.now ≡ Ok bytes.now) }
{
    let spelled = hex::encode(alloc, bytes)?;
    Ok(spelled.as_str() == text)
}

/// The bytes that a text in lower case spells; None where it is no such text.
fn guessed_right(alloc: Global, text: &str) -> Result<Option<Vec<u8>>, AllocError>
    ensures { IfOk result (λ o. IfSome o (λ v. decode_of text.now ≡ Ok v.items)) }
{
    let guess = guessed(alloc, text.as_bytes())?;
    if spells(alloc, text, guess.as_slice())? {
        Ok(Some(guess))
    } else {
        Ok(None)
    }
}

/// The bytes that a text spells in hexadecimal digits of either case, or None where it spells none. To compare a guess is
/// several times as fast as to decode; where it fails the crate decides.
pub(crate) fn decoded(alloc: Global, text: &str) -> Result<Option<Vec<u8>>, AllocError>
    ensures { IfOk result
        (λ o. MatchOption o (IsErr (decode_of text.now)) (λ v. decode_of text.now ≡ Ok v.items)) }
{
    if let Some(bytes) = guessed_right(alloc, text)? {
        return Ok(Some(bytes));
    }
    match hex::decode(alloc, text) {
        Ok(bytes) => Ok(Some(bytes)),
        Err(FromHexError::OutOfMemory) => Err(AllocError),
        Err(_) => Ok(None),
    }
}
