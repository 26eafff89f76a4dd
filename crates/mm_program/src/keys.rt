//! The key in a desk's address, which lets in.

ghost use Rattle.std.specs.Prelude.{◌≡◌, ◌↔◌, IfErr, IfOk, IfSome, IsTrue, None, not, string_bytes};
ghost use Rattle.std.specs.List.{list_any};
ghost use Rattle.mm_program.specs.Desks.{IsKey};
ghost use Rattle.mm_program.specs.Desks as desks;
ghost use Rattle.mm_program.specs.Stops.{IsFileFault};

use mm_definitions::answers::Fault;
use std::env;
use std::env::VarError;
use std::random::RandomSource;

/// How many bytes a key may have.
const SHORTEST: usize = 16;

const LONGEST: usize = 64;

/// How many bytes of the system's random source make a key, with two digits each.
const RANDOM_BYTES: usize = 16;

/// Whether a byte is one of a key: a letter, a digit, `-` or `_`.
fn is_key_byte(byte: u8) -> bool
    ensures { result ≡ desks.is_key_byte byte }
{
    byte >= b'a' && byte <= b'z'
        || byte >= b'A' && byte <= b'Z'
        || byte >= b'0' && byte <= b'9'
        || byte == b'-'
        || byte == b'_'
}

fn has_other_byte(text: &[u8]) -> bool
    ensures { result ≡ list_any (λ c. not (desks.is_key_byte c)) text.now }
{
    text.iter().any(|c| !is_key_byte(*c))
}

/// Whether a text is a key: 16 to 64 letters, digits, `-` and `_`.
pub(crate) fn is_key(text: &str) -> bool
    ensures { IsTrue result ↔ IsKey text.now }
{
    let bytes = text.as_bytes();
    if bytes.len() < SHORTEST {
        return false;
    }
    if bytes.len() > LONGEST {
        return false;
    }
    !has_other_byte(bytes)
}

/// The text, whole, where it is a key.
fn checked(text: String) -> Option<String>
    ensures key { IfSome result (λ key. IsKey (string_bytes key)) }
    ensures whole { IfSome result (λ key. key ≡ text) }
    ensures none { result ≡ None → ¬ (IsKey (string_bytes text)) }
{
    if is_key(text.as_str()) {
        Some(text)
    } else {
        None
    }
}

/// 32 digits that nobody can guess. 90 where memory is wanted, 96 where the system has none to give.
fn random_key(rt: &HostRuntime) -> Result<String, Fault>
    ensures fault { IfErr result IsFileFault }
{
    let mut bytes = [0u8; RANDOM_BYTES];
    if rt.fill_bytes(&mut bytes).is_err() {
        return Err(Fault::INPUT);
    }
    match hex::encode(rt.alloc(), &bytes) {
        Ok(text) => Ok(text),
        Err(_) => Err(Fault::MEMORY),
    }
}

/// The key of the environment's `MMPKG_KEY`, None where that is none, or else a new one. 90 where memory is wanted, 96
/// where the system has no random bytes to give.
pub(crate) fn key_of(rt: &HostRuntime) -> Result<Option<String>, Fault>
    ensures key { IfOk result (λ found. IfSome found (λ key. IsKey (string_bytes key))) }
    ensures fault { IfErr result IsFileFault }
{
    match env::var(rt, "MMPKG_KEY") {
        Ok(given) => Ok(checked(given)),
        Err(VarError::NotUnicode) => Ok(None),
        Err(VarError::OutOfMemory) => Err(Fault::MEMORY),
        Err(VarError::NotPresent) => match random_key(rt) {
            Ok(made) => match checked(made) {
                Some(key) => Ok(Some(key)),
                None => Err(Fault::INPUT),
            },
            Err(fault) => Err(fault),
        },
    }
}
