//! The digest of bytes, as text.

ghost use Rattle.std.specs.Prelude.{◌≡◌, IsUtf8};
ghost use Rattle.mm_store.specs.Blobs as spec;

use sha2::{Digest, Sha256};

/// The SHA-256 of bytes, as 64 hexadecimal digits.
pub fn digest_of(bytes: &[u8]) -> [u8; 64]
    ensures { result ≡ spec.digest_of bytes.now }
{
    let mut digits = [0u8; 64];
    let _ = hex::encode_to_slice(Sha256::digest(bytes), digits.as_mut_slice());
    digits
}

/// The digits as a text.
pub fn text_of(digits: &[u8; 64]) -> &str
    requires { IsUtf8 digits.now }
    ensures { result.now ≡ digits.now }
{
    match std::str::from_utf8(digits.as_slice()) {
        Ok(text) => text,
        Err(_) => "",
    }
}
