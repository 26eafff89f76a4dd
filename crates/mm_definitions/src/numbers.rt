//! Numbers in their one spelling.

ghost use Rattle.std.specs.Prelude.{◌≡◌, ◌<◌, ◌≤◌, ◌^◌, ◌⊎◌, ◌↔◌, ℤ, pos, ◌≤ℤ◌, ◌<ℤ◌, IsTrue, MatchOption, IfOk, IfErr, FitsSigned};
ghost use Rattle.std.specs.Int.{w64};
ghost use Rattle.mm_definitions.specs.Numbers.{AreDigits, LeadDigits, SpellsNumber, signed, value_from};

use crate::refusals::{NO_SUCH_RECORD, OUT_OF_LIMITS, Reason};

// Whether these are digits, the first of which isn't 0.
fn has_lead(text: &[u8]) -> bool
    ensures { IsTrue result ↔ LeadDigits text.now }
{
    match text {
        [first, rest @ ..] => *first >= b'1' && *first <= b'9' && all_digits(rest),
        [] => false,
    }
}

fn all_digits(text: &[u8]) -> bool
    ensures { IsTrue result ↔ AreDigits text.now }
{
    text.iter().all(|b| *b >= b'0' && *b <= b'9')
}

// The value of some digits, where it is below 2^64.
fn magnitude(digits: &[u8]) -> Option<u64>
    requires { AreDigits digits.now }
    ensures { MatchOption result (2 ^ 64 ≤ value_from 0 digits.now)
        (λ n. n ≡ value_from 0 digits.now) }
{
    let mut n = 0u64;
    for d in digits {
        let Some(tens) = n.checked_mul(10) else {
            return None;
        };
        let Some(next) = tens.checked_add((*d - b'0') as u64) else {
            return None;
        };
        n = next;
    }
    Some(n)
}

// A magnitude with its sign, where it fits.
fn with_sign(negative: bool, n: u64) -> Option<i64>
    ensures { MatchOption result (¬ (FitsSigned w64 (signed negative n)))
        (λ z. z ≡ signed negative n) }
{
    match i64::try_from(n) {
        Ok(z) => Some(if negative { -z } else { z }),
        Err(_) if negative && n == 1 << 63 => Some(i64::MIN),
        Err(_) => None,
    }
}

// The sign of a number, and its digits.
fn parts(text: &[u8]) -> Option<(bool, &[u8])>
    ensures { MatchOption result ((z : ℤ) → ¬ (SpellsNumber text.now z)) (λ p. AreDigits p.1.now
        × ((z : ℤ) → SpellsNumber text.now z ↔ z ≡ signed p.0 (value_from 0 p.1.now))) }
{
    if text == b"0".as_slice() {
        return Some((false, text));
    }
    match text {
        [b'-', digits @ ..] if has_lead(digits) => Some((true, digits)),
        _ if has_lead(text) => Some((false, text)),
        _ => None,
    }
}

/// The number that a text spells: 10 where there is none, and 11 where it isn't from `least` to `most`.
pub fn read_number(text: &str, least: i64, most: i64) -> Result<i64, Reason>
    ensures ok { IfOk result (λ z. SpellsNumber text.now z × (least ≤ℤ z) × (z ≤ℤ most)) }
    ensures err { IfErr result (λ e. ((e ≡ NO_SUCH_RECORD) × ((z : ℤ) → ¬ (SpellsNumber text.now z)))
        ⊎ ((e ≡ OUT_OF_LIMITS) × (z : ℤ) × SpellsNumber text.now z × ((z <ℤ least) ⊎ (most <ℤ z)))) }
{
    let Some((negative, digits)) = parts(text.as_bytes()) else {
        return Err(Reason::NO_SUCH_RECORD);
    };
    let Some(n) = magnitude(digits) else {
        return Err(Reason::OUT_OF_LIMITS);
    };
    let Some(z) = with_sign(negative, n) else {
        return Err(Reason::OUT_OF_LIMITS);
    };
    if z < least {
        return Err(Reason::OUT_OF_LIMITS);
    }
    if most < z {
        return Err(Reason::OUT_OF_LIMITS);
    }
    Ok(z)
}
