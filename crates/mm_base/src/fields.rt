//! Readers of one field of a record. Each answers 10, 11 or 12 where the field is refused.

ghost use Rattle.std.specs.Prelude.{◌≡◌, ◌<◌, ◌^◌, pos, neg_ℤ};
ghost use Rattle.mm_definitions.specs.Reading.{ReadsTo, both_of};
ghost use Rattle.mm_definitions.specs.Reading as reading;
ghost use Rattle.mm_definitions.specs.Fields.{HoldsValue, IsAgainst, Plain, Whole, NumberFrom, AName};
ghost use Rattle.mm_definitions.specs.Package.{kind_text};
ghost use Rattle.mm_definitions.specs.Effects.{step_kind, plain_kind};
ghost use Rattle.mm_definitions.specs.Conditions.{relation_text};
ghost use Rattle.mm_definitions.specs.Records.{step_words, kind_words, relation_words};
ghost use Rattle.mm_definitions.specs.Records as forms;

use mm_definitions::answers::ReadFault;
use mm_definitions::bounded::{Count, Positive, Signed, SystemNumber, Zoom};
use mm_definitions::commands::{PlainKind, RelationName, Step};
use mm_definitions::limits::{LAST_ID, LAST_ZOOM};
use mm_definitions::names::Name;
use mm_definitions::numbers::read_number;
use mm_definitions::refusals::Reason;

/// The least of two refusals. Want of memory goes before both.
fn least_fault(one: ReadFault, other: ReadFault) -> ReadFault
    ensures { result ≡ reading.least_fault one other }
{
    match one {
        ReadFault::Memory => ReadFault::Memory,
        ReadFault::Refused(one) => match other {
            ReadFault::Memory => ReadFault::Memory,
            ReadFault::Refused(other) => {
                if one.number() <= other.number() {
                    ReadFault::Refused(one)
                } else {
                    ReadFault::Refused(other)
                }
            }
        },
    }
}

/// Both values, or the fault that is against one of them: of two the least.
pub(crate) fn both<A: Drop, B: Drop>(
    first: Result<A, ReadFault>,
    second: Result<B, ReadFault>,
) -> Result<(A, B), ReadFault>
    ensures { result ≡ both_of first second }
{
    match first {
        Ok(a) => Ok((a, second?)),
        Err(one) => match second {
            Ok(_b) => Err(one),
            Err(other) => Err(least_fault(one, other)),
        },
    }
}

/// A name: 12 where it is none.
pub(crate) fn name_field(text: &str) -> Result<Name, ReadFault>
    ensures { ReadsTo (λ v. HoldsValue AName text.now (Plain v)) (IsAgainst AName text.now) result }
{
    match Name::read(text) {
        Some(name) => Ok(name),
        None => Err(ReadFault::refused(Reason::NOT_A_NAME)),
    }
}

/// A number from `least` to `most`: 10 where it is none, 11 where it lies outside.
fn number_field(text: &str, least: i64, most: i64) -> Result<i64, ReadFault>
    ensures { ReadsTo (λ z. HoldsValue (NumberFrom least most) text.now (Whole z))
        (IsAgainst (NumberFrom least most) text.now) result }
{
    match read_number(text, least, most) {
        Ok(number) => Ok(number),
        Err(reason) => Err(ReadFault::refused(reason)),
    }
}

/// A number from 1 to `MOST`.
pub(crate) fn positive_field<const MOST: u64>(text: &str) -> Result<Positive<MOST>, ReadFault>
    requires { MOST < 2 ^ 63 }
    ensures { ReadsTo (λ z. HoldsValue (NumberFrom (pos 1) (pos MOST)) text.now (Whole z))
        (IsAgainst (NumberFrom (pos 1) (pos MOST)) text.now) result }
{
    let number = number_field(text, 1, MOST as i64)?;
    match Positive::new(number) {
        Some(number) => Ok(number),
        None => unreachable!(),
    }
}

/// A number that is at most `MOST` away from 0.
pub(crate) fn signed_field<const MOST: u64>(text: &str) -> Result<Signed<MOST>, ReadFault>
    requires { MOST < 2 ^ 63 }
    ensures { ReadsTo
        (λ z. HoldsValue (NumberFrom (neg_ℤ (pos MOST)) (pos MOST)) text.now (Whole z))
        (IsAgainst (NumberFrom (neg_ℤ (pos MOST)) (pos MOST)) text.now) result }
{
    let number = number_field(text, -(MOST as i64), MOST as i64)?;
    match Signed::new(number) {
        Some(number) => Ok(number),
        None => unreachable!(),
    }
}

/// The number of any reference system.
pub(crate) fn system_field(text: &str) -> Result<SystemNumber, ReadFault>
    ensures { ReadsTo (λ z. HoldsValue forms.named_system text.now (Whole z))
        (IsAgainst forms.named_system text.now) result }
{
    let number = number_field(text, -1, LAST_ID as i64)?;
    match SystemNumber::new(number) {
        Some(number) => Ok(number),
        None => unreachable!(),
    }
}

/// A zoom level.
pub(crate) fn zoom_field(text: &str) -> Result<Zoom, ReadFault>
    ensures { ReadsTo (λ z. HoldsValue forms.zoom_field text.now (Whole (pos z)))
        (IsAgainst forms.zoom_field text.now) result }
{
    let number = number_field(text, 0, LAST_ZOOM as i64)?;
    match Zoom::new(number) {
        Some(number) => Ok(number),
        None => unreachable!(),
    }
}

/// A number of tiles or pixels from `LEAST` to `MOST`, or a place among so many.
pub(crate) fn count_field<const LEAST: u32, const MOST: u32>(
    text: &str,
) -> Result<Count<LEAST, MOST>, ReadFault>
    ensures { ReadsTo (λ n. HoldsValue (NumberFrom (pos LEAST) (pos MOST)) text.now (Whole (pos n)))
        (IsAgainst (NumberFrom (pos LEAST) (pos MOST)) text.now) result }
{
    let number = number_field(text, LEAST as i64, MOST as i64)?;
    match Count::new(number) {
        Some(number) => Ok(number),
        None => unreachable!(),
    }
}

/// How a pyramid's pixel sizes go: `two` or `other`.
pub(crate) fn step_field(text: &str) -> Result<Step, ReadFault>
    ensures { ReadsTo (λ step. HoldsValue step_words text.now (Plain (kind_text (step_kind step))))
        (IsAgainst step_words text.now) result }
{
    match text {
        "two" => Ok(Step::Two),
        "other" => Ok(Step::Other),
        _ => Err(ReadFault::refused(Reason::NO_SUCH_RECORD)),
    }
}

/// The kind of a table: `attributes` or `media`.
pub(crate) fn kind_field(text: &str) -> Result<PlainKind, ReadFault>
    ensures { ReadsTo (λ kind. HoldsValue kind_words text.now (Plain (kind_text (plain_kind kind))))
        (IsAgainst kind_words text.now) result }
{
    match text {
        "attributes" => Ok(PlainKind::Attributes),
        "media" => Ok(PlainKind::Media),
        _ => Err(ReadFault::refused(Reason::NO_SUCH_RECORD)),
    }
}

/// The name of a relation: `media` or `simple_attributes`.
pub(crate) fn relation_field(text: &str) -> Result<RelationName, ReadFault>
    ensures { ReadsTo (λ name. HoldsValue relation_words text.now (Plain (relation_text name)))
        (IsAgainst relation_words text.now) result }
{
    match text {
        "media" => Ok(RelationName::Media),
        "simple_attributes" => Ok(RelationName::SimpleAttributes),
        _ => Err(ReadFault::refused(Reason::NO_SUCH_RECORD)),
    }
}
