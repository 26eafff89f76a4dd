//! The fields of lines.

use std::alloc::Global;

/// The parts of a text between separators.
pub(crate) fn fields_of(alloc: Global, text: &str, separator: char) -> Option<Vec<&str>> {
    let mut fields = Vec::new(alloc);
    for field in text.split(separator) {
        fields.push(field).ok()?;
    }
    Some(fields)
}

/// The field at a place, as a number.
pub(crate) fn number(fields: &[&str], at: usize) -> Option<i64> {
    fields.get(at)?.parse::<i64>().ok()
}

/// The field at a place, as a number of tiles or pixels.
pub(crate) fn count(fields: &[&str], at: usize) -> Option<u32> {
    fields.get(at)?.parse::<u32>().ok()
}
