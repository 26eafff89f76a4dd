//! The values in the columns of a row that a query shows. A value that no package has is a fault, 91.

ghost use Rattle.std.specs.Prelude.{◌≡◌, string_bytes, IfOk, IfErr};
ghost use Rattle.sqlite.specs.Order.{column};
ghost use Rattle.sqlite.specs.declared.types.Value.TheVariants.{Int, Text as Words};
ghost use Rattle.mm_definitions.specs.Faults.{IsStoreFault};

use crate::faults::fault_of;
use mm_definitions::answers::Fault;
use mm_definitions::names::Name;
use mm_definitions::texts::Remark;
use sqlite::Row;

/// The text in a column.
pub fn text_in(row: &Row, at: usize) -> Result<String, Fault>
    ensures shown { IfOk result (λ text. column row.now at ≡ Words (string_bytes text)) }
    ensures fault { IfErr result IsStoreFault }
{
    row.get(at).map_err(fault_of)
}

/// The number in a column.
pub fn number_in(row: &Row, place: usize) -> Result<i64, Fault>
    ensures shown { IfOk result (λ number. column row.now place ≡ Int number) }
    ensures fault { IfErr result IsStoreFault }
{
    row.get(place).map_err(fault_of)
}

/// The name in a column.
pub fn name_in(row: &Row, at: usize) -> Result<Name, Fault>
    ensures shown { IfOk result (λ name. column row.now at ≡ Words name) }
    ensures fault { IfErr result IsStoreFault }
{
    let text = text_in(row, at)?;
    match Name::read(text.as_str()) {
        Some(name) => Ok(name),
        None => Err(Fault::STORE),
    }
}

/// The title, note or name of a relation in a column.
pub fn remark_in(row: &Row, at: usize) -> Result<Remark, Fault>
    ensures shown { IfOk result (λ text. column row.now at ≡ Words text) }
    ensures fault { IfErr result IsStoreFault }
{
    let text = text_in(row, at)?;
    match Remark::new(text) {
        Some(text) => Ok(text),
        None => Err(Fault::STORE),
    }
}
