//! A new package in memory.

ghost use Rattle.std.specs.Prelude.{◌≡◌, false, IfOk, IfErr};
ghost use Rattle.sqlite.specs.Held.{state};
ghost use Rattle.sqlite.specs.Steps.{over_memory};
ghost use Rattle.mm_definitions.specs.Bounds.{current};
ghost use Rattle.mm_definitions.specs.Opening.{opening};
ghost use Rattle.mm_definitions.specs.Faults.{IsStoreFault};
ghost use Rattle.mm_store.specs.Stands.{IsSettled};
ghost use Rattle.mm_meta.specs.Opening.{IsBlank};

use crate::opening::init;
use mm_definitions::answers::Fault;
use sqlite::{Connection, MemStore};
use std::alloc::{AllocError, Global};

/// A connection over memory that has no table.
fn blank(alloc: Global) -> Result<Connection<MemStore>, AllocError>
    ensures mode { IfOk result (λ conn. conn.in_transaction ≡ false) }
    ensures blank { IfOk result (λ conn. IsBlank (state over_memory conn)) }
{
    Connection::open_in_memory(alloc)
}

/// A new package in memory.
pub fn create_in_memory(alloc: Global) -> Result<Connection<MemStore>, Fault>
    ensures mode { IfOk result (λ conn. conn.in_transaction ≡ false) }
    ensures settled { IfOk result (λ conn. IsSettled current (state over_memory conn) opening) }
    ensures faults { IfErr result IsStoreFault }
{
    let Ok(mut conn) = blank(alloc) else {
        return Err(Fault::MEMORY);
    };
    init(&mut conn)?;
    Ok(conn)
}
