//! The end of the input.

ghost use Rattle.std.specs.Prelude.{◌≡◌, ◌-◌, ◌^◌, OnOk, IfErr};
ghost use Rattle.std.specs.Io.KnownBytes.{IsAtEnd};
ghost use Rattle.mm_definitions.specs.Faults.{memory};
ghost use Rattle.mm_definitions.specs.Streams.{has_failed, inside};
ghost use Rattle.mm_io.specs.Records.{IsReadFault, ReadAtLeast, TellsFailing};

use mm_definitions::answers::Fault;
use mm_definitions::streams::Io;
use std::io::Read;

/// Reads what is left, so that the reader is known to be at its end. At an end it reads once more.
///
/// # Errors
///
/// 96 where the reader fails, and 90 where it gives 2^64 - 1 times without an end, so at least as many bytes.
pub fn drain<R: Read>(reader: &mut Io<R>) -> Result<(), Fault>
    ensures end { OnOk result (IsAtEnd (R.remaining (inside reader.new))) }
    ensures working { OnOk result (has_failed reader.new ≡ has_failed reader.old) }
    ensures fault { IfErr result (λ f. IsReadFault f.0 (has_failed reader.new)) }
    ensures failing { IfErr result
        (λ f. TellsFailing (has_failed reader.old) (has_failed reader.new) f.0) }
    ensures endless { IfErr result
        (λ f. f.0 ≡ memory.0 → ReadAtLeast (2 ^ 64 - 1) (R.remaining (inside reader.old))
        (R.remaining (inside reader.new))) }
{
    let mut one = [0u8];
    for times in 0..u64::MAX {
        match reader.read(&mut one) {
            Ok(0) => return Ok(()),
            Ok(_) => {}
            Err(_) => return Err(Fault::INPUT),
        }
    }
    Err(Fault::MEMORY)
}
