//! A body of a known length, read whole.

ghost use Rattle.std.specs.Prelude.{◌≡◌, ◌⊎◌, IfOk, IfErr, OnOk, true};
ghost use Rattle.mm_definitions.specs.Faults as faults;
ghost use Rattle.mm_definitions.specs.Streams.{has_failed, inside};
ghost use Rattle.mm_io.specs.Records.{TellsFailing};
ghost use Rattle.mm_desk.specs.Body.{IsBody, IsReadFrugally};

use mm_definitions::answers::Fault;
use mm_definitions::streams::Io;
use std::alloc::Global;
use std::io::Read;

const PIECE: usize = 65_536;

/// So many bytes: the first of them are here already, and the rest is read. None where the input ends before. 96 where the reader fails, 90
/// where there is no memory for them; a reader that has failed since is told. No more is read than is wanted.
pub fn read_body<R: Read>(
    alloc: Global,
    reader: &mut Io<R>,
    here: &[u8],
    length: usize,
) -> Result<Option<Vec<u8>>, Fault>
    ensures body { IfOk result (IsBody here.now length
        (R.remaining (inside reader.old)) (R.remaining (inside reader.new))) }
    ensures frugal { IsReadFrugally here.now length
        (R.remaining (inside reader.old)) (R.remaining (inside reader.new)) }
    ensures fault { IfErr result
        (λ f. (f.0 ≡ faults.memory.0) ⊎ ((f.0 ≡ faults.input.0) × (has_failed reader.new ≡ true))) }
    ensures working { OnOk result (has_failed reader.new ≡ has_failed reader.old) }
    ensures failing { IfErr result
        (λ f. TellsFailing (has_failed reader.old) (has_failed reader.new) f.0) }
{
    let mut body = Vec::new(alloc);
    let front = &here[..here.len().min(length)];
    body.extend_from_slice(front)?;
    let mut piece = [0u8; PIECE];
    'pieces: while body.len() < length {
        let most = PIECE.min(length - body.len());
        match reader.read(&mut piece[..most]) {
            Ok(0) => return Ok(None),
            Ok(n) => body.extend_from_slice(&piece[..n])?,
            Err(_) => return Err(Fault::INPUT),
        }
    }
    Ok(Some(body))
}
