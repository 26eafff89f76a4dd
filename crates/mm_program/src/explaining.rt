//! The subcommand `explain`.

ghost use Rattle.std.specs.Prelude.{◌≡◌, ◌≤◌};
ghost use Rattle.mm_definitions.specs.Streams.{has_failed, written};
ghost use Rattle.mm_core.specs.Writing.{IsOut};
ghost use Rattle.mm_work.specs.Told.{TellsFailure};
ghost use Rattle.mm_program.specs.Explained.{TellsExplained};

use mm_definitions::streams::Io;
use mm_remarks::{UNKNOWN, explanation_of};
use mm_work::{DONE, USAGE, tell_bytes};
use std::io::Write;

/// The subcommand `explain`: prints the text of the number or rule, or that there is none.
pub(crate) fn explain_told<W: Write>(answer: &str, output: &mut Io<W>) -> u8
    ensures told { TellsExplained answer.now (written W.contents output.old)
        (written W.contents output.new) result }
    ensures status { result ≤ 4 }
    ensures unprinted { TellsFailure (has_failed output.old) (has_failed output.new) result }
    ensures out { IsOut output.old → IsOut output.new }
{
    match explanation_of(answer) {
        Some(text) => tell_bytes(output, text.as_bytes(), DONE),
        None => tell_bytes(output, UNKNOWN.as_bytes(), USAGE),
    }
}
