//! The run of a list on a session.

ghost use Rattle.mm_definitions.specs.Bounds.{current};
ghost use Rattle.mm_store.specs.Seen.{IsSeenAs};
ghost use Rattle.mm_store.specs.Stands.{IsSettled};
ghost use Rattle.mm_core.specs.Applied.{StandsForCurrent};
ghost use Rattle.mm_core.specs.Parts.{connection};
ghost use Rattle.mm_core.specs.Parts as parts;
ghost use Rattle.sqlite.specs.Held.{state};
ghost use Rattle.sqlite.specs.State.{HasCleanDisk};

use crate::session::Session;
use mm_definitions::answers::Answer;
use mm_definitions::commands::Command;
use mm_definitions::moments::Moment;
use mm_run::Apply;
use sqlite::Alter;

impl<S: Alter> Apply for Session<S> {
    ghost use Rattle.sqlite.specs.Tree.{Trees};

    ghost Database = { Trees };

    ghost stands_for = { StandsForCurrent };

    ghost may_leave = { λ s db. (state S.Store (connection s)).may_leave db };

    ghost is_clean = { λ s. HasCleanDisk (state S.Store (connection s)) };

    ghost settled = { λ s p. IsSettled current (state S.Store (connection s)) p };

    ghost seen = { λ s p. IsSeenAs current (state S.Store (connection s)) p };

    ghost has_failed = { λ s. parts.must_reopen s };

    fn apply(&mut self, command: &Command, at: Moment) -> Answer {
        self.apply(command, at)
    }

    ghost settled_is = { λ s p. (
      λ it. (record { mode = it.mode; back = it.back; reads = it.reads }, it.left),
      λ it. record { mode = it.0.mode; back = it.0.back; reads = it.0.reads; left = it.1 },
    ) };
}
