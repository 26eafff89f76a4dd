//! A session as what commands on an edition are applied to.

ghost use Rattle.std.specs.Prelude.{◌≡◌, ◌⊎◌, true};
ghost use Rattle.sqlite.specs.Held.{state};
ghost use Rattle.mm_definitions.specs.Bounds.{current};
ghost use Rattle.mm_store.specs.Stands.{IsSettled};
ghost use Rattle.mm_core.specs.Parts.{connection, must_reopen};

use crate::session::Session;
use mm_definitions::answers::Fault;
use mm_definitions::entries::EditionState;
use mm_definitions::names::Name;
use mm_run::Editor;
use sqlite::Alter;

impl<S: Alter> Editor for Session<S> {
    fn edition(&mut self, name: &Name) -> Result<Option<EditionState>, Fault> {
        self.edition(name)
    }
}
