//! A session as what a desk works on.

ghost use Rattle.std.specs.Prelude.{◌≡◌, ◌⊎◌};
ghost use Rattle.sqlite.specs.Held.{state};
ghost use Rattle.mm_core.specs.Parts.{connection};
ghost use Rattle.mm_desk.proofs.Leaving.{clean_before, left_before};

use crate::session::Session;
use mm_desk::Desk;
use sqlite::Alter;

impl<S: Alter> Desk for Session<S> {
    fn is_over(&self) -> bool {
        self.failed
    }

    ghost stays = { λ old new same leaves. record {
      clean = clean_before _ _ leaves;
      same = same;
      settled = leaves.settled;
      left = left_before _ _ leaves;
    } };
}
