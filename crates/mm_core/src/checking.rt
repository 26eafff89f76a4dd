//! The whole check of the package of a session.

use crate::session::Session;
use mm_check::verify;
use mm_definitions::answers::{Fault, RuleNumber};
use mm_definitions::units::CURRENT;
use sqlite::Alter;

impl<S: Alter> Session<S> {
    ghost use Rattle.mm_definitions.specs.Bounds.{current};
    ghost use Rattle.mm_check.specs.Verdict.{IsVerified};
    ghost use Rattle.mm_core.specs.Reads.{Reads};

    /// Which rule the package breaks, whatever package it is: None where it meets all sixteen, 16 where rule 16 fails,
    /// else the least that fails. It writes nothing.
    ///
    /// 92 where the session has to be opened again, and then nothing is asked of the store. After another fault (90 where
    /// memory was refused, and else 91) the session goes on, and the package and what may be left are as they were.
    pub fn check(&mut self) -> Result<Option<RuleNumber>, Fault>
        ensures { Reads S.Store self.old self.new result
            (λ old new. IsVerified current old new result) }
    {
        self.ready()?;
        verify(&mut self.conn, CURRENT)
    }
}
