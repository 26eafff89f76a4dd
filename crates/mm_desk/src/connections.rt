//! Where the requests of a desk come from.

ghost use Rattle.std.specs.Prelude.{◌≡◌, ◌∷◌, [], ℕ, List, Option};
ghost use Rattle.mm_definitions.specs.Streams.{Written};
ghost use Rattle.mm_desk.specs.Exchanges.{IsExchange};
ghost use Rattle.mm_desk.specs.Told.{AddsTo, IsAnsweredAs, Told};

use crate::desk::Done;
use crate::reads::Desk;
use mm_definitions::answers::PageFault;
use std::alloc::Global;

/// Where requests come from.
pub trait Comes<D: Desk> {
    // The requests that were answered, where it tells.
    ghost told: { Self → Option (List Told) };

    /// Answers the next request.
    fn answer_next(&mut self, alloc: Global, desk: &mut D) -> Result<Done, PageFault>
        ensures exchange { (moment : ℕ) × (after : Written)
            × IsExchange D.Apply moment desk.old desk.new after result }
        ensures told { (t : Told) × AddsTo (told self.old) (told self.new) (t ∷ [])
            × (t.result ≡ result) × IsAnsweredAs D.Viewer D.Apply t desk.old desk.new };
}
