//! What the parts of a package that are shown are asked of.

ghost use Rattle.std.specs.Prelude.{◌≡◌, Bool, Err, IfErr, map, option_map, true};
ghost use Rattle.std.specs.FinMap.{get};
ghost use Rattle.sqlite.specs.State.{State};
ghost use Rattle.mm_definitions.specs.Faults.{reopen};
ghost use Rattle.mm_definitions.specs.Keys.{item};
ghost use Rattle.mm_definitions.specs.Places.{tile_at};
ghost use Rattle.mm_reads.specs.Told.{shown_medium};
ghost use Rattle.mm_reads.specs.Contents as listing;
ghost use Rattle.mm_reads.specs.Related.{mate_told};
ghost use Rattle.mm_reads.specs.RowLists.{numbered_told};
ghost use Rattle.mm_reads.specs.Shown.{mates, shown_rows, shown_tables};
ghost use Rattle.mm_reads.specs.Viewers.{ShowsPart, IsOn, IsViewFault, LeavesPackage};

use mm_definitions::answers::Fault;
use mm_definitions::entries::{Entry, Media, Related, Row};
use mm_definitions::names::Name;
use mm_definitions::places::TilePlace;

/// A thing that tells the parts of a package that are shown, as a session does.
pub trait Viewer {
    // The state of its store.
    ghost store: { Self → State };

    // It has to be opened again, and answers 92.
    ghost has_failed: { Self → Bool };

    /// The bytes of a tile, or None where none stands there.
    fn tile(&mut self, table: &Name, place: TilePlace) -> Result<Option<Vec<u8>>, Fault>
        ensures same { Self.has_failed self.new ≡ Self.has_failed self.old }
        ensures kept { LeavesPackage (Self.store self.old) (Self.store self.new) }
        ensures value { ShowsPart
            (IsOn (Self.has_failed self.old) (Self.store self.old) (Self.store self.new))
            (option_map (λ v. v.items)) (λ p. get p.tiles (tile_at table.now place)) result }
        ensures ended { Self.has_failed self.old ≡ true → result ≡ Err reopen }
        ensures fault { IfErr result (IsViewFault (Self.has_failed self.old)) };

    /// A medium, or None where none has the id.
    fn media(&mut self, table: &Name, id: i64) -> Result<Option<Media>, Fault>
        ensures same { Self.has_failed self.new ≡ Self.has_failed self.old }
        ensures kept { LeavesPackage (Self.store self.old) (Self.store self.new) }
        ensures value { ShowsPart
            (IsOn (Self.has_failed self.old) (Self.store self.old) (Self.store self.new))
            (option_map shown_medium) (λ p. get p.media (item table.now id)) result }
        ensures ended { Self.has_failed self.old ≡ true → result ≡ Err reopen }
        ensures fault { IfErr result (IsViewFault (Self.has_failed self.old)) };

    /// What an attribute row or medium is related to, where it stands.
    fn related(&mut self, table: &Name, id: i64) -> Result<Option<Vec<Related>>, Fault>
        ensures same { Self.has_failed self.new ≡ Self.has_failed self.old }
        ensures kept { LeavesPackage (Self.store self.old) (Self.store self.new) }
        ensures value { ShowsPart
            (IsOn (Self.has_failed self.old) (Self.store self.old) (Self.store self.new))
            (option_map (λ v. map mate_told v.items)) (λ p. mates p table.now id) result }
        ensures ended { Self.has_failed self.old ≡ true → result ≡ Err reopen }
        ensures fault { IfErr result (IsViewFault (Self.has_failed self.old)) };

    /// The tables by rising name.
    fn contents(&mut self) -> Result<Vec<Entry>, Fault>
        ensures same { Self.has_failed self.new ≡ Self.has_failed self.old }
        ensures kept { LeavesPackage (Self.store self.old) (Self.store self.new) }
        ensures value { ShowsPart
            (IsOn (Self.has_failed self.old) (Self.store self.old) (Self.store self.new))
            (λ v. map listing.table_told v.items) shown_tables result }
        ensures ended { Self.has_failed self.old ≡ true → result ≡ Err reopen }
        ensures fault { IfErr result (IsViewFault (Self.has_failed self.old)) };

    /// The rows of an attribute table from an id on, each with its id, by rising id and 1,000 at most, or None where no
    /// attribute table has the name.
    fn rows(&mut self, table: &Name, first: i64) -> Result<Option<Vec<(i64, Row)>>, Fault>
        ensures same { Self.has_failed self.new ≡ Self.has_failed self.old }
        ensures kept { LeavesPackage (Self.store self.old) (Self.store self.new) }
        ensures value { ShowsPart
            (IsOn (Self.has_failed self.old) (Self.store self.old) (Self.store self.new))
            (option_map (λ v. map numbered_told v.items)) (λ p. shown_rows p table.now first)
            result }
        ensures ended { Self.has_failed self.old ≡ true → result ≡ Err reopen }
        ensures fault { IfErr result (IsViewFault (Self.has_failed self.old)) };
}
