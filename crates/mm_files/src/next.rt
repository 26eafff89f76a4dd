//! From one run to the next.

ghost use Rattle.std.specs.Prelude.{Bool};
ghost use Rattle.sqlite.specs.Recovery.{Image};
ghost use Rattle.sqlite.specs.WalFiles.{image_at};
ghost use Rattle.mm_definitions.specs.Streams.{Written};
ghost use Rattle.mm_files.specs.Worked.{IsNextRun, closes_behind};

use crate::works::Works;
use sqlite::{Files, Start};
use sqlite_disk::Disk;

/// The law of two runs: the second is opened on what a crash, or none, left of the files of the first.
pub fn next_run<D: Disk, E: Disk, T: Start, K: Works, L: Works>(
    _first: &K,
    _done: Result<K::Done, K::Why>,
    _files: &Files<D>,
    _next: &T,
    _second: &L,
    _ended: Result<L::Done, L::Why>,
    _left: &Files<E>,
)
    ensures { (image : Image) (a b c d : Written) → IsNextRun D.Disk E.Disk image (image_at T.Start)
        (closes_behind K.closes _done) (closes_behind L.closes _ended)
        (λ db after. K.leaves _first.now db after a b _done)
        (λ db after. L.leaves _second.now db after c d _ended) _files.now _left.now }
{}
