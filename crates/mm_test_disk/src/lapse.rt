//! A disk round a disk that counts its calls, and fails those that a plan names.

ghost use Rattle.std.specs.Prelude.{◌≡◌, ◌+◌, ◌&&◌, not, false};
ghost use Rattle.sqlite_disk.specs.Disk.{CountsFault};
ghost use Rattle.sqlite_disk.specs.Refusal.{finds_no_room};
ghost use Rattle.mm_test_disk.specs.Lapses.{HasNotLapsed, inside};

use sqlite_disk::{Crash, Disk, Tally};
use std::cell::Cell;
use std::io;
use std::ops::Range;

/// Which calls fail. The test keeps it, and lends it to the disk that a store owns.
#[derive(Drop)]
pub struct Plan {
    calls: Cell<u64>,
    first: Cell<u64>,
    end: Cell<u64>,
}

impl Plan {
    /// No call fails.
    pub fn new() -> Plan {
        Plan {
            calls: Cell::new(0),
            first: Cell::new(0),
            end: Cell::new(0),
        }
    }

    /// How many calls were asked for so far.
    pub fn calls(&self) -> u64 {
        self.calls.get()
    }

    /// From now on the calls with these numbers fail, where the next call is number 0.
    pub fn fail(&self, calls: Range<u64>) {
        let now = self.calls.get();
        self.first.set(now.saturating_add(calls.start));
        self.end.set(now.saturating_add(calls.end));
    }

    /// Whether a call was asked for that was to fail.
    pub fn has_failed(&self) -> bool {
        self.first.get() < self.end.get() && self.first.get() < self.calls.get()
    }

    /// Counts a call, and answers whether it fails.
    fn count(&self) -> bool {
        let now = self.calls.get();
        self.calls.set(now.saturating_add(1));
        self.first.get() <= now && now < self.end.get()
    }
}

/// A disk round a disk. A call that the plan names fails before the inner disk is asked, any other is the inner disk's. After
/// a sync that failed it may not be used until the machine comes back.
#[derive(Drop)]
pub struct Lapse<'a, D: Disk> {
    inner: D,
    plan: &'a Plan,
    refused: u64,
    sync_refused: bool,
}

impl<'a, D: Disk> Lapse<'a, D> {
    /// A disk round this one, which counts the calls of the plan on. No call has lapsed.
    pub fn new(inner: D, plan: &'a Plan) -> Lapse<'a, D>
        ensures round { inside result ≡ inner }
        ensures whole { HasNotLapsed result }
    {
        Lapse {
            inner,
            plan,
            refused: 0,
            sync_refused: false,
        }
    }

    /// The disk inside.
    pub fn inner(&self) -> &D
        ensures { result.now ≡ inside self.now }
    {
        &self.inner
    }

    /// The disk inside, with what was written to it.
    pub fn into_inner(self) -> D
        ensures { result ≡ inside self.entry }
    {
        let Lapse {
            inner,
            plan: _plan,
            refused: _refused,
            sync_refused: _sync_refused,
        } = self;
        inner
    }
}

/// Counts a call, and fails it where the plan names it.
fn spend(plan: &Plan, refused: &mut u64) -> io::Result<()>
    ensures faults { CountsFault result refused.old refused.new }
    ensures kind { finds_no_room result ≡ false }
{
    if plan.count() {
        *refused = refused.saturating_add(1);
        return Err(io::Error::other("the call lapsed"));
    }
    Ok(())
}

impl<D: Disk> Disk for Lapse<'_, D> {
    ghost seen = { λ f. D.Disk.seen f.inner };

    ghost may_leave = { λ f. D.Disk.may_leave f.inner };

    ghost is_usable = { λ f. D.Disk.is_usable f.inner && not f.sync_refused };

    ghost faults = { λ f. D.Disk.faults f.inner + f.refused };

    ghost tally_of = { λ f. D.Disk.tally_of f.inner };

    ghost is_rotten = { λ f. D.Disk.is_rotten f.inner };

    ghost key_of = { λ f. D.Disk.key_of f.inner };

    ghost is_clean = { λ f. D.Disk.is_clean f.inner };

    ghost is_fair = { λ f. D.Disk.is_fair f.inner };

    ghost fair_if_clean = { λ f. D.Disk.fair_if_clean f.inner };

    ghost seen_may_stay = { λ f. D.Disk.seen_may_stay f.inner };

    ghost is_mixing = { λ f. D.Disk.is_mixing f.inner };

    fn mixes(&self) -> bool {
        self.inner.mixes()
    }

    fn key(&self) -> u64 {
        self.inner.key()
    }

    fn tally(&self) -> Tally {
        self.inner.tally()
    }

    fn may_be_used(&self) -> bool {
        self.inner.may_be_used() && !self.sync_refused
    }

    fn len(&mut self) -> io::Result<usize> {
        spend(self.plan, &mut self.refused)?;
        self.inner.len()
    }

    fn read_at(&mut self, at: usize, buf: &mut [u8]) -> io::Result<()> {
        spend(self.plan, &mut self.refused)?;
        self.inner.read_at(at, buf)
    }

    fn read_checked(&mut self, key: u64, want: u64, at: usize, buf: &mut [u8]) -> io::Result<()> {
        spend(self.plan, &mut self.refused)?;
        self.inner.read_checked(key, want, at, buf)
    }

    fn write_at(&mut self, at: usize, bytes: &[u8]) -> io::Result<()> {
        spend(self.plan, &mut self.refused)?;
        self.inner.write_at(at, bytes)
    }

    fn set_len(&mut self, len: usize) -> io::Result<()> {
        spend(self.plan, &mut self.refused)?;
        self.inner.set_len(len)
    }

    fn sync(&mut self) -> io::Result<()> {
        if let Err(error) = spend(self.plan, &mut self.refused) {
            self.sync_refused = true;
            return Err(error);
        }
        self.inner.sync()
    }
}

/// The machine comes back. The plan stays as it is.
impl<D: Crash> Crash for Lapse<'_, D> {
    fn crash(&mut self) {
        self.inner.crash();
        self.sync_refused = false;
    }
}
