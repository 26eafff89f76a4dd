//! What calls answer: refusals, faults, and the tallies that go with them.

ghost use Rattle.std.specs.Prelude.{◌≡◌};
ghost use Rattle.mm_definitions.specs.Reading.{refused, outcome_refused};

use crate::refusals::{PIECE_REFUSED, Reason};
use std::alloc::AllocError;
use std::marker::Model;

/// Why a command is refused: a number of the table. With 53, and with no other, it tells the number of a piece and the
/// piece's own reason.
#[derive(Clone, Copy, Debug, PartialEq, Eq)]
pub struct Refusal {
    number: u8,
    piece: Option<(u32, u8)>,
}

impl Model for Refusal {
    ghost use Rattle.mm_definitions.specs.Refusals.{IsRefusal};
    ghost use Rattle.mm_definitions.specs.Refusals as told;

    ghost Value = { told.Refusal };

    ghost view = { λ refusal. record { number = refusal.number; piece = refusal.piece } };

    ghost inverse = { λ refusal. record { number = refusal.number; piece = refusal.piece } };

    ghost invariant = { λ refusal. IsRefusal refusal.number refusal.piece };
}

impl Refusal {
    ghost use Rattle.std.specs.Prelude.{◌≡◌, None, Some};
    ghost use Rattle.mm_definitions.specs.Refusals.{IsReason, IsRefusal, reason_of};

    /// For this reason.
    pub const fn of(reason: Reason) -> Refusal
        ensures { result ≡ record { number = reason; piece = None } }
    {
        Refusal {
            number: reason.get(),
            piece: None,
        }
    }

    /// 53: the piece of this number is refused, for this reason.
    pub const fn of_piece(piece: u32, reason: Reason) -> Refusal
        ensures { result ≡ record { number = PIECE_REFUSED; piece = Some (piece, reason) } }
    {
        Refusal {
            number: PIECE_REFUSED,
            piece: Some((piece, reason.get())),
        }
    }

    /// The number that is told.
    pub const fn number(self) -> u8
        ensures number { result ≡ self.number }
        ensures within { IsRefusal self.number self.piece }
    {
        self.number
    }

    /// With 53 the number of the piece that is refused, and the number of its own reason.
    pub const fn piece(self) -> Option<(u32, u8)>
        ensures piece { result ≡ self.piece }
        ensures within { IsRefusal self.number self.piece }
    {
        self.piece
    }

    /// The reason; with 53 that of the piece.
    pub const fn reason(self) -> Reason
        ensures { result ≡ reason_of self }
    {
        match self.piece {
            None => Reason::numbered(self.number),
            Some((_piece, own)) => Reason::numbered(own),
        }
    }
}

/// The number of a fault.
#[derive(Clone, Copy, Debug, PartialEq, Eq)]
struct FaultNumber {
    number: u8,
}

impl Model for FaultNumber {
    ghost use Rattle.std.specs.Prelude.{ℕ};
    ghost use Rattle.mm_definitions.specs.Refusals.{IsFaultNumber};

    ghost Value = { ℕ };

    ghost view = { λ fault. fault.number };

    ghost inverse = { λ number. record { number = number } };

    ghost invariant = { λ fault. IsFaultNumber fault.number };
}

/// What stopped a call: 90 want of memory, 91 the store, 92 a session that has to be opened again, 96 the input,
/// 97 the output. There is no other.
#[derive(Clone, Copy, Debug, PartialEq, Eq)]
pub struct Fault(FaultNumber);

impl Fault {
    ghost use Rattle.std.specs.Prelude.{◌≡◌};
    ghost use Rattle.mm_definitions.specs.Refusals.{IsFaultNumber};

    /// Want of memory.
    pub const MEMORY: Fault = Fault(FaultNumber { number: 90 });
    /// The store failed, or told what no package holds.
    pub const STORE: Fault = Fault(FaultNumber { number: 91 });
    /// The session failed before, and has to be opened again.
    pub const REOPEN: Fault = Fault(FaultNumber { number: 92 });
    /// The input could not be read.
    pub const INPUT: Fault = Fault(FaultNumber { number: 96 });
    /// The output could not be written.
    pub const OUTPUT: Fault = Fault(FaultNumber { number: 97 });

    /// Its number.
    pub const fn number(self) -> u8
        ensures number { result ≡ self.0 }
        ensures within { IsFaultNumber self.0 }
    {
        self.0.number
    }
}

impl From<AllocError> for Fault {
    ghost use Rattle.std.specs.Prelude.{◌≡◌};
    ghost use Rattle.mm_definitions.specs.Faults.{memory};

    ghost from_gives = { λ _ fault. fault ≡ memory };

    fn from(_error: AllocError) -> Fault {
        Fault::MEMORY
    }
}

/// The number of a rule, from 1 to 16.
#[derive(Clone, Copy, Debug, PartialEq, Eq)]
pub struct RuleNumber {
    number: u8,
}

impl Model for RuleNumber {
    ghost use Rattle.std.specs.Prelude.{ℕ};
    ghost use Rattle.mm_definitions.specs.Refusals.{IsRuleNumber};

    ghost Value = { ℕ };

    ghost view = { λ rule. rule.number };

    ghost inverse = { λ number. record { number = number } };

    ghost invariant = { λ rule. IsRuleNumber rule.number };
}

impl RuleNumber {
    ghost use Rattle.std.specs.Prelude.{◌≡◌, ◌≤◌};
    ghost use Rattle.mm_definitions.specs.Refusals.{IsRuleNumber};

    /// The rule that every name, number, text and length is within its limits, which is checked first.
    pub const LIMITS: RuleNumber = RuleNumber { number: 16 };

    /// The rule of this number.
    pub const fn of(number: u8) -> RuleNumber
        requires least { 1 ≤ number }
        requires most { number ≤ 16 }
        ensures { result ≡ number }
    {
        RuleNumber { number }
    }

    /// Its number.
    pub const fn get(self) -> u8
        ensures number { result ≡ self }
        ensures within { IsRuleNumber self }
    {
        self.number
    }
}

/// Why a file is not opened as a package.
#[derive(Clone, Copy, Debug, PartialEq, Eq)]
pub enum Open {
    /// 93: its profile has another version, which is told.
    Version(i64),
    /// 94: no profile row can be asked for.
    NoProfile,
    /// 95: its profile row is damaged.
    BadProfile,
    /// 98: its bytes are not kept once each, in blobs that are named and have their digests.
    BadBlobs,
    /// The rule that fails.
    Rule(RuleNumber),
    Fault(Fault),
}

/// Why no command was read from a record.
#[derive(Clone, Copy, Debug, PartialEq, Eq)]
pub enum ReadFault {
    /// 10, 11 or 12, the least that holds.
    Refused(Refusal),
    Memory,
}

impl ReadFault {
    /// The record is refused for this reason.
    pub const fn refused(reason: Reason) -> ReadFault
        ensures { result ≡ refused reason }
    {
        ReadFault::Refused(Refusal::of(reason))
    }
}

impl From<AllocError> for ReadFault {
    ghost use Rattle.std.specs.Prelude.{◌≡◌};
    ghost use Rattle.mm_definitions.specs.declared.answers.ReadFault.TheVariants as faults;

    ghost from_gives = { λ _ fault. fault ≡ faults.Memory };

    fn from(_error: AllocError) -> ReadFault {
        ReadFault::Memory
    }
}

/// What a session answers to a command.
#[derive(Clone, Copy, Debug, PartialEq, Eq)]
pub enum Answer {
    Ok,
    Refused(Refusal),
    Fault(Fault),
}

/// What a command did in the transaction that it was lent.
#[derive(Clone, Copy, Debug, PartialEq, Eq)]
pub enum Outcome {
    Done,
    Refused(Refusal),
}

impl Outcome {
    /// The command is refused for this reason, and tells of no piece.
    pub const fn refused(reason: Reason) -> Outcome
        ensures { result ≡ outcome_refused reason }
    {
        Outcome::Refused(Refusal::of(reason))
    }
}

/// How many records of a run were accepted and refused, and how many answer lines were written whole.
#[derive(Clone, Copy, Debug, PartialEq, Eq)]
pub struct Tally {
    pub accepted: u64,
    pub refused: u64,
    pub written: u64,
}

/// What ended a run before its input did, and what it had done.
#[derive(Clone, Copy, Debug, PartialEq, Eq)]
pub struct RunFault {
    pub fault: Fault,
    pub tally: Tally,
}

/// What an import of a kit came to.
#[derive(Clone, Copy, Debug, PartialEq, Eq)]
pub enum Staged {
    /// The edition holds the kit's pieces, so many.
    Complete(u32),
    /// A piece, or with 0 the kit itself, is refused for this reason.
    Refused { piece: u32, number: Reason },
}

/// What ended an import, and how many pieces it had been answered ok for.
#[derive(Clone, Copy, Debug, PartialEq, Eq)]
pub struct KitFault {
    pub fault: Fault,
    pub staged: u32,
}

/// What ended the service of one connection.
#[derive(Clone, Copy, Debug, PartialEq, Eq)]
pub struct PageFault(pub Fault);
