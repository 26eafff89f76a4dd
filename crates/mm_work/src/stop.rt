//! Why the work was not done.

use mm_definitions::answers::{Fault, Open, RuleNumber};

/// Why a file is no package of this profile.
#[derive(Clone, Copy, Debug, PartialEq, Eq)]
pub enum NoPackage {
    /// 93: its profile has another version.
    Version,
    /// 94: it has no profile.
    NoProfile,
    /// 95: the row of its profile is none.
    BadProfile,
    /// 98: its bytes are not kept once each.
    BadBlobs,
}

impl NoPackage {
    ghost use Rattle.std.specs.Prelude.{◌≡◌};
    ghost use Rattle.mm_work.specs.Told.{no_package_number};

    /// The number that is told.
    pub fn number(self) -> u8
        ensures { result ≡ no_package_number self }
    {
        match self {
            NoPackage::Version => 93,
            NoPackage::NoProfile => 94,
            NoPackage::BadProfile => 95,
            NoPackage::BadBlobs => 98,
        }
    }
}

/// Why the work was not done.
#[derive(Clone, Copy, Debug, PartialEq, Eq)]
pub enum Stop {
    /// The file, or its journal, holds bytes where a new package is wanted.
    NotEmpty,
    /// The file is no package of this profile.
    NotPackage(NoPackage),
    /// The package breaks this rule.
    Rule(RuleNumber),
    Fault(Fault),
}

/// Why a connection is not adopted, as it is told.
impl From<Open> for Stop {
    ghost use Rattle.std.specs.Prelude.{◌≡◌};
    ghost use Rattle.mm_work.specs.Declined.{stop_of};

    ghost from_gives = { λ cause stop. stop ≡ stop_of cause };

    fn from(cause: Open) -> Stop {
        match cause {
            Open::Version(_) => Stop::NotPackage(NoPackage::Version),
            Open::NoProfile => Stop::NotPackage(NoPackage::NoProfile),
            Open::BadProfile => Stop::NotPackage(NoPackage::BadProfile),
            Open::BadBlobs => Stop::NotPackage(NoPackage::BadBlobs),
            Open::Rule(rule) => Stop::Rule(rule),
            Open::Fault(fault) => Stop::Fault(fault),
        }
    }
}
