//! Moments and their texts determine each other.

ghost use Rattle.std.specs.Prelude.{◌≡◌, ℕ};
ghost use Rattle.mm_definitions.specs.Bounds.{IsMoment};
ghost use Rattle.mm_definitions.specs.Keys.{Text};
ghost use Rattle.mm_definitions.specs.Stamp.{IsStamp, stamp};

/// Each moment has a stamp.
pub fn each_moment_has_its_stamp()
    ensures { (moment : ℕ) → IsMoment moment → IsStamp moment (stamp moment) }
{}

/// And no other text is its stamp.
pub fn a_moment_has_one_stamp()
    ensures one { (moment : ℕ) (text other : Text) → IsStamp moment text → IsStamp moment other
        → text ≡ other }
    ensures named { (moment : ℕ) (text : Text) → IsStamp moment text → text ≡ stamp moment }
{}

/// A text is the stamp of one moment at most, and of none outside the limits.
pub fn a_stamp_is_of_one_moment()
    ensures one { (moment other : ℕ) (text : Text) → IsStamp moment text → IsStamp other text
        → moment ≡ other }
    ensures within { (moment : ℕ) (text : Text) → IsStamp moment text → IsMoment moment }
{}
