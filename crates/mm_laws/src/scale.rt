//! Laws of the change of unit.

ghost use Rattle.std.specs.Prelude.{◌≡◌, option_map};
ghost use Rattle.std.specs.FinMap.{get};
ghost use Rattle.mm_definitions.specs.Bounds.{millimetres, micrometres};
ghost use Rattle.mm_definitions.specs.Keys.{Text, Level};
ghost use Rattle.mm_definitions.specs.Package.{Package};
ghost use Rattle.mm_definitions.specs.Rules.{Meets};
ghost use Rattle.mm_definitions.specs.Scale.{scale, finer_contents, finer_set, finer_grid};

/// A package of whole millimetres that meets the rules meets them in whole micrometres too.
pub fn the_same_package_in_the_smaller_unit_meets_the_rules()
    ensures { (p : Package) → Meets millimetres p → Meets micrometres (scale p) }
{}

/// Under each key stands what stood there, in the smaller unit.
pub fn each_entry_is_told_in_the_smaller_unit()
    ensures contents { (p : Package) (table : Text)
        → get (scale p).contents table ≡ option_map finer_contents (get p.contents table) }
    ensures sets { (p : Package) (table : Text) → get (scale p).sets table
        ≡ option_map finer_set (get p.sets table) }
    ensures matrices { (p : Package) (k : Level) → get (scale p).matrices k
        ≡ option_map finer_grid (get p.matrices k) }
{}
