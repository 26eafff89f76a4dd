//! The nearest lower and the nearest higher zoom of a pyramid decide for all its zooms.

ghost use Rattle.std.specs.Prelude.{◌≡◌, ◌↔◌, ℤ, Option, false, IsTrue};
ghost use Rattle.std.specs.FinMap.{contains_key, insert};
ghost use Rattle.mm_definitions.specs.Conditions.{clashes};
ghost use Rattle.mm_definitions.specs.Keys.{Text, level};
ghost use Rattle.mm_definitions.specs.Neighbours.{Zoomed, neighbours, IsNearestBelow, IsNearestAbove};
ghost use Rattle.mm_definitions.specs.Package.{Package, Grid, Kinds, MatricesPart, has_kind};
ghost use Rattle.mm_definitions.specs.Rules.{HigherIsFiner, NextIsHalved};
ghost use Rattle.mm_definitions.specs.declared.commands.Kind.TheVariants as kind_names;

/// A new matrix suits the two nearest zooms exactly where, with it, the pixel sizes of all zooms go as they must.
pub fn the_nearest_zooms_decide_the_rules()
    ensures { (kinds : Kinds) (matrices : MatricesPart) (table : Text) (zoom : ℤ) (g : Grid)
        (below above : Option Zoomed) → HigherIsFiner matrices → NextIsHalved kinds matrices
        → contains_key matrices (level table zoom) ≡ false
        → IsNearestBelow matrices table zoom below → IsNearestAbove matrices table zoom above
        → IsTrue (neighbours below zoom g above (has_kind kinds table kind_names.Two))
        ↔ (HigherIsFiner (insert matrices (level table zoom) g)
        × NextIsHalved kinds (insert matrices (level table zoom) g)) }
{}

/// It suits the two nearest zooms exactly where it clashes with none: this is refusal 32.
pub fn the_nearest_zooms_tell_every_clash()
    ensures { (p : Package) (table : Text) (zoom : ℤ) (g : Grid) (below above : Option Zoomed)
        → HigherIsFiner p.matrices → NextIsHalved p.kinds p.matrices
        → contains_key p.matrices (level table zoom) ≡ false
        → IsNearestBelow p.matrices table zoom below → IsNearestAbove p.matrices table zoom above
        → IsTrue (neighbours below zoom g above (has_kind p.kinds table kind_names.Two))
        ↔ (clashes p table zoom g ≡ false) }
{}
