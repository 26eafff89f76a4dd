//! What holds of the definitions, as contracts.

ghost use Rattle.std.specs.Prelude.{◌≡◌, ℤ};
ghost use Rattle.sqlite.specs.Tree.{Trees};
ghost use Rattle.mm_definitions.specs.Package.{Package};
ghost use Rattle.mm_store.specs.Stands.{StandsFor};

/// A database stands for at most one package.
pub fn stands_for_one()
    ensures { (version : ℤ) (db : Trees) (p q : Package) → StandsFor version db p
        → StandsFor version db q → p ≡ q }
{}

/// A database stands for packages under one version of the profile alone.
pub fn stands_under_one_version()
    ensures { (v w : ℤ) (db : Trees) (p q : Package) → StandsFor v db p → StandsFor w db q → v ≡ w }
{}
