//! Laws on files.
ghost use Rattle.std.specs.Prelude.{◌≡◌, ◌⊎◌, ℕ, List, Option, Some, Contains};
ghost use Rattle.ur_base.specs.declared.refusal.Refusal.{Refusal};
ghost use Rattle.ur_load.specs.Loaded.{IsLoaded, file_at};
ghost use Rattle.ur_load.specs.Loads.{OneRefusal};
ghost use Rattle.ur_load.specs.Refuses.{RefusesFiles};
ghost use Rattle.ur_load.specs.declared.loaded.Loaded.{Loaded};
ghost use Rattle.ur_load.specs.declared.source.Source.{Source};

/// The files of a project spell its trees in one way at most.
pub fn one_project()
    ensures { (files : List ℕ → Option (List ℕ)) (project : List ℕ) (l m : Loaded) → IsLoaded files project l → IsLoaded files project m → l ≡ m }
{}

/// No refusal is one of files that spell trees.
pub fn refused_is_not_loaded()
    ensures { (files : List ℕ → Option (List ℕ)) (project file : List ℕ) (r : Refusal) (l : Loaded) → RefusesFiles files project file r
        → IsLoaded files project l → ⊥ }
{}

/// Files have one refusal: its file, its code and its texts. Of E05 and E06 both may be so, where the tokens of a file nest too
/// deep and no nesting would do.
pub fn one_refusal()
    ensures { OneRefusal }
{}

/// The number of a source, which places in it carry, leads to its file.
pub fn numbers_lead_to_files()
    ensures { (files : List ℕ → Option (List ℕ)) (project : List ℕ) (l : Loaded) (is : IsLoaded files project l) (s : Source)
        → Contains is.sources.modules s ⊎ (is.sources.signature ≡ Some s) → file_at l s.number ≡ s.file }
{}
