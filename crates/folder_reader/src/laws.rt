// What holds of each folder. Nothing runs here.
ghost use Rattle.std.specs.Prelude.{ℕ, List, All};
ghost use Rattle.edge_io.specs.Files.{Files, IsFile};
ghost use Rattle.folder_form.specs.Walks.{WalksFolder, Found};

/// Where a walk finds class files, there are files: so the reading of what a walk found meets no path fault.
pub fn found_are_files()
    ensures { (m : Files) (folder : List ℕ) (paths : List (List ℕ)) → WalksFolder m folder (Found paths) → All (IsFile m) paths }
{}
