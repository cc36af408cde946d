// What holds of each folder. Nothing runs here.
ghost use Rattle.std.specs.Prelude.{◌≡◌, List, [], ℕ};
ghost use Rattle.edge_io.specs.Files.{Files, IsFolder};
ghost use Rattle.folder_form.specs.Walks.{Walked, Found, IsNameIn, WalksFolder};
ghost use Rattle.folder_form.specs.Reading.{Read, ReadsAll};

/// The walk of a folder has one end.
pub fn one_walk()
    ensures { (m : Files) (folder : List ℕ) (a b : Walked) → WalksFolder m folder a → WalksFolder m folder b → a ≡ b }
{}

/// So has the reading of files.
pub fn one_reading()
    ensures { (m : Files) (paths : List (List ℕ)) (a b : Read) → ReadsAll m paths a → ReadsAll m paths b → a ≡ b }
{}

/// A folder with nothing in it has a walk, which finds nothing.
pub fn empty_walk()
    ensures { (m : Files) (folder : List ℕ) → IsFolder m folder → ((name : List ℕ) → IsNameIn m folder name → ⊥) → WalksFolder m folder (Found []) }
{}

/// Each folder has a walk.
pub fn each_folder_is_walked()
    ensures { (m : Files) (folder : List ℕ) → IsFolder m folder → (end : Walked) × WalksFolder m folder end }
{}
