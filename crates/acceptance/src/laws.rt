// What holds of each folder. Nothing runs here.
ghost use Rattle.std.specs.Prelude.{◌≡◌, ℕ, List, Option};
ghost use Rattle.edge_io.specs.Files.{Files};
ghost use Rattle.program_form.specs.Programs.{Program};
ghost use Rattle.acceptance.specs.Refusals.{Accepts, IsRefusal};

use folder_form::laws::{one_reading, one_walk};

/// A folder is refused with one line at most, and only where it isn't accepted; and it is accepted with one program at most.
pub fn one_end()
    ensures line { (m : Files) (folder : List ℕ) (main : Option (List ℕ)) (a b : List ℕ) → IsRefusal m folder main a → IsRefusal m folder main b → a ≡ b }
    ensures not_both { (m : Files) (folder : List ℕ) (main : Option (List ℕ)) (a : List ℕ) (p : Program) → IsRefusal m folder main a → Accepts m folder main p → ⊥ }
    ensures program { (m : Files) (folder : List ℕ) (main : Option (List ℕ)) (p q : Program) → Accepts m folder main p → Accepts m folder main q → p ≡ q }
{
    one_walk();
    one_reading();
}
