// What the definitions of a run say together. Nothing runs here.
ghost use Rattle.std.specs.Prelude.{◌≡◌, ℕ, List, Option};
ghost use Rattle.std.specs.FinMap as map;
ghost use Rattle.edge_io.specs.Files.{Files};
ghost use Rattle.words.specs.declared.request.Request.{Request};
ghost use Rattle.dep_form.specs.declared.facts.Facts.{Facts};
ghost use Rattle.run_form.specs.Said.{Ending, session_lines};
ghost use Rattle.run_form.specs.Outputs.{IsServed};
ghost use Rattle.run_form.specs.Runs.{RunOf};
ghost use Rattle.run_form.specs.Endings.{HaveEnded, KeepsOthers, status_of};

use acceptance::laws::one_end;
use session_form::laws::one_text;
use text_laws::laws::a_folder_gives_one_text;

/// A run is a function of its request and the files: it has one status, says one text, and leaves one thing at each path.
pub fn one_run()
    ensures { (m : Files) (asked : Option Request) (s t : ℕ) (said told : List ℕ) (a b : Files) → RunOf m asked s said a → RunOf m asked t told b → (s ≡ t) × (said ≡ told) × ((path : List ℕ) → map.get a path ≡ map.get b path) }
{
    one_end();
    a_folder_gives_one_text();
}

/// The sessions of scripts that are served are done: each output has its script's text, the status is 0, and a line is said on each.
/// However sessions end, an output has a beginning of its script's text, and every other path what it had.
pub fn ended_sessions_keep_files()
    ensures served { (f : Facts) (m : Files) (scripts : List (List ℕ)) (told : List ℕ) (after : Files) → IsServed f m scripts told after → (ends : List Ending) × HaveEnded f m scripts ends after × (status_of ends ≡ 0) × (told ≡ session_lines 1 ends) }
    ensures kept { (f : Facts) (m : Files) (scripts : List (List ℕ)) (ends : List Ending) (after : Files) → HaveEnded f m scripts ends after → KeepsOthers f m scripts after }
{
    one_text();
}
