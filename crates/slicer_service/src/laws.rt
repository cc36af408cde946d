// What holds of any two runs. Nothing runs here.
ghost use Rattle.std.specs.Prelude.{◌≡◌, ℕ, List};
ghost use Rattle.std.specs.FinMap as map;
ghost use Rattle.edge_io.specs.Files.{Files};
ghost use Rattle.words.specs.Scripts.{output_of};
ghost use Rattle.words.specs.declared.request.Request.{Request};
ghost use Rattle.slicer_service.specs.Alike.{AgreeIn, IsDoneIn};

use text_laws::laws::a_folder_gives_one_text;

/// Scripts are independent: where the sessions of two runs, whose files agree in the folder and on the script, and that start with the
/// same `main`, ended, and the session on the script is done in both, its output has the same bytes. What the other scripts are, and how
/// their sessions ended, doesn't matter.
pub fn scripts_are_independent()
    ensures { (m n after left : Files) (r q : Request) (script : List ℕ) → AgreeIn r.folder m n → map.get m script ≡ map.get n script → q.folder ≡ r.folder → q.main ≡ r.main → IsDoneIn m r script after → IsDoneIn n q script left → map.get after (output_of script) ≡ map.get left (output_of script) }
{
    a_folder_gives_one_text();
}
