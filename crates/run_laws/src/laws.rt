// What holds of runs by the lines that they say. Nothing runs here.
ghost use Rattle.std.specs.Prelude.{◌≡◌, ℕ, Bool, false, true, List, Option, Some};
ghost use Rattle.std.specs.FinMap as map;
ghost use Rattle.edge_io.specs.Files.{Files};
ghost use Rattle.words.specs.Scripts.{output_of};
ghost use Rattle.words.specs.declared.request.Request.{Request};
ghost use Rattle.run_form.specs.Said.{Ending};
ghost use Rattle.run_form.specs.Endings.{is_fault};
ghost use Rattle.slicer_service.specs.Alike.{AgreeIn, IsDoneIn};
ghost use Rattle.run_laws.specs.Told.{SaysOf, SaysDone};

use slicer_service::laws::scripts_are_independent;

/// Where a run over told files ends with 0, 1 or 5 and says that a session is done, it is: its output has the whole text. And where both
/// ends of its script are steady, a line on a session says no fault.
pub fn lines_tell_how_sessions_ended()
    ensures done { (m : Files) (files_after : Option Files) (r : Request) (script : List ℕ) → SaysDone m files_after r script → (after : Files) × (files_after ≡ Some after) × IsDoneIn m r script after }
    ensures steady { (m : Files) (files_after : Option Files) (sources sinks : List ℕ → Bool) (r : Request) (script : List ℕ) (e : Ending) → SaysOf m files_after sources sinks r script e → sources script ≡ true → sinks (output_of script) ≡ true → is_fault e ≡ false }
{}

/// Scripts of runs are independent: two runs over told files that agree in the folder and on the script, and have the same `main`, that
/// end with 0, 1 or 5 and say of the script's session that it is done, leave the same bytes in its output.
pub fn runs_are_independent()
    ensures { (m n : Files) (files_after files_left : Option Files) (r q : Request) (script : List ℕ) → AgreeIn r.folder m n → map.get m script ≡ map.get n script → q.folder ≡ r.folder → q.main ≡ r.main → SaysDone m files_after r script → SaysDone n files_left q script → (after : Files) × (left : Files) × (files_after ≡ Some after) × (files_left ≡ Some left) × (map.get after (output_of script) ≡ map.get left (output_of script)) }
{
    scripts_are_independent();
}
