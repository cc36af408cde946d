// What holds of every reader. Nothing runs here.
ghost use Rattle.std.specs.Prelude.{◌≡◌, ◌++◌, ℕ, List, Bool, Option};
ghost use Rattle.session_form.specs.Scripts.{AreLines};
ghost use Rattle.script_lines.specs.declared.reader.ScriptReader.{ScriptReader};
ghost use Rattle.script_lines.specs.Reading.{IsBetween};

/// The lines that were taken are the first of those that are answered.
pub fn taken_lines_come_first()
    ensures { (script : List ℕ) (lines ls : List (List ℕ)) (r : ScriptReader) (left : Option (List ℕ)) (is_cut : Bool) → IsBetween script lines r left → AreLines script is_cut ls → (more : List (List ℕ)) × (ls ≡ lines ++ more) }
{}
