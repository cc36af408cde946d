// What holds of every line, and of every printed name.
ghost use Rattle.std.specs.Prelude.{◌≡◌, ◌≢◌, ℕ, List, [], All, Result};
ghost use Rattle.slicer_ids.specs.Escapes.{StandsFor, printed};
ghost use Rattle.script.specs.Words.{IsWord};
ghost use Rattle.script.specs.Operands.{IsClassName};
ghost use Rattle.script.specs.Lines.{Says};
ghost use Rattle.script.specs.declared.command.Command.{Command};
ghost use Rattle.script.specs.declared.command.LineError.{LineError};

/// Each line says just one thing: nothing, one command, or why it is refused.
pub fn each_line_says_one()
    ensures some { (line : List ℕ) → (r : Result Command LineError) × Says line r }
    ensures one { (line : List ℕ) (r : Result Command LineError) (s : Result Command LineError) → Says line r → Says line s → r ≡ s }
{}

/// A printed name is one word, and stands for the name. The printed name of a class without dots stands for that class.
pub fn printed_names_read_back()
    ensures word { (bytes : List ℕ) → bytes ≢ [] → IsWord (printed bytes) }
    ensures name { (bytes : List ℕ) → StandsFor (printed bytes) bytes }
    ensures class { (bytes : List ℕ) → All (λ b. b ≢ 46) bytes → IsClassName (printed bytes) bytes }
{}
