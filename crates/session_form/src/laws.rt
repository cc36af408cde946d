// What holds of every session. Nothing runs here.
ghost use Rattle.std.specs.Prelude.{◌≡◌, ◌≢◌, ◌⊎◌, Bool, List, [], ℕ};
ghost use Rattle.slicer_ids.specs.declared.ids.ClassId.{ClassId};
ghost use Rattle.slicer_ids.specs.declared.ids.Statement.{Statement};
ghost use Rattle.dep_form.specs.declared.access.Access.{Access};
ghost use Rattle.dep_form.specs.LookUps.{IsClassNamed, AreAtLine};
ghost use Rattle.script.specs.declared.command.Place.{Place};
ghost use Rattle.report.specs.declared.reply.CommandError.{CommandError};
ghost use Rattle.session_form.specs.Places.{NamesStatement, NamesNone, NamesAccess, NamesNoAccess, NamesNoLine};
ghost use Rattle.dep_form.specs.declared.facts.Facts.{Facts};
ghost use Rattle.script.specs.declared.command.Command.{Command};
ghost use Rattle.script.specs.declared.command.Command.TheVariants.{Blank};
ghost use Rattle.report.specs.Replies.{Answer, IsOfFacts};
ghost use Rattle.session_form.specs.States.{State, AreListed};
ghost use Rattle.session_form.specs.Answers.{Answers};
ghost use Rattle.session_form.specs.Scripts.{AreLines, IsScriptText};

/// In a state a command gets one answer, and leads to one state.
pub fn one_answer()
    ensures { (f : Facts) (before : State) (c : Command) (a b : Answer) (s t : State) → Answers f before c a s → Answers f before c b t → (a ≡ b) × (s ≡ t) }
{}

/// A script has one text, which the facts and the script give alone.
pub fn one_text()
    ensures { (f : Facts) (script a b : List ℕ) → IsScriptText f script a → IsScriptText f script b → a ≡ b }
{}

/// Where each statement that has a node is listed, as facts of a program do, the answers to commands are of the facts: each
/// can be written.
pub fn answers_are_of_facts()
    ensures { (f : Facts) (before : State) (c : Command) (a : Answer) (after : State) → AreListed f → Answers f before c a after → IsOfFacts f a }
{}

/// Each script has lines that are answered.
pub fn each_script_has_lines()
    ensures { (script : List ℕ) → (c : Bool) × (lines : List (List ℕ)) × AreLines script c lines }
{}

/// Each place names a statement or has an error, and an access or an error; a class has statements at a line, or there is an error.
pub fn each_place_is_told()
    ensures statement { (f : Facts) (p : Place) → ((s : Statement) × NamesStatement f p s) ⊎ ((e : CommandError) × NamesNone f p e) }
    ensures access { (f : Facts) (p : Place) → ((s : Statement) × (a : Access) × NamesAccess f p s a) ⊎ ((e : CommandError) × NamesNoAccess f p e) }
    ensures line { (f : Facts) (name : List ℕ) (line : ℕ) → ((c : ClassId) × (ss : List Statement) × IsClassNamed f name c × AreAtLine f c line ss × (ss ≢ [])) ⊎ ((e : CommandError) × NamesNoLine f name line e) }
{}

/// A command isn't without an answer, but for a blank line. Which one it gets this doesn't say: no slice is decided here.
pub fn no_command_is_left_out()
    ensures { (f : Facts) (before : State) (c : Command) → c ≢ Blank → ((a : Answer) (after : State) → Answers f before c a after → ⊥) → ⊥ }
{}
