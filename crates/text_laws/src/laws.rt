// What two facts of one program have in common. Nothing runs here.
ghost use Rattle.std.specs.Prelude.{◌≡◌, ℕ, List, [], All, Option};
ghost use Rattle.edge_io.specs.Files.{Files};
ghost use Rattle.class_form.specs.ClassRules.{IsClassFile};
ghost use Rattle.dep_form.specs.declared.facts.Facts.{Facts};
ghost use Rattle.program_form.specs.Programs.{Program};
ghost use Rattle.program_form.specs.Graphs.{Numbering, AreFactsOf};
ghost use Rattle.program_form.specs.Tiny.{tiny_program};
ghost use Rattle.program_code.specs.Codes.{IsProgramOfCode};
ghost use Rattle.constraint_form.specs.Asked.{IsReadProgram};
ghost use Rattle.session_form.specs.Scripts.{IsScriptText};
ghost use Rattle.acceptance.specs.Refusals.{Accepts};

use acceptance::laws::one_end;
use fact_form::laws::{tables_are_the_facts, the_least_program_has_tables};
use read_programs::laws::{
    mains_have_an_argument, programs_of_code_are_read, the_least_program_can_be_read,
};

/// All facts of a program give a script one text: how nodes, locations and calls are numbered shows nowhere. What is asked of the
/// program each accepted one has: its bodies are those of its classes' code, its class files keep the rules, and so it can be read.
pub fn a_program_gives_one_text()
    ensures { (p : Program) (ns ms : Numbering) (f g : Facts) (script a b : List ℕ) → IsReadProgram p → IsProgramOfCode p → All IsClassFile p.classes → AreFactsOf p ns f → AreFactsOf p ms g → IsScriptText f script a → IsScriptText g script b → a ≡ b }
{}

/// A folder that is accepted, with the entries of the class of a name where one is given, gives a script one text, whatever the facts
/// that are made of its program.
pub fn a_folder_gives_one_text()
    ensures { (m : Files) (folder : List ℕ) (main : Option (List ℕ)) (p q : Program) (ns ms : Numbering) (f g : Facts) (script a b : List ℕ) → Accepts m folder main p → Accepts m folder main q → AreFactsOf p ns f → AreFactsOf q ms g → IsScriptText f script a → IsScriptText g script b → a ≡ b }
{
    one_end();
    programs_of_code_are_read();
    mains_have_an_argument();
}

/// The least program has facts, and these give the empty script a text: what the law asks can be met.
pub fn the_least_program_gives_a_text()
    ensures { (ns : Numbering) × (f : Facts) × IsReadProgram tiny_program × IsProgramOfCode tiny_program × All IsClassFile tiny_program.classes × AreFactsOf tiny_program ns f × IsScriptText f [] [] }
{
    the_least_program_has_tables();
    tables_are_the_facts();
    the_least_program_can_be_read();
}
