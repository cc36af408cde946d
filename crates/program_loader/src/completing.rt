// The facts of a program that was analysed.
ghost use Rattle.std.specs.Prelude.{◌≡◌, ℕ, List, IfOk, Err};
ghost use Rattle.program_form.specs.Programs.{Program};
ghost use Rattle.program_form.specs.Graphs.{Numbering, AreFactsOf};
ghost use Rattle.acceptance.specs.Programs.{IsAccepted, RefusesProgram};
ghost use Rattle.analysis.specs.Analysed.{IsOf, IsAnalysisOf};

use analysis::{Analysed, too_many};
use call_graph::laws::an_entry_takes_its_argument;
use dep_form::facts::Facts;
use folder_loader::{LoadError, Loaded};
use hierarchy::Hierarchy;
use program_facts::facts;
use read_programs::laws::{class_files_are_named, programs_of_code_are_read};
use std::alloc::Global;

// The facts (`program_facts::facts`), or the line that there are too many nodes, or words of summaries.
fn facts_of(alloc: Global, l: &Loaded, a: &Analysed) -> Result<Facts, LoadError>
    requires { (p : Program) × IsOf l.now p × IsAnalysisOf p a.now.system a.now.solution a.now.effects }
    ensures accepted { IfOk result (λ f. (p : Program) → IsOf l.now p → IsAnalysisOf p a.now.system a.now.solution a.now.effects → IsAccepted p × ((ns : Numbering) × AreFactsOf p ns f)) }
    ensures refused { (line : List ℕ) → result ≡ Err (LoadError.Refused line) → (p : Program) → IsOf l.now p → IsAnalysisOf p a.now.system a.now.solution a.now.effects → RefusesProgram p line }
    ensures host { result ≡ Err LoadError.Host → ⊥ }
{
    an_entry_takes_its_argument();
    programs_of_code_are_read();
    class_files_are_named();
    let bodies = l.bodies.as_slice();
    match facts(
        alloc,
        &l.hierarchy,
        bodies,
        &a.system,
        &a.solution,
        &a.effects,
    ) {
        Ok(facts) => Ok(facts),
        Err(error) => Err(too_many(alloc, error)),
    }
}

// The classes, without the rest.
fn hierarchy_of(loaded: Loaded) -> Hierarchy
    ensures { result ≡ loaded.hierarchy }
{
    let Loaded {
        hierarchy,
        bodies: _bodies,
        entries: _entries,
    } = loaded;
    hierarchy
}

/// The hierarchy of a program that was loaded, and its facts.
pub fn completed(
    alloc: Global,
    loaded: Loaded,
    analysed: &Analysed,
) -> Result<(Hierarchy, Facts), LoadError>
    requires { (p : Program) × IsOf loaded p × IsAnalysisOf p analysed.now.system analysed.now.solution analysed.now.effects }
    ensures classes { IfOk result (λ x. x.0 ≡ loaded.hierarchy) }
    ensures accepted { IfOk result (λ x. (p : Program) → IsOf loaded p → IsAnalysisOf p analysed.now.system analysed.now.solution analysed.now.effects → IsAccepted p × ((ns : Numbering) × AreFactsOf p ns x.1)) }
    ensures refused { (line : List ℕ) → result ≡ Err (LoadError.Refused line) → (p : Program) → IsOf loaded p → IsAnalysisOf p analysed.now.system analysed.now.solution analysed.now.effects → RefusesProgram p line }
    ensures host { result ≡ Err LoadError.Host → ⊥ }
{
    let facts = facts_of(alloc, &loaded, analysed)?;
    Ok((hierarchy_of(loaded), facts))
}
