// Laws of the definitions. Nothing runs here.
ghost use Rattle.program_form.specs.Programs.{Program};
ghost use Rattle.program_form.specs.Tiny.{tiny_program};
ghost use Rattle.program_form.specs.Graphs.{Numbering, AreFactsOf};
ghost use Rattle.dep_form.specs.declared.facts.Facts.{Facts};
ghost use Rattle.dep_form.specs.declared.effects.ModRef.{ModRef};
ghost use Rattle.dep_form.specs.declared.system.System.{System};
ghost use Rattle.dep_form.specs.Effects.{IsModRefOf};
ghost use Rattle.constraint_form.specs.Asked.{IsReadProgram};
ghost use Rattle.constraint_form.specs.ConstraintSystems.{IsConstraintSystem};
ghost use Rattle.program_code.specs.Codes.{IsProgramOfCode};
ghost use Rattle.slicer_ids.specs.declared.ids.MethodId.{MethodId};
ghost use Rattle.std.specs.Prelude.{◌<◌, List, length, sum_by};
ghost use Rattle.slicer_ids.specs.declared.ids.Statement.{Statement};
ghost use Rattle.class_form.specs.Opcodes.{IsCall};
ghost use Rattle.class_form.specs.declared.body.Body.{Body};
ghost use Rattle.class_form.specs.declared.body.Instr.{Instr};
ghost use Rattle.program_form.specs.Statements.{IsAt};
ghost use Rattle.fact_form.specs.NodeNumbers.{HasResult};
ghost use Rattle.dep_form.specs.declared.node.Node.{Node};
ghost use Rattle.dep_form.specs.declared.node.Node.TheVariants.{Own};
ghost use Rattle.dep_form.specs.declared.access.Access.{Access};
ghost use Rattle.dep_form.specs.Inputs.{IsNode as IsNodeNumber, BelongsTo};
ghost use Rattle.dep_form.specs.LookUps.{IsStatement as IsListed, IsAccessAt};
ghost use Rattle.slicer_ids.specs.declared.ids.NodeId.{NodeId};
ghost use Rattle.dep_form.specs.Summaries.{HasSize};
ghost use Rattle.program_form.specs.Nodes.{IsNode};
ghost use Rattle.fact_form.specs.EntryCalls.{AreEntryCalls};
ghost use Rattle.fact_form.specs.FactLimits.{IsMemoSize};
ghost use Rattle.dep_form.specs.WithinFacts.{AreFacts};
ghost use Rattle.fact_form.specs.FactTables.{Parts, AreFactTables, AreFewParts, AreNodeRows, words_in, parts_of, IsFactSystem};

use constraint_form::laws::{
    constraints_give_the_facts, static_spots_are_of_static_variables,
    the_least_program_has_constraints,
};

/// Facts that are made, table by table, of the system of constraints of a program and of what its methods change and read are the
/// facts of that program.
pub fn tables_are_the_facts()
    ensures { (p : Program) (s : System) (mr : ModRef) (f : Facts) → IsReadProgram p → IsProgramOfCode p → IsConstraintSystem p s → IsModRefOf s mr → IsFactSystem p s mr f → (ns : Numbering) × AreFactsOf p ns f }
{
    constraints_give_the_facts();
    static_spots_are_of_static_variables();
}

/// Such tables keep what facts keep, where their numbers have 32 bits: facts can be made of them.
pub fn tables_keep_what_facts_keep()
    ensures { (p : Program) (s : System) (mr : ModRef) (entries : List MethodId) (t : Parts) → IsReadProgram p → IsProgramOfCode p → IsConstraintSystem p s → IsModRefOf s mr → AreFactTables p s mr entries t → AreFewParts t → AreFacts t.inputs t.exits t.classes t.methods t.sites t.lines t.accesses t.values }
{
    constraints_give_the_facts();
    static_spots_are_of_static_variables();
}

/// A program has as many nodes as the rows of the nodes of its methods, and of the root, have together.
pub fn rows_count_the_nodes()
    ensures { (p : Program) (s : System) (mr : ModRef) (entries : List MethodId) (rows : List (List Node)) → IsReadProgram p → IsProgramOfCode p → IsConstraintSystem p s → IsModRefOf s mr → AreEntryCalls p s entries → AreNodeRows p s mr entries rows → HasSize (IsNode p) (sum_by length rows) }
{
    constraints_give_the_facts();
    static_spots_are_of_static_variables();
}

/// .. and as many words in the rows of summaries as these rows need together.
pub fn rows_count_the_words()
    ensures { (p : Program) (s : System) (mr : ModRef) (entries : List MethodId) (rows : List (List Node)) → IsReadProgram p → IsProgramOfCode p → IsConstraintSystem p s → IsModRefOf s mr → AreEntryCalls p s entries → AreNodeRows p s mr entries rows → IsMemoSize p (sum_by words_in rows) }
{
    constraints_give_the_facts();
    static_spots_are_of_static_variables();
}

/// A call leaves something on the stack exactly where it has a result.
pub fn a_call_leaves_its_result()
    ensures left { (p : Program) (t : Statement) (b : Body) (i : Instr) → IsReadProgram p → IsProgramOfCode p → IsAt p t b i → IsCall i.op → 0 < i.leaves → HasResult p t }
    ensures answered { (p : Program) (t : Statement) (b : Body) (i : Instr) → IsReadProgram p → IsProgramOfCode p → IsAt p t b i → IsCall i.op → HasResult p t → 0 < i.leaves }
{}

/// The least program has such tables, and such rows: what the laws on tables and on rows ask can be met, all at once.
pub fn the_least_program_has_tables()
    ensures tables { (s : System) × (mr : ModRef) × (f : Facts) × IsReadProgram tiny_program × IsProgramOfCode tiny_program × IsConstraintSystem tiny_program s × IsModRefOf s mr × IsFactSystem tiny_program s mr f × AreFewParts (parts_of f) }
    ensures rows { (s : System) × (mr : ModRef) × (entries : List MethodId) × (rows : List (List Node)) × IsReadProgram tiny_program × IsProgramOfCode tiny_program × IsConstraintSystem tiny_program s × IsModRefOf s mr × AreEntryCalls tiny_program s entries × AreNodeRows tiny_program s mr entries rows }
{
    the_least_program_has_constraints();
    constraints_give_the_facts();
    tables_keep_what_facts_keep();
}

/// Facts of a program list its statements: what nodes belong to is one, each has its own node, and accesses are statements.
pub fn facts_list_each_statement()
    ensures listed { (p : Program) (ns : Numbering) (f : Facts) → AreFactsOf p ns f → (n : NodeId) (t : Statement) → BelongsTo f.inputs n t → IsListed f t }
    ensures has_node { (p : Program) (ns : Numbering) (f : Facts) → AreFactsOf p ns f → (t : Statement) → IsListed f t → (n : NodeId) × IsNodeNumber f.inputs n t.method (Own t.pc) }
    ensures accesses { (p : Program) (ns : Numbering) (f : Facts) → AreFactsOf p ns f → (t : Statement) (a : Access) → IsAccessAt f t a → IsListed f t }
{}
