// Laws of the definitions. Nothing runs here.
ghost use Rattle.std.specs.Prelude.{ℕ, List, length};
ghost use Rattle.slicer_ids.specs.Sets.{IsOrderedListOf};
ghost use Rattle.program_form.specs.Programs.{Program};
ghost use Rattle.program_form.specs.Systems.{ForeignBefore, IsForeignStatic};
ghost use Rattle.constraint_form.specs.Asked.{IsReadProgram};
ghost use Rattle.constraint_form.specs.Variables.{Meaning};
ghost use Rattle.variable_tables.specs.declared.tables.VariableTables.{VariableTables};
ghost use Rattle.variable_tables.specs.Tables.{AreTables, AreNames};

/// The tables are the variables of the program: some list says what each number stands for, and a system with these tables has
/// these variables.
pub fn the_tables_are_the_variables()
    ensures { (p : Program) (foreign : List (List ℕ × List ℕ)) (t : VariableTables) → IsReadProgram p → IsOrderedListOf ForeignBefore foreign (IsForeignStatic p) → AreTables p (length foreign) t → (names : List Meaning) × AreNames p t names }
{}
