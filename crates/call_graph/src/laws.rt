// What holds of entry methods. Nothing runs here.
ghost use Rattle.std.specs.Prelude.{ℕ, List, Option};
ghost use Rattle.dep_form.specs.declared.rules.Entry.{Entry};
ghost use Rattle.program_form.specs.Programs.{Program, HasFormal};
ghost use Rattle.call_graph.specs.Entries.{IsEntry};

/// An entry method has the argument that it is given.
pub fn an_entry_takes_its_argument()
    ensures { (p : Program) (main : Option (List ℕ)) (e : Entry) → IsEntry p.classes p.methods main e → HasFormal p e.method 0 }
{}
