// Laws of the definitions. Nothing runs here.
ghost use Rattle.std.specs.Prelude.{◌↔◌, List};
ghost use Rattle.slicer_ids.specs.declared.ids.MethodId.{MethodId};
ghost use Rattle.dep_form.specs.declared.rules.Rule.{Rule};
ghost use Rattle.dep_form.specs.declared.system.System.{System};
ghost use Rattle.program_form.specs.Programs.{Program};
ghost use Rattle.constraint_form.specs.Variables.{Meaning};
ghost use Rattle.constraint_form.specs.Rules.{IsConstraint};
ghost use Rattle.constraint_rules.specs.Statements.{IsRuleOf};

/// The constraints of a program are those of the root and of each statement, rule by rule.
pub fn constraints_are_those_of_statements()
    ensures { (p : Program) (s : System) (names : List Meaning) (m : MethodId) (r : Rule) → IsConstraint p s names m r ↔ IsRuleOf p s names m r }
{}
