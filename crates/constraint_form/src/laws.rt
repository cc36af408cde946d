// Laws of the definitions. Nothing runs here.
ghost use Rattle.std.specs.Prelude.{Bool, List, All, Contains};
ghost use Rattle.slicer_ids.specs.declared.ids.Statement.{Statement};
ghost use Rattle.class_form.specs.Pools.{MemberKey};
ghost use Rattle.class_form.specs.Numbers.{IsNamedClass};
ghost use Rattle.class_form.specs.Resolution.{DeclaresField, DeclaresMethod, DeclaresInstance};
ghost use Rattle.class_form.specs.declared.class_file.ClassFile.{ClassFile};
ghost use Rattle.program_form.specs.Programs.{Program, DeclaresOnce};
ghost use Rattle.program_form.specs.Facts.{Variable, IsStaticVariable};
ghost use Rattle.program_form.specs.Tiny.{tiny_program};
ghost use Rattle.program_form.specs.Systems.{IsSystemOf, VariableNumber};
ghost use Rattle.dep_form.specs.declared.rules.Var.{Var};
ghost use Rattle.dep_form.specs.declared.rules.Spot.TheVariants.{Static};
ghost use Rattle.dep_form.specs.declared.system.System.{System};
ghost use Rattle.constraint_form.specs.Asked.{IsReadProgram};
ghost use Rattle.constraint_form.specs.ConstraintSystems.{IsConstraintSystem};

/// The constraints of a program say what its facts are: what has a derivation over the program has one over the constraints, by
/// numbers, and the other way round.
pub fn constraints_give_the_facts()
    ensures { (p : Program) (s : System) → IsReadProgram p → IsConstraintSystem p s → IsSystemOf p s }
{}

/// The least program is one that constraints can be made of, and has them: what is asked and what is said can be met.
pub fn the_least_program_has_constraints()
    ensures asked { IsReadProgram tiny_program }
    ensures made { (s : System) × IsConstraintSystem tiny_program s }
{}

/// A spot of a static variable, among what the statements touch, is of a static variable that the statement names.
pub fn static_spots_are_of_static_variables()
    ensures { (p : Program) (s : System) (t : Statement) (write : Bool) (x : Var) → IsConstraintSystem p s → Contains s.touches (record { place = t; write = write; spot = Static x }) → (v : Variable) × VariableNumber p s v x × IsStaticVariable p t v }
{}

/// Classes of which each is named as it should be declare each field and each method once: a part of what is asked of a program
/// holds of all class files that are well formed.
pub fn named_classes_declare_once()
    ensures fields { (classes : List ClassFile) (key : MemberKey) → All IsNamedClass classes → DeclaresOnce (DeclaresField classes key) }
    ensures methods { (classes : List ClassFile) (key : MemberKey) → All IsNamedClass classes → DeclaresOnce (DeclaresMethod classes key) }
    ensures selections { (classes : List ClassFile) (key : MemberKey) → All IsNamedClass classes → DeclaresOnce (DeclaresInstance classes key) }
{}
