// What programs of code have, where their class files keep the rules. Nothing runs here.
ghost use Rattle.std.specs.Prelude.{◌≡◌, ℕ, true, List, All, Contains, codes};
ghost use Rattle.slicer_ids.specs.declared.ids.MethodId.{MethodId};
ghost use Rattle.slicer_ids.specs.declared.ids.Statement.{Statement};
ghost use Rattle.class_form.specs.Opcodes.{IsCall};
ghost use Rattle.class_form.specs.Classes.{Declared, IsStatic};
ghost use Rattle.class_form.specs.Pools.{MemberKey};
ghost use Rattle.class_form.specs.ClassRules.{IsClassFile};
ghost use Rattle.class_form.specs.Numbers.{IsNamedClass};
ghost use Rattle.class_form.specs.Resolution.{DeclaresField, DeclaresMethod};
ghost use Rattle.class_form.specs.declared.class_file.ClassFile.{ClassFile};
ghost use Rattle.class_form.specs.declared.class_file.Member.{Member};
ghost use Rattle.class_form.specs.declared.types.MethodType.{MethodType};
ghost use Rattle.dep_form.specs.declared.rules.Entry.{Entry};
ghost use Rattle.program_form.specs.Programs.{Program, IsProgram, MethodOf, HasFormal, DeclaresOnce};
ghost use Rattle.program_form.specs.Statements.{HasOpcode, CallType};
ghost use Rattle.program_form.specs.Tiny.{tiny_program};
ghost use Rattle.program_code.specs.Codes.{IsProgramOfCode};
ghost use Rattle.constraint_form.specs.Asked.{IsReadProgram};

use constraint_form::laws::named_classes_declare_once;

/// A class file that keeps the rules has what numbering asks of it: a name, members with names and descriptors, no two alike.
pub fn class_files_are_named()
    ensures { (k : ClassFile) → IsClassFile k → IsNamedClass k }
{}

/// A program whose bodies are those of its classes' code, of class files that keep the rules, has all that is asked of a program
/// before its constraints are made. Of its entries it is asked besides that one which is given an argument has one. No class of it
/// declares two fields, or two methods, of one name and descriptor.
pub fn programs_of_code_are_read()
    ensures read { (p : Program) → IsProgramOfCode p → All IsClassFile p.classes → ((e : Entry) → Contains p.entries e → e.arguments ≡ true → HasFormal p e.method 0) → IsReadProgram p }
    ensures fields { (p : Program) (key : MemberKey) → All IsClassFile p.classes → DeclaresOnce (DeclaresField p.classes key) }
    ensures methods { (p : Program) (key : MemberKey) → All IsClassFile p.classes → DeclaresOnce (DeclaresMethod p.classes key) }
{
    named_classes_declare_once();
}

/// Each call of such a program names a method with a type. So the constraints of a program of code never want for that of a call.
pub fn calls_have_types()
    ensures { (p : Program) (t : Statement) → IsProgramOfCode p → All IsClassFile p.classes → HasOpcode p t IsCall → (m : MethodType) × CallType p t m }
{}

/// A static method that takes an array of strings has an argument to be given. So the entries of a folder have what is asked of them.
pub fn mains_have_an_argument()
    ensures { (p : Program) (m : MethodId) (d : Declared) (x : Member) (name : List ℕ) → MethodOf p m d x name (codes "([Ljava/lang/String;)V") → IsStatic x.flags → HasFormal p m 0 }
{}

/// A program whose bodies are those of its classes' code is a program: one body for each method with code, in order of method.
pub fn programs_of_code_are_programs()
    ensures { (p : Program) → IsProgramOfCode p → IsProgram p }
{}

/// The least program is one of code, of class files that keep the rules, and its entry has the argument that it is given: what the
/// other laws ask can be met.
pub fn the_least_program_can_be_read()
    ensures code { IsProgramOfCode tiny_program }
    ensures files { All IsClassFile tiny_program.classes }
    ensures entries { (e : Entry) → Contains tiny_program.entries e → e.arguments ≡ true → HasFormal tiny_program e.method 0 }
{}
