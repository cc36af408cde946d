// What holds of programs whose bodies are those of their classes' code. Nothing runs here.
ghost use Rattle.std.specs.Prelude.{◌≡◌, ◌↔◌, ℕ, List, All};
ghost use Rattle.byte_form.specs.Places.{IsBytes};
ghost use Rattle.slicer_ids.specs.declared.ids.FieldId.{FieldId};
ghost use Rattle.slicer_ids.specs.declared.ids.MethodId.{MethodId};
ghost use Rattle.slicer_ids.specs.declared.ids.SiteId.{SiteId};
ghost use Rattle.slicer_ids.specs.declared.ids.Statement.{Statement};
ghost use Rattle.class_form.specs.ClassRules.{IsClassFile};
ghost use Rattle.class_form.specs.declared.body.Body.{Body};
ghost use Rattle.class_form.specs.declared.body.Instr.{Instr};
ghost use Rattle.dep_form.specs.declared.rules.Var.{Var};
ghost use Rattle.dep_form.specs.declared.system.System.{System};
ghost use Rattle.dep_form.specs.declared.effects.Location.{Location as SystemLocation};
ghost use Rattle.dep_form.specs.declared.effects.Location.TheVariants.{Cell, Static};
ghost use Rattle.dep_form.specs.Effects.{Mod as SystemMod, Ref as SystemRef, IsTraced as IsTracedBySystem};
ghost use Rattle.class_form.specs.declared.class_file.CodeBody.{CodeBody};
ghost use Rattle.program_form.specs.Programs.{Program, CodeOf};
ghost use Rattle.program_form.specs.Statements.{IsAt, HasOpcode};
ghost use Rattle.program_form.specs.Effects.{Location, IsTraced, Mod, Ref};
ghost use Rattle.program_form.specs.Systems.{IsSystemOf};
ghost use Rattle.program_code.specs.Codes.{IsProgramOfCode};
ghost use Rattle.program_code.specs.Locations.{LocationNumber, AreStaticsNamed};

/// Classes that keep the rules of class files, with their methods by number, have one list of bodies.
pub fn one_list_of_bodies()
    ensures { (p : Program) (bodies : List Body) → All IsClassFile p.classes → ((m : MethodId) (code : CodeBody) → CodeOf p m code → IsBytes code.code)
        → IsProgramOfCode p → IsProgramOfCode (record p { bodies = bodies }) → p.bodies ≡ bodies }
{}

/// A statement has one body and one instruction, and so one opcode.
pub fn one_instruction()
    ensures instruction { (p : Program) (s : Statement) (a b : Body) (i j : Instr) → IsProgramOfCode p → IsAt p s a i → IsAt p s b j → (a ≡ b) × (i ≡ j) }
    ensures opcode { (p : Program) (s : Statement) (x y : ℕ) → IsProgramOfCode p → HasOpcode p s (λ op. op ≡ x) → HasOpcode p s (λ op. op ≡ y) → x ≡ y }
{}

/// A method changes a location, or reads it, by a system of the program exactly where it does so in the program.
pub fn effects_are_those_of_the_program()
    ensures changed { (p : Program) (s : System) (m : MethodId) (l : Location) (x : SystemLocation) → IsProgramOfCode p → IsSystemOf p s → LocationNumber p s l x → Mod p m l ↔ SystemMod s m x }
    ensures used { (p : Program) (s : System) (m : MethodId) (l : Location) (x : SystemLocation) → IsProgramOfCode p → IsSystemOf p s → LocationNumber p s l x → Ref p m l ↔ SystemRef s m x }
{}

/// Each location that the program traces has a number in a system of it, and each cell of an object that the system traces is one of
/// the program; so is each static variable, where the system touches none but those that the program names.
pub fn locations_have_counterparts()
    ensures numbers { (p : Program) (s : System) (l : Location) → IsProgramOfCode p → IsSystemOf p s → IsTraced p l → (x : SystemLocation) × LocationNumber p s l x }
    ensures cells { (p : Program) (s : System) (n : SiteId) (g : FieldId) → IsProgramOfCode p → IsSystemOf p s → IsTracedBySystem s (Cell n g) → (l : Location) × LocationNumber p s l (Cell n g) }
    ensures statics { (p : Program) (s : System) (x : Var) → AreStaticsNamed p s → IsTracedBySystem s (Static x) → (l : Location) × LocationNumber p s l (Static x) }
{}

/// Some program with code has the bodies of its code, and a system: what the other laws ask can be met.
pub fn some_program_has_its_code()
    ensures { (p : Program) × (s : System) × IsProgramOfCode p × IsSystemOf p s × (m : MethodId) × (code : CodeBody) × CodeOf p m code }
{}
