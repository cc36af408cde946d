// What holds of class files and their bytes, of instructions and the shape of code.
ghost use Rattle.std.specs.Prelude.{◌≡◌, ◌⊎◌, ◌<◌, ℕ, List, length};
ghost use Rattle.byte_form.specs.Places.{IsBytes};
ghost use Rattle.class_form.specs.declared.body.Instr.{Instr};
ghost use Rattle.class_form.specs.declared.body.Shape.{Shape};
ghost use Rattle.class_form.specs.declared.class_file.ClassFile.{ClassFile};
ghost use Rattle.class_form.specs.declared.class_file.CodeBody.{CodeBody};
ghost use Rattle.class_form.specs.declared.pool.Pool.{Pool};
ghost use Rattle.class_form.specs.ClassRules.{Spells};
ghost use Rattle.class_form.specs.FirstFaults.{ClassFault, IsFirstFault};
ghost use Rattle.class_form.specs.Instructions.{Instrs};
ghost use Rattle.class_form.specs.Reaching.{IsFlow};
ghost use Rattle.class_form.specs.Shapes.{AreArguments, AreInstrsOf, BreaksFirst, Shaped};

/// Bytes are those of one class file at most.
pub fn bytes_determine_class()
    ensures { (bytes : List ℕ) (c d : ClassFile) → IsBytes bytes → Spells bytes c → Spells bytes d → c ≡ d }
{}

/// A class file has one spelling at most.
pub fn class_determines_bytes()
    ensures { (a b : List ℕ) (c : ClassFile) → Spells a c → Spells b c → a ≡ b }
{}

/// Bytes are those of a class file, or have one first fault.
pub fn spelled_or_refused()
    ensures either { (bytes : List ℕ) → IsBytes bytes → ((c : ClassFile) × Spells bytes c) ⊎ ((f : ClassFault) × IsFirstFault bytes f) }
    ensures not_both { (bytes : List ℕ) (c : ClassFile) (f : ClassFault) → IsBytes bytes → Spells bytes c → IsFirstFault bytes f → ⊥ }
    ensures one { (bytes : List ℕ) (f g : ClassFault) → IsBytes bytes → IsFirstFault bytes f → IsFirstFault bytes g → f ≡ g }
{}

/// What is decoded follows one another from the start to the end.
pub fn instructions_follow()
    ensures { (code : List ℕ) (pool : Pool) (list : List Instr) → IsBytes code → 0 < length code → Instrs code pool list → AreInstrsOf (length code) list }
{}

/// The shape of code lets definitions be followed.
pub fn shapes_flow()
    ensures { (body : CodeBody) (instrs : List Instr) (arguments : List ℕ) (s : Shape) → AreInstrsOf (length body.code) instrs → AreArguments body arguments
        → Shaped body instrs arguments s → IsFlow s }
{}

/// A body with its instructions and arguments has one shape.
pub fn one_shape()
    ensures { (body : CodeBody) (instrs : List Instr) (arguments : List ℕ) (s t : Shape) → AreInstrsOf (length body.code) instrs → Shaped body instrs arguments s → Shaped body instrs arguments t → s ≡ t }
{}

/// It has one first fault, and only where it has no shape.
pub fn one_fault()
    ensures one { (body : CodeBody) (instrs : List Instr) (r p q n : ℕ) → BreaksFirst body instrs r p → BreaksFirst body instrs q n → (r ≡ q) × (p ≡ n) }
    ensures no_shape { (body : CodeBody) (instrs : List Instr) (arguments : List ℕ) (s : Shape) (rule pc : ℕ) → Shaped body instrs arguments s → BreaksFirst body instrs rule pc → ⊥ }
{}
