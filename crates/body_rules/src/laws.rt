// What the rules of bodies say of the bytes of a class file.
ghost use Rattle.std.specs.Prelude.{◌≡◌, ℕ, List};
ghost use Rattle.class_form.specs.declared.class_file.ClassFile.{ClassFile};
ghost use Rattle.body_rules.specs.Methods.{IsSound};
ghost use Rattle.body_rules.specs.Refused.{Refuses};

/// Bytes are refused with one line at most.
pub fn one_line()
    ensures { (path bytes s t : List ℕ) → Refuses path bytes s → Refuses path bytes t → s ≡ t }
{}

/// Those of a class whose code all has bodies are refused with none.
pub fn sound_is_not_refused()
    ensures { (path bytes line : List ℕ) (c : ClassFile) → IsSound bytes c → Refuses path bytes line → ⊥ }
{}
