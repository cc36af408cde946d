// What holds of reading and writing. Reading answers the class file that bytes spell, and writing the bytes that spell a class file.
ghost use Rattle.std.specs.Prelude.{◌≡◌, ℕ, List};
ghost use Rattle.byte_form.specs.Places.{IsBytes};
ghost use Rattle.class_form.specs.ClassRules.{Spells};
ghost use Rattle.class_form.specs.declared.class_file.ClassFile.{ClassFile};
ghost use Rattle.class_writer.specs.Spelled.{IsSpelled};

/// What is read can be written.
pub fn read_is_well_formed()
    ensures { (bytes : List ℕ) (read : ClassFile) → Spells bytes read → IsSpelled read }
{}

/// A class file that was read is written as the bytes that were read.
pub fn write_after_read()
    ensures { (bytes written : List ℕ) (read : ClassFile) → Spells bytes read → Spells written read → written ≡ bytes }
{}

/// What was written is read as the class file that was written.
pub fn read_after_write()
    ensures { (written : List ℕ) (class read : ClassFile) → IsBytes written → Spells written class → Spells written read → read ≡ class }
{}
