// Laws of the definitions. Nothing runs here.
ghost use Rattle.program_form.specs.Tiny.{tiny_program};
ghost use Rattle.signature_tables.specs.Programs.{IsOfClasses};

/// The least program is one of its classes: what is asked of a program can be met.
pub fn the_least_program_is_of_its_classes()
    ensures { IsOfClasses tiny_program.classes tiny_program }
{}
