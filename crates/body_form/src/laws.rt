// What holds of bodies.
ghost use Rattle.std.specs.Prelude.{◌≡◌, ◌⊎◌, ℕ};
ghost use Rattle.byte_form.specs.Places.{IsBytes};
ghost use Rattle.slicer_ids.specs.declared.ids.MethodId.{MethodId};
ghost use Rattle.class_form.specs.Classes.{HasCode};
ghost use Rattle.class_form.specs.ClassRules.{IsMethodMember};
ghost use Rattle.class_form.specs.Reaches.{IsReachOf};
ghost use Rattle.class_form.specs.declared.body.Body.{Body};
ghost use Rattle.class_form.specs.declared.body.Shape.{Shape};
ghost use Rattle.class_form.specs.declared.class_file.CodeBody.{CodeBody};
ghost use Rattle.class_form.specs.declared.class_file.Member.{Member};
ghost use Rattle.class_form.specs.declared.code_error.CodeError.{CodeError};
ghost use Rattle.class_form.specs.declared.pool.Pool.{Pool};
ghost use Rattle.class_form.specs.declared.reach.Reach.{Reach};
ghost use Rattle.body_form.specs.Bodies.{IsReadable, IsBodyOf, IsFirstFault};

/// The code of each method of a class file that keeps the rules can be read.
pub fn methods_are_readable()
    ensures { (p : Pool) (class_flags : ℕ) (m : Member) (code : CodeBody) → IsMethodMember p class_flags m → HasCode m code → IsReadable p m code }
{}

/// A shape has one table of definitions.
pub fn one_reach()
    ensures { (s : Shape) (a b : Reach) → IsReachOf s a → IsReachOf s b → a ≡ b }
{}

/// The code of a method has one body.
pub fn one_body()
    ensures { (p : Pool) (number : MethodId) (m : Member) (code : CodeBody) (a b : Body) → IsBytes code.code → IsReadable p m code
        → IsBodyOf p number m code a → IsBodyOf p number m code b → a ≡ b }
{}

/// It has one first fault, and only where it has no body.
pub fn one_fault()
    ensures one { (p : Pool) (code : CodeBody) (f g : CodeError) → IsFirstFault p code f → IsFirstFault p code g → f ≡ g }
    ensures no_body { (p : Pool) (number : MethodId) (m : Member) (code : CodeBody) (b : Body) (f : CodeError) → IsBodyOf p number m code b → IsFirstFault p code f → ⊥ }
{}
