// Calls that are refused, since what they call can't be read off the class files.
ghost use Rattle.std.specs.Prelude.{◌≡◌, ◌↔◌, ℕ, Some, IfSome, IsTrue, codes};
ghost use Rattle.dep_form.specs.Outside.{IsReflection};

/// The number of the reflection rule that refuses a call of a method of this name of an outside class of this name; none
/// where the call is no reflection.
///
/// The numbers are 1 for `Class.forName`, 2 for `Class.newInstance`, 3 and 4 for any method of a class of
/// `java.lang.reflect` and of `java.lang.invoke`.
pub fn refused_call(class: &[u8], name: &[u8]) -> Option<u8>
    ensures found { IfSome result (IsReflection class.now name.now) }
    ensures only { (n : ℕ) → IsReflection class.now name.now n → result ≡ Some n }
{
    if is_method_of_class(class, name, b"forName") {
        return Some(1);
    }
    if is_method_of_class(class, name, b"newInstance") {
        return Some(2);
    }
    if class.starts_with(b"java/lang/reflect/") {
        return Some(3);
    }
    if class.starts_with(b"java/lang/invoke/") {
        return Some(4);
    }
    None
}

// Whether the two names are those of a method of `java.lang.Class`.
fn is_method_of_class(class: &[u8], name: &[u8], method: &[u8]) -> bool
    ensures { IsTrue result ↔ ((class.now ≡ codes "java/lang/Class") × (name.now ≡ method.now)) }
{
    class == b"java/lang/Class".as_slice() && name == method
}
