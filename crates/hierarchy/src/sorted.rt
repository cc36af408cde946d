// Class files in the order of their names.
ghost use Rattle.std.specs.Prelude.{◌≡◌, ◌↔◌, ◌<◌, ◌^◌, [], length, All, IsTrue, MatchOption, unwrap_or, IsPermutation, IsSortedBy};
ghost use Rattle.std.specs.Ordering.{nat_cmp};
ghost use Rattle.std.specs.Cmp.Lexicographic.{slice_cmp};
ghost use Rattle.class_form.specs.Classes.{class_name, AreInOrder, IsNamed, IsOutside};
ghost use Rattle.class_form.specs.Numbers.{IsNamedClass};
ghost use Rattle.class_form.specs.Folders.{StandsTwice, IsLeastName};
ghost use Rattle.hierarchy.specs.Names.{name_bytes, IsByName};

use class_form::class_file::ClassFile;
use std::cmp::Ordering;

// The name of a class.
pub fn name_of(class: &ClassFile) -> &[u8]
    ensures { result.now ≡ name_bytes class.now }
{
    match class.pool.class(class.this_class) {
        Some(name) => name,
        None => &[],
    }
}

// The order of two classes.
fn compare(a: &ClassFile, b: &ClassFile) -> Ordering
    ensures { result ≡ slice_cmp nat_cmp (name_bytes a.now) (name_bytes b.now) }
{
    name_of(a).cmp(name_of(b))
}

// The order of a class and a name.
fn compare_to(class: &ClassFile, name: &[u8]) -> Ordering
    ensures { result ≡ slice_cmp nat_cmp (name_bytes class.now) name.now }
{
    name_of(class).cmp(name)
}

// Puts classes in the order of their names.
pub fn sort_classes(classes: &mut [ClassFile])
    ensures same { IsPermutation classes.old classes.new }
    ensures sorted { IsByName classes.new }
{
    classes.sort_unstable_by(|a, b| compare(a, b));
}

// Whether two classes have one name.
fn have_one_name(a: &ClassFile, b: &ClassFile) -> bool
    ensures { IsTrue result ↔ (name_bytes a.now ≡ name_bytes b.now) }
{
    name_of(a) == name_of(b)
}

// The first name that stands twice among classes in the order of their names; none where each name stands once.
pub fn find_twice(classes: &[ClassFile]) -> Option<&[u8]>
    requires named { All IsNamedClass classes.now }
    requires sorted { IsByName classes.now }
    ensures { MatchOption result (AreInOrder classes.now) (λ name. IsLeastName (StandsTwice classes.now) name.now) }
{
    for i in 1..classes.len() {
        let class = &classes[i];
        if have_one_name(&classes[i - 1], class) {
            return Some(name_of(class));
        }
    }
    None
}

// The class of this name among classes in the order of their names; none where no class has it.
pub fn find_class(classes: &[ClassFile], name: &[u8]) -> Option<u32>
    requires few { length classes.now < 2 ^ 32 }
    requires named { All IsNamedClass classes.now }
    requires sorted { IsByName classes.now }
    ensures { MatchOption result (IsOutside classes.now name.now) (λ c. IsNamed classes.now name.now c) }
{
    match classes.binary_search_by(|class| compare_to(class, name)) {
        Ok(i) => Some(i as u32),
        Err(_) => None,
    }
}
