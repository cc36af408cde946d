// What holds of classes that were read. Nothing runs here.
ghost use Rattle.std.specs.Prelude.{ℕ, List, All};
ghost use Rattle.class_form.specs.Folders.{IsHierarchyOf};
ghost use Rattle.class_form.specs.declared.class_file.ClassFile.{ClassFile};
ghost use Rattle.acceptance.specs.Classes.{AreSound};
ghost use Rattle.class_loader.specs.Sound.{IsSoundClass};

/// The classes of files that are sound are sound, in the order of the files and in that of a hierarchy of them.
pub fn sound_files_have_sound_classes()
    ensures files { (contents : List (List ℕ)) (files : List ClassFile) → AreSound contents files → All IsSoundClass files }
    ensures hierarchy { (contents : List (List ℕ)) (files classes : List ClassFile) → AreSound contents files → IsHierarchyOf files classes → All IsSoundClass classes }
{}
