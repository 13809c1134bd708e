//! Laws of the class files of a program. Each function does nothing: its contract is the law.

ghost use Rattle.par_link_laws.specs.Laws.{BodiesNameMembers, FilesLink, PartsLink, FilesLoad};
ghost use Rattle.par_link_laws.specs.Laws.{NamedClassesAreLoaded};

/// The law that code names classes, fields and methods of the program where its body does.
pub fn bodies_name_members()
    ensures { BodiesNameMembers }
{}

/// The law that the class files of a program break no rule of linking.
pub fn files_link()
    ensures { FilesLink }
{}

/// The law that some of these files break none either, where each class that one of them names is
/// among them or one that every program has.
pub fn parts_link()
    ensures { PartsLink }
{}

/// The law that such files are loaded for the class with `main`, and that nothing is refused.
pub fn files_load()
    ensures { FilesLoad }
{}

/// The law that with a file that is loaded each class is loaded that its code names.
pub fn named_classes_are_loaded()
    ensures { NamedClassesAreLoaded }
{}
