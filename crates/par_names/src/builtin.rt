//! The classes that every program has.

ghost use Rattle.std.specs.Prelude.{◌≡◌, map, IfOk};
ghost use Rattle.par_index.specs.par_base.Names.{IsName};
ghost use Rattle.par_tree.specs.Shown.{class_of};
ghost use Rattle.par_names.specs.Declarations.{builtin, builtins};

use par_index::par_base::list::List;
use par_index::par_base::memory::NoMemory;
use par_index::par_base::name::Name;
use par_tree::decl::ClassDecl;
use par_tree::ident::Ident;
use std::alloc::Global;

/// The classes that every program has before those that it declares: two exception classes.
pub fn builtin_classes(alloc: Global) -> Result<List<ClassDecl>, NoMemory>
    ensures { IfOk result (λ classes. map class_of classes ≡ builtins) }
{
    let mut classes = List::new(alloc);
    classes.push(exception(alloc, b"ArithmeticException")?)?;
    classes.push(exception(alloc, b"NullPointerException")?)?;
    Ok(classes)
}

// A class to be thrown, as if it were declared before the source.
fn exception(alloc: Global, name: &[u8]) -> Result<ClassDecl, NoMemory>
    requires { IsName name.now }
    ensures { IfOk result (λ class. class_of class ≡ builtin name.now) }
{
    let name = Name::new(alloc, name)?;
    Ok(ClassDecl {
        id: Ident { name, at: 0 },
        exception: true,
        birth: None,
        fields: List::new(alloc),
        channels: List::new(alloc),
        methods: List::new(alloc),
    })
}
