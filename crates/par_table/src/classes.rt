//! The classes of a program.

ghost use Rattle.std.specs.Prelude.{◌≡◌, ◌≤◌, ◌<◌, ◌^◌, ◌+◌, length, unwrap_or, codes, IfOk};
ghost use Rattle.std.specs.List.{position, list_any};
ghost use Rattle.std.specs.Str.{bytes_eq};
ghost use Rattle.par_tree.specs.Shown as tree;
ghost use Rattle.par_tree.specs.Shown.{class_of};
ghost use Rattle.par_resolved.specs.declared.limits.TheConstants.{MOST_POLICIES};
ghost use Rattle.par_parts.specs.Gathered.{classes_of};
ghost use Rattle.par_resolved.specs.Resolved as info;
ghost use Rattle.par_table.specs.Room.{inferred_count, class_nodes, HaveRoom};
ghost use Rattle.par_table.specs.Seen.{resolved_seen};

use crate::fields::{channel_infos, field_infos, number_behind_all};
use crate::methods::method_infos;
use crate::resolved::Resolved;
use par_lexer::list::List;
use par_resolved::NoMemory;
use par_resolved::births::birth_policy;
use par_tree::decl::{ClassDecl, MethodDecl};
use par_typed::table::ClassInfo;
use std::alloc::Global;

// The number of the birth policy of a class.
fn birth_number(alloc: Global, resolved: &Resolved<'_>, decl: &ClassDecl) -> Result<u16, NoMemory>
    ensures { IfOk result (λ n.
        n ≡ (info.class_info (resolved_seen resolved.now) 0 0 (class_of decl.now)).birth) }
{
    let fields = decl.fields.as_slice();
    let birth = birth_policy(alloc, resolved.known, &decl.birth, fields)?;
    Ok(resolved.number_of(&birth))
}

// The class of this number, whose inferred fields have numbers from `next` on.
fn class_info(
    alloc: Global,
    resolved: &Resolved<'_>,
    class: u16,
    next: u16,
    decl: &ClassDecl,
) -> Result<ClassInfo, NoMemory>
    requires few_fields { next + inferred_count (class_of decl.now) ≤ MOST_POLICIES }
    requires few_nodes { class_nodes (class_of decl.now) < 2 ^ 32 }
    ensures { IfOk result (λ made. made
        ≡ info.class_info (resolved_seen resolved.now) class next (class_of decl.now)) }
{
    Ok(ClassInfo {
        name: decl.id.name.copy(alloc)?,
        at: decl.id.at,
        exception: decl.exception,
        birth: birth_number(alloc, resolved, decl)?,
        fields: field_infos(alloc, resolved, next, decl.fields.as_slice())?,
        channels: channel_infos(alloc, resolved, decl.channels.as_slice())?,
        methods: method_infos(alloc, resolved, class, decl.methods.as_slice())?,
    })
}

/// These classes, whose inferred fields have numbers from `first` on.
pub fn class_infos(
    alloc: Global,
    resolved: &Resolved<'_>,
    first: u16,
    decls: &[&ClassDecl],
) -> Result<List<ClassInfo>, NoMemory>
    requires { HaveRoom first (classes_of decls.now) }
    ensures { IfOk result (λ made. made
        ≡ info.class_infos (resolved_seen resolved.now) 0 first (classes_of decls.now)) }
{
    let mut made = List::new(alloc);
    let mut class = 0;
    let mut next = first;
    for decl in decls {
        made.push(class_info(alloc, resolved, class, next, decl)?)?;
        class += 1;
        next = number_behind_all(next, decl.fields.as_slice());
    }
    Ok(made)
}

// ---- main

fn is_main(method: &MethodDecl) -> bool
    ensures { result ≡ bytes_eq (tree.method method.now).id.name (codes "main") }
{
    method.id.name.bytes() == b"main".as_slice()
}

fn have_main(methods: &[MethodDecl]) -> bool
    ensures { result
        ≡ list_any (λ m. bytes_eq m.id.name (codes "main")) (tree.methods methods.now) }
{
    for method in methods {
        if is_main(method) {
            return true;
        }
    }
    false
}

fn has_main(class: &ClassDecl) -> bool
    ensures { result ≡ info.has_main (class_of class.now) }
{
    have_main(class.methods.as_slice())
}

fn main_place(classes: &[&ClassDecl]) -> Option<usize>
    ensures { result ≡ position info.has_main (classes_of classes.now) }
{
    for place in 0..classes.len() {
        if has_main(classes[place]) {
            return Some(place);
        }
    }
    None
}

/// The number of the first of these that has a method `main`.
pub fn main_number(classes: &[&ClassDecl]) -> u16
    requires { length classes.now ≤ 2 ^ 15 }
    ensures { result ≡ unwrap_or (position info.has_main (classes_of classes.now)) 0 }
{
    match main_place(classes) {
        None => 0,
        Some(place) => place as u16,
    }
}
