//! What the numbers of a plain program are called in class files.

ghost use Rattle.std.specs.Prelude.{◌≡◌, ◌+◌, ◌++◌, IfOk, OnOk, Some, slice_get, map, codes};
ghost use Rattle.par_code_form.specs.Code.{initializer};
ghost use Rattle.par_code_form.specs.Named.{words_of, class_word, descriptor, descriptors};
ghost use Rattle.par_code_form.specs.Named.{method_descriptor};
ghost use Rattle.par_erase.specs.Shown.{param_info, method_info, table_of, inputs_of};

use par_base::list::List;
use par_base::memory::NoMemory;
use par_base::name::Name;
use par_code_form::Item;
use par_code_form::opcode::{INVOKESPECIAL, INVOKESTATIC};
use par_erase::{Plain, PlainClass, PlainMethod};
use par_typed::ty::Ty;
use std::alloc::Global;

// The class of this number. A plain program has each class that it names, and each member.
fn class_at(plain: &Plain, class: u16) -> Result<&PlainClass, NoMemory>
    ensures { IfOk result (λ k. slice_get plain.now.classes class ≡ Some k.now) }
{
    match plain.classes.get(usize::from(class)) {
        None => Err(NoMemory),
        Some(class) => Ok(class),
    }
}

/// The name of a class.
#[tactic(auto, using(crate::proofs::Names::names))]
pub fn class_name(alloc: Global, plain: &Plain, class: u16) -> Result<Name, NoMemory>
    ensures { IfOk result (λ name. name ≡ class_word (table_of plain.now) class) }
{
    let class = class_at(plain, class)?;
    class.name.copy(alloc)
}

fn text(alloc: Global, bytes: &[u8]) -> Result<List<u8>, NoMemory>
    ensures { IfOk result (λ text. text ≡ bytes.now) }
{
    let bytes = bytes.to_vec(alloc)?;
    Ok(List::wrap(bytes))
}

#[tactic(auto, using(crate::proofs::Names::names))]
fn push_type(alloc: Global, plain: &Plain, ty: Ty, found: &mut Vec<u8>) -> Result<(), NoMemory>
    ensures { OnOk result (found.new.items
        ≡ found.old.items ++ descriptor (table_of plain.now) ty) }
{
    match ty {
        Ty::Int => found.push(b'I')?,
        Ty::Boolean => found.push(b'Z')?,
        Ty::Class(class) => {
            let name = class_name(alloc, plain, class)?;
            found.push(b'L')?;
            found.extend_from_slice(name.bytes())?;
            found.push(b';')?;
        }
        Ty::Null => {}
        Ty::Void => found.push(b'V')?,
    }
    Ok(())
}

#[tactic(auto, using(crate::proofs::Names::names))]
fn push_types(
    alloc: Global,
    plain: &Plain,
    types: &[Ty],
    found: &mut Vec<u8>,
) -> Result<(), NoMemory>
    ensures { OnOk result (found.new.items
        ≡ found.old.items ++ descriptors (table_of plain.now) (map param_info types.now)) }
{
    match types {
        [] => Ok(()),
        [first, rest @ ..] => {
            push_type(alloc, plain, *first, found)?;
            push_types(alloc, plain, rest, found)
        }
    }
}

/// The descriptor of a field of this type.
pub fn type_text(alloc: Global, plain: &Plain, ty: Ty) -> Result<List<u8>, NoMemory>
    ensures { IfOk result (λ text. text ≡ descriptor (table_of plain.now) ty) }
{
    let mut found = Vec::new(alloc);
    push_type(alloc, plain, ty, &mut found)?;
    Ok(List::wrap(found))
}

/// The descriptor of a method.
#[tactic(auto, using(crate::proofs::Names::names))]
pub fn method_text(alloc: Global, plain: &Plain, method: &PlainMethod) -> Result<List<u8>, NoMemory>
    ensures { IfOk result (λ text.
        text ≡ method_descriptor (table_of plain.now) (method_info method.now)) }
{
    let mut found = Vec::new(alloc);
    found.push(b'(')?;
    push_types(alloc, plain, method.params.as_slice(), &mut found)?;
    found.push(b')')?;
    push_type(alloc, plain, method.result, &mut found)?;
    Ok(List::wrap(found))
}

// An instruction of this opcode on a member.
fn member_item(
    alloc: Global,
    opcode: u8,
    owner: &Name,
    name: &[u8],
    descriptor: List<u8>,
) -> Result<Item, NoMemory>
    ensures { IfOk result (λ item.
        item ≡ Item.Member opcode owner.now name.now descriptor) }
{
    let owner = owner.copy(alloc)?;
    let name = text(alloc, name)?;
    Ok(Item::Member(opcode, owner, name, descriptor))
}

/// An instruction on a field.
#[tactic(auto, using(crate::proofs::Names::names))]
pub fn field_item(
    alloc: Global,
    plain: &Plain,
    opcode: u8,
    class: u16,
    field: u16,
) -> Result<Item, NoMemory>
    ensures { IfOk result (λ item. let w = words_of (table_of plain.now) in
        item ≡ Item.Member opcode (w.class class) (w.field class field)
        (w.field_type class field)) }
{
    let class = class_at(plain, class)?;
    match class.fields.get(usize::from(field)) {
        None => Err(NoMemory),
        Some(field) => {
            let descriptor = type_text(alloc, plain, field.ty)?;
            let name = field.name.bytes();
            let item = member_item(alloc, opcode, &class.name, name, descriptor)?;
            Ok(item)
        }
    }
}

/// A call of a method, by the opcode.
#[tactic(auto, using(crate::proofs::Names::names))]
pub fn method_item(
    alloc: Global,
    plain: &Plain,
    opcode: u8,
    class: u16,
    method: u16,
) -> Result<Item, NoMemory>
    ensures { IfOk result (λ item. let w = words_of (table_of plain.now) in
        item ≡ Item.Member opcode (w.class class) (w.method class method)
        (w.method_type class method)) }
{
    let class = class_at(plain, class)?;
    match class.methods.get(usize::from(method)) {
        None => Err(NoMemory),
        Some(method) => {
            let descriptor = method_text(alloc, plain, method)?;
            let name = method.name.bytes();
            let item = member_item(alloc, opcode, &class.name, name, descriptor)?;
            Ok(item)
        }
    }
}

/// The call of an input channel, by its place among the inputs.
#[tactic(auto, using(crate::proofs::Names::names))]
pub fn input_item(alloc: Global, plain: &Plain, class: u16, place: u16) -> Result<Item, NoMemory>
    ensures { IfOk result (λ item. let w = words_of (table_of plain.now) in
        item ≡ Item.Member INVOKESTATIC (w.class class) (w.channel class place) (codes "()I")) }
{
    let class = class_at(plain, class)?;
    match class.inputs.get(usize::from(place)) {
        None => Err(NoMemory),
        Some(channel) => {
            let descriptor = text(alloc, b"()I")?;
            let name = channel.bytes();
            let item = member_item(alloc, INVOKESTATIC, &class.name, name, descriptor)?;
            Ok(item)
        }
    }
}

/// The call of an output channel, by its place among the outputs.
#[tactic(auto, using(crate::proofs::Names::names))]
pub fn output_item(alloc: Global, plain: &Plain, class: u16, place: u16) -> Result<Item, NoMemory>
    ensures { IfOk result (λ item. let w = words_of (table_of plain.now) in
        item ≡ Item.Member INVOKESTATIC (w.class class)
        (w.channel class (inputs_of plain.now class + place)) (codes "(I)V")) }
{
    let class = class_at(plain, class)?;
    match class.outputs.get(usize::from(place)) {
        None => Err(NoMemory),
        Some(channel) => {
            let descriptor = text(alloc, b"(I)V")?;
            let name = channel.bytes();
            let item = member_item(alloc, INVOKESTATIC, &class.name, name, descriptor)?;
            Ok(item)
        }
    }
}

/// The call of the initializer of a class.
fn initializer_item(alloc: Global, class: &Name) -> Result<Item, NoMemory>
    ensures { IfOk result (λ item. item ≡ initializer class.now) }
{
    let descriptor = text(alloc, b"()V")?;
    member_item(alloc, INVOKESPECIAL, class, b"<init>", descriptor)
}

/// The call of the initializer of the class of this number.
pub fn class_initializer(alloc: Global, plain: &Plain, class: u16) -> Result<Item, NoMemory>
    ensures { IfOk result (λ item. item ≡ initializer (class_word (table_of plain.now) class)) }
{
    let name = class_name(alloc, plain, class)?;
    let item = initializer_item(alloc, &name);
    drop(name);
    item
}
