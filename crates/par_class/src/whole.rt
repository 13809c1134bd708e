ghost use Rattle.std.specs.Prelude.{◌≡◌, ℕ, ◌+◌, ◌<◌, ◌^◌, ◌++◌, length, OnOk, IfOk, IfSome, codes};
ghost use Rattle.std.specs.Prelude.{Some};
ghost use Rattle.std.specs.List.{All, flat_map};
ghost use Rattle.std.specs.Prelude.{List as Items};
ghost use Rattle.par_class.specs.Spelling as spelling;
ghost use Rattle.par_class.specs.Spelling.{counted, is_named, Spells};
ghost use Rattle.par_pool.specs.Spelling.{u2};
ghost use Rattle.par_class.specs.Writing.{IsSized, SizedCode, SizedField, SizedMethod, SizedFile};
ghost use Rattle.par_class.specs.Writing.{least_code, code_piece, pieces_of, method_laid};
ghost use Rattle.par_class.specs.Writing.{layout_of, parts, each_method, back_with};

use crate::file::{ClassFile, CodeAttr, MethodFile};
use crate::writer::{put_attributes, put_code_attribute, put_each, put_each_field};
use par_pool::constant::Constant;
use par_pool::par_base::memory::NoMemory;
use par_pool::writer::{put_pool, put_u2, put_u4};
use std::alloc::Global;

/// Whether a constant is the text `Code`.
fn is_code(constant: &Constant) -> bool
    ensures { result ≡ is_named (codes "Code") (Some constant.now) }
{
    match constant {
        Constant::Utf8(text) => text.as_slice() == b"Code".as_slice(),
        _ => false,
    }
}

/// The least index of a text `Code`, or the index behind the pool where there is none.
fn code_index(entries: &[Constant]) -> u16
    requires { length entries.now + 1 < 2 ^ 16 }
    ensures { result ≡ least_code entries.now }
{
    for (place, constant) in entries.iter().enumerate() {
        if is_code(constant) {
            return place as u16 + 1;
        }
    }
    entries.len() as u16 + 1
}

/// Puts the code of a method, if it has code.
fn put_code_of(
    alloc: Global,
    out: &mut Vec<u8>,
    name: u16,
    code: &Option<CodeAttr>,
) -> Result<(), NoMemory>
    requires { IfSome code.now SizedCode }
    ensures { OnOk result
        (out.new.items ≡ out.old.items ++ flat_map spelling.piece (code_piece name code.now)) }
{
    match code {
        Some(code) => put_code_attribute(alloc, out, name, code),
        None => Ok(()),
    }
}

/// The number of a method's attributes, with its code.
fn count_of(method: &MethodFile) -> u16
    requires { SizedMethod method.now }
    ensures { result ≡ length (pieces_of 0 method.now) }
{
    let others = method.attributes.len();
    match &method.code {
        Some(_) => (others + 1) as u16,
        None => others as u16,
    }
}

/// Puts the number of a method's attributes, its code and the others.
fn put_parts(
    alloc: Global,
    out: &mut Vec<u8>,
    name: u16,
    method: &MethodFile,
) -> Result<(), NoMemory>
    requires { SizedMethod method.now }
    ensures { OnOk result (out.new.items ≡ out.old.items ++ parts name method.now) }
{
    put_u2(out, count_of(method))?;
    put_code_of(alloc, out, name, &method.code)?;
    put_each(out, method.attributes.as_slice())
}

/// Puts the attributes of a method, its code first.
fn put_pieces(
    alloc: Global,
    out: &mut Vec<u8>,
    name: u16,
    method: &MethodFile,
) -> Result<(), NoMemory>
    requires { SizedMethod method.now }
    ensures { OnOk result
        (out.new.items ≡ out.old.items ++ counted spelling.piece (pieces_of name method.now)) }
{
    put_parts(alloc, out, name, method)
}

#[tactic(auto, unfolding(crate::specs::Spelling::method))]
fn put_method(
    alloc: Global,
    out: &mut Vec<u8>,
    name: u16,
    method: &MethodFile,
) -> Result<(), NoMemory>
    requires { SizedMethod method.now }
    ensures { OnOk result
        (out.new.items ≡ out.old.items ++ spelling.method (method_laid name method.now)) }
{
    put_u2(out, method.access)?;
    put_u2(out, method.name)?;
    put_u2(out, method.descriptor)?;
    put_pieces(alloc, out, name, method)
}

fn put_each_method(
    alloc: Global,
    out: &mut Vec<u8>,
    name: u16,
    methods: &[MethodFile],
) -> Result<(), NoMemory>
    requires { All SizedMethod methods.now }
    ensures { OnOk result
        (out.new.items ≡ out.old.items
        ++ flat_map (λ method. spelling.method (method_laid name method)) methods.now) }
{
    for method in methods {
        put_method(alloc, out, name, method)?;
    }
    Ok(())
}

/// Puts the number of methods, and these.
fn put_methods(
    alloc: Global,
    out: &mut Vec<u8>,
    name: u16,
    methods: &[MethodFile],
) -> Result<(), NoMemory>
    requires few { length methods.now < 2 ^ 16 }
    requires each { All SizedMethod methods.now }
    ensures { OnOk result (out.new.items ≡ out.old.items ++ each_method name methods.now) }
{
    put_u2(out, methods.len() as u16)?;
    put_each_method(alloc, out, name, methods)
}

/// Puts what stands in a class file behind its constant pool.
#[tactic(auto, unfolding(crate::specs::Writing::back_with))]
fn put_back(alloc: Global, out: &mut Vec<u8>, name: u16, file: &ClassFile) -> Result<(), NoMemory>
    requires { SizedFile file.now }
    ensures { OnOk result (out.new.items ≡ out.old.items ++ back_with name file.now) }
{
    put_u2(out, file.access)?;
    put_u2(out, file.this_class)?;
    put_u2(out, file.super_class)?;
    put_u2(out, 0)?;
    put_u2(out, file.fields.len() as u16)?;
    put_each_field(out, file.fields.as_slice())?;
    put_methods(alloc, out, name, file.methods.as_slice())?;
    put_attributes(out, file.attributes.as_slice())
}

/// Puts what stands in a class file up to and with its constant pool.
fn put_front(out: &mut Vec<u8>, file: &ClassFile) -> Result<(), NoMemory>
    requires { SizedFile file.now }
    ensures { OnOk result (out.new.items ≡ out.old.items ++ spelling.front (layout_of file.now)) }
{
    put_u4(out, 0xCAFE_BABE)?;
    put_u2(out, file.minor)?;
    put_u2(out, file.major)?;
    put_pool(out, file.pool.entries.as_slice())
}

/// The bytes of a file that is few enough to be written.
fn written(alloc: Global, file: &ClassFile) -> Result<Vec<u8>, NoMemory>
    requires { SizedFile file.now }
    ensures { IfOk result (λ bytes.
        bytes.items ≡ spelling.front (layout_of file.now)
        ++ back_with (least_code file.now.pool.entries) file.now) }
{
    let name = code_index(file.pool.entries.as_slice());
    let mut out = Vec::new(alloc);
    put_front(&mut out, file)?;
    put_back(alloc, &mut out, name, file)?;
    Ok(out)
}

/// Bytes that spell the file. Code comes first among the attributes of its method, under the least
/// index of a text `Code`.
pub fn write_class(alloc: Global, file: &ClassFile) -> Result<Vec<u8>, NoMemory>
    requires { (bytes : Items ℕ) × Spells bytes file.now }
    ensures spelled { IfOk result (λ bytes. Spells bytes.items file.now) }
    ensures laid { IfOk result (λ bytes. bytes.items ≡ spelling.layout (layout_of file.now)) }
{
    written(alloc, file)
}
