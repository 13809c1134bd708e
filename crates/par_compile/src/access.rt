//! The access flags of classes, fields and methods (Java Virtual Machine Specification, Java SE 7,
//! tables 4.1-A, 4.5-A and 4.6-A).

ghost use Rattle.std.specs.Prelude.{◌≡◌};
ghost use Rattle.par_compile_laws.specs.Members as members;

/// Of a class: public, final, and with the newer meaning of `invokespecial`.
pub const CLASS: u16 = 0x0031;
/// Of a channel: public, static and native.
pub const CHANNEL: u16 = 0x0109;
/// Of a field or a method of an instance: public.
pub const PUBLIC: u16 = 0x0001;
/// Of a static field or method: public and static.
pub const PUBLIC_STATIC: u16 = 0x0009;

/// The flags of a field or a method.
pub fn member_access(is_static: bool) -> u16
    ensures { result ≡ members.member_access is_static }
{
    if is_static { PUBLIC_STATIC } else { PUBLIC }
}
