use par_pool::constant::Pool;
use par_pool::par_base::list::List;

/// An attribute that is not looked into (Java Virtual Machine Specification, Java SE 7, section
/// 4.7). The name is the index of a text.
#[derive(Drop)]
pub struct Attribute {
    pub name: u16,
    pub bytes: List<u8>,
}

/// A handler of a method's code: the range that it covers, where it begins, and the index of the
/// class that it catches, or 0 where it catches all (section 4.7.3).
#[derive(Drop)]
pub struct Catch {
    pub start: u16,
    pub end: u16,
    pub handler: u16,
    pub class: u16,
}

/// A method's code (section 4.7.3).
pub struct CodeAttr {
    pub max_stack: u16,
    pub max_locals: u16,
    pub code: List<u8>,
    pub catches: List<Catch>,
    pub attributes: List<Attribute>,
}

impl Drop for CodeAttr {
    // In one place, for all that own one.
    fn drop(self) {
        let CodeAttr {
            max_stack: _,
            max_locals: _,
            code: _,
            catches: _,
            attributes: _,
        } = self;
    }
}

/// A field (section 4.5).
#[derive(Drop)]
pub struct FieldFile {
    pub access: u16,
    pub name: u16,
    pub descriptor: u16,
    pub attributes: List<Attribute>,
}

/// A method (section 4.6). Its code stands apart from its other attributes; a native method has
/// none.
pub struct MethodFile {
    pub access: u16,
    pub name: u16,
    pub descriptor: u16,
    pub code: Option<CodeAttr>,
    pub attributes: List<Attribute>,
}

impl Drop for MethodFile {
    // In one place, for all that own one.
    fn drop(self) {
        let MethodFile {
            access: _,
            name: _,
            descriptor: _,
            code: _,
            attributes: _,
        } = self;
    }
}

/// A class file (section 4.1).
pub struct ClassFile {
    pub minor: u16,
    pub major: u16,
    pub pool: Pool,
    pub access: u16,
    pub this_class: u16,
    pub super_class: u16,
    pub fields: List<FieldFile>,
    pub methods: List<MethodFile>,
    pub attributes: List<Attribute>,
}

impl Drop for ClassFile {
    // In one place, for all that own one.
    fn drop(self) {
        let ClassFile {
            minor: _,
            major: _,
            pool: _,
            access: _,
            this_class: _,
            super_class: _,
            fields: _,
            methods: _,
            attributes: _,
        } = self;
    }
}

/// An attribute of a method, in the order of the file.
#[derive(Drop)]
pub enum Piece {
    /// One that is not looked into.
    Plain(Attribute),
    /// The method's code, under the index of a text `Code`.
    Code(u16, CodeAttr),
}
