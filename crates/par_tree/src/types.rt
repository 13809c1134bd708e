use crate::ident::Ident;

/// A type as it is written. The numbers are places.
pub enum TypeTree {
    Int(u32),
    Boolean(u32),
    Class(Ident),
}

impl Drop for TypeTree {
    fn drop(self) {
        match self {
            TypeTree::Int(_) | TypeTree::Boolean(_) | TypeTree::Class(_) => {}
        }
    }
}
