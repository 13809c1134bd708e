//! Names, and a name as text.

ghost use Rattle.std.specs.Prelude.{◌≡◌, ◌↔◌, IsTrue, IfOk};
ghost use Rattle.par_base.specs.Names.{IsName, is_name};

use crate::letters::is_spelled;
use crate::memory::NoMemory;
use std::alloc::Global;
use std::marker::Model;

/// What a program calls something by: 1 to 64 letters, digits and `_` of ASCII, of which the first
/// is no digit. Contracts see a name as its bytes.
#[derive(Drop)]
pub struct Name {
    text: Vec<u8>,
}

/// The most bytes that a name has.
pub const LONGEST: usize = 64;

impl Model for Name {
    ghost use Rattle.std.specs.Prelude.{List, ℕ};
    ghost use Rattle.par_base.specs.Names.{IsName};

    ghost Value = { List ℕ };

    ghost view = { λ name. name.text.items };

    ghost invariant = { λ name. IsName name.text.items };
}

impl Name {
    /// The name that these bytes spell.
    pub fn new(alloc: Global, bytes: &[u8]) -> Result<Name, NoMemory>
        requires { IsName bytes.now }
        ensures { IfOk result (λ name. name ≡ bytes.now) }
    {
        let text = bytes.to_vec(alloc)?;
        Ok(Name { text })
    }

    /// Whether these bytes spell a name.
    pub fn is_name(bytes: &[u8]) -> bool
        ensures named { IsTrue result ↔ IsName bytes.now }
        ensures test { result ≡ is_name bytes.now }
    {
        bytes.len() <= LONGEST && is_spelled(bytes)
    }

    /// A second name of the same bytes.
    pub fn copy(&self, alloc: Global) -> Result<Name, NoMemory>
        ensures { IfOk result (λ name. name ≡ self.now) }
    {
        let text = self.text.as_slice().to_vec(alloc)?;
        Ok(Name { text })
    }

    /// The bytes of the name.
    pub fn bytes(&self) -> &[u8]
        ensures bytes { result.now ≡ self.now }
        ensures spelled { IsName self.now }
    {
        self.text.as_slice()
    }
}

/// A name as text.
pub fn text_of(name: &[u8]) -> &str
    requires { IsName name.now }
    ensures { result.now ≡ name.now }
{
    match str::from_utf8(name) {
        Ok(text) => text,
        Err(_) => unreachable!(),
    }
}
