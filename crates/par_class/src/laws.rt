//! Laws of the spelling of class files. Each function does nothing: its contract is the law.

ghost use Rattle.std.specs.Prelude.{◌≡◌, ℕ};
ghost use Rattle.std.specs.Prelude.{List as Items};
ghost use Rattle.par_class.specs.declared.file.ClassFile.{ClassFile as File};
ghost use Rattle.par_class.specs.Spelling.{Spells, layout};
ghost use Rattle.par_class.specs.Writing.{layout_of};

/// Bytes spell at most one class file.
pub fn spelling_is_one()
    ensures { (bytes : Items ℕ) (one other : File) → Spells bytes one → Spells bytes other →
        one ≡ other }
{}

/// What was written is read again: the bytes that are written of a file that has a spelling spell
/// this file, and no other.
pub fn written_is_read_again()
    ensures { (bytes : Items ℕ) (file other : File) → Spells bytes file →
        Spells (layout (layout_of file)) other →
        other ≡ file }
{}
