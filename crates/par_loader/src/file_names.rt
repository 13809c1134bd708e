//! The names of the files of classes.

ghost use Rattle.std.specs.Prelude.{◌≡◌, IfOk, string_bytes};
ghost use Rattle.par_loader.specs.Reads.{class_file};

use std::alloc::{AllocError, Global};

/// The name of the file of a class.
pub fn class_file_name(alloc: Global, class: &str) -> Result<String, AllocError>
    ensures { IfOk result (λ name. string_bytes name ≡ class_file class.now) }
{
    format!(in alloc; "{class}.class")
}
