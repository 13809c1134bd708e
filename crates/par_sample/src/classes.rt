//! The lines of a class.

ghost use Rattle.std.specs.Prelude.{◌≡◌, ℕ, ◌+◌, ◌*◌, ◌++◌, IfOk, OnOk, string_bytes};
ghost use Rattle.std.specs.List.{flat_map};
ghost use Rattle.par_sample.specs.Numbers.{next, number, drawn_of};
ghost use Rattle.par_sample.specs.Source.{line, method_text, class_text, class_lines, method_count};

use crate::numbers::Numbers;
use par_lexer::memory::NoMemory;
use std::alloc::{AllocError, Global};

const METHODS: u32 = 10;

/// Adds a line, with its end.
fn add_line(text: &mut String, added: &str) -> Result<(), NoMemory>
    ensures { OnOk result (string_bytes text.new ≡ string_bytes text.old ++ line added.now) }
{
    text.push_str(added)?;
    text.push('\n')?;
    Ok(())
}

/// The first line of a class of this number.
#[tactic(auto, unfolding(crate::specs::Source::class_text))]
fn first_line(alloc: Global, class: u32) -> Result<String, AllocError>
    ensures { IfOk result (λ text. string_bytes text ≡ class_text class) }
{
    format!(in alloc; "class G{class} {{")
}

/// The line of a method of this number, with its three numbers.
#[tactic(auto, unfolding(crate::specs::Source::method_text))]
fn method_line(
    alloc: Global,
    method: u32,
    added: u64,
    bound: u64,
    less: u64,
) -> Result<String, AllocError>
    ensures { IfOk result (λ text. string_bytes text ≡ method_text method added bound less) }
{
    format!(in alloc;
        "?{{alice:; bob: Paid}} static int m{method}(?{{alice:; bob: Paid}} int a) !top \
         {{ int b = a + {added}; while (b > {bound}) {{ b = b - {less}; }} return b; }}"
    )
}

/// Adds the line of a method of this number, which draws three numbers.
fn add_method(
    alloc: Global,
    text: &mut String,
    method: u32,
    numbers: &mut Numbers,
) -> Result<(), NoMemory>
    ensures numbers { numbers.new.last ≡ next (next (next numbers.old.last)) }
    ensures text { OnOk result (string_bytes text.new ≡ string_bytes text.old
        ++ line (method_text method (drawn_of (next numbers.old.last))
        (drawn_of (next (next numbers.old.last)))
        (drawn_of (next (next (next numbers.old.last))) + 1))) }
{
    let added = numbers.draw();
    let bound = numbers.draw();
    let less = numbers.draw() + 1;
    add_line(
        text,
        method_line(alloc, method, added, bound, less)?.as_str(),
    )
}

/// Adds the lines of a class of this number. Each of its methods draws three numbers.
pub(crate) fn add_class(
    alloc: Global,
    text: &mut String,
    class: u32,
    numbers: &mut Numbers,
) -> Result<(), NoMemory>
    ensures numbers { (first : ℕ) → numbers.old.last ≡ number first (3 * (method_count * class))
        → OnOk result (numbers.new.last ≡ number first (3 * (method_count * (class + 1)))) }
    ensures text { (first : ℕ) → numbers.old.last ≡ number first (3 * (method_count * class))
        → OnOk result (string_bytes text.new
        ≡ string_bytes text.old ++ flat_map line (class_lines first class)) }
{
    add_line(text, first_line(alloc, class)?.as_str())?;
    for method in 0..METHODS {
        add_method(alloc, text, method, numbers)?;
    }
    add_line(text, "}")
}
