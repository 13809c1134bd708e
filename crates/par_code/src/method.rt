//! The code of a method.

ghost use Rattle.std.specs.Prelude.{◌≡◌, Some, IfOk, take};
ghost use Rattle.par_code_form.specs.Method.{set_by_call, first_scope, labelled};
ghost use Rattle.par_code_form.specs.Named.{words_of};
ghost use Rattle.par_erase.specs.Shown.{does, method_info, table_of, inputs_of};
ghost use Rattle.par_code.specs.Codes.{code_at};

use crate::draft::{Draft, slots};
use crate::stmts::{Targets, put_stmt};
use crate::ways::completes;
use par_base::memory::NoMemory;
use par_code_form::Labelled;
use par_erase::{Plain, PlainMethod};
use par_typed::ty::Ty;
use std::alloc::Global;

/// A body stands in no loop.
const NO_LOOP: Targets = Targets { out: 0, again: 0 };

// The types of the locals that a call sets: the receiver, where there is one, and the arguments.
#[tactic(auto, using(crate::proofs::Methods::calls))]
fn set_by_call(method: &PlainMethod) -> &[Ty]
    ensures { result.now ≡ take (set_by_call (method_info method.now)) method.now.locals }
{
    let params = method.params.as_slice().len();
    let count = if method.is_static { params } else { params + 1 };
    let locals = method.locals.as_slice();
    match locals.get(..count) {
        None => locals,
        Some(set) => set,
    }
}

// The locals in scope where a body begins.
#[tactic(auto, using(crate::proofs::Methods::calls))]
fn first_scope(alloc: Global, method: &PlainMethod) -> Result<Vec<Ty>, NoMemory>
    ensures { IfOk result (λ v. v.items ≡ first_scope (method_info method.now)) }
{
    let mut scope = set_by_call(method).to_vec(alloc)?;
    scope.resize(method.locals.len(), Ty::Void)?;
    Ok(scope)
}

/// The code of a method of the program.
#[tactic(auto, using(crate::proofs::Methods::calls))]
pub fn method_code(alloc: Global, plain: &Plain, method: &PlainMethod) -> Result<Labelled, NoMemory>
    ensures { IfOk result (λ code. code ≡ labelled (words_of (table_of plain.now))
        (method_info method.now) (does (inputs_of plain.now) method.now.body)) }
{
    let declared = method.locals.as_slice();
    let Ok(max_locals) = u16::try_from(declared.len()) else {
        return Err(NoMemory);
    };
    let start = slots(alloc, plain, set_by_call(method))?;
    let scope = first_scope(alloc, method)?;
    let mut draft = Draft::new(alloc);
    let body = &method.body;
    put_stmt(
        alloc,
        plain,
        declared,
        scope.as_slice(),
        NO_LOOP,
        body,
        &mut draft,
    )?;
    draft.end_if(completes(body))?;
    Ok(Labelled {
        items: draft.items,
        handlers: draft.handlers,
        max_stack: draft.most,
        max_locals,
        start,
        frames: draft.frames,
    })
}

/// The code of the method of this number, of the class of this number. A plain program has each
/// class and each method that is asked for.
pub fn code_of(alloc: Global, plain: &Plain, class: u16, method: u16) -> Result<Labelled, NoMemory>
    ensures { IfOk result (λ code. code_at plain.now class method ≡ Some code) }
{
    let Some(owner) = plain.classes.get(usize::from(class)) else {
        return Err(NoMemory);
    };
    match owner.methods.get(usize::from(method)) {
        None => Err(NoMemory),
        Some(method) => method_code(alloc, plain, method),
    }
}
