//! Policies for the inferred fields of a program that is handed over.

ghost use Rattle.std.specs.Prelude.{◌≤◌, IfOk, IfErr, length};
ghost use Rattle.std.specs.List.{AllByRecursion};
ghost use Rattle.par_program_laws.specs.WellDeclared.{HasFewFields, IsWellDeclared};
ghost use Rattle.par_typed.specs.Shown as shown;
ghost use Rattle.par_program_laws.specs.Orderly.{IsOrderlyBody};
ghost use Rattle.par_infer.specs.Inferred.{IsInferred, IsRefused};

use crate::error::InferError;
use crate::filling::Filling;
use crate::solve::infer_fields;
use par_typed::program::Typed;
use std::alloc::Global;

/// The least policies for the inferred fields of a program, as `infer_fields` finds them. The
/// program is dropped.
pub fn infer(alloc: Global, typed: Typed) -> Result<Filling, InferError>
    requires policies { length typed.table.policies ≤ 256 }
    requires classes { length typed.table.classes ≤ 65536 }
    requires fields { AllByRecursion HasFewFields typed.table.classes }
    requires orderly { AllByRecursion (IsOrderlyBody typed.table) (shown.bodies typed.bodies) }
    requires declared { IsWellDeclared typed.table }
    ensures filled { IfOk result (λ filling. IsInferred typed filling.fields) }
    ensures refused { IfErr result (IsRefused typed) }
{
    infer_fields(alloc, &typed)
}
