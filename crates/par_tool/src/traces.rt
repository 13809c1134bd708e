//! What is done to tell of the run of a source: the source is read and judged, its inputs are read,
//! and the run is made.

ghost use Rattle.std.specs.Prelude.{◌≡◌, IsTrue, IfOk, IfErr, OnOk};
ghost use Rattle.par_io.specs.Causes.{Makes, NoneFalls};
ghost use Rattle.par_values.specs.declared.inputs.Inputs.{Inputs as Lists};
ghost use Rattle.par_run_laws.specs.Source.{source};
ghost use Rattle.par_meaning.specs.Whole.{as_run};
ghost use Rattle.par_trace.specs.Channels.{first_misfit};
ghost use Rattle.par_tool.specs.Failures.{IsFailure, FaultsAreTold};
ghost use Rattle.par_tool.specs.Given.{AreInputs, IsUngiven};
ghost use Rattle.par_tool.specs.Traces.{IsTraced, LacksMemory, Untraced};

use crate::input_file::{InputFile, bad_entry, input_file};
use crate::reads::Failure;
use crate::sources::program_source;
use par_io::Folder;
use par_meaning::{SourceRun, run_source};
use par_trace::inputs_fit;
use par_typed::program::Typed;
use par_typed::table::Table;
use par_values::inputs::Inputs;
use std::alloc::Global;

/// The program of an accepted source, and a run of it.
pub struct Traced {
    pub typed: Typed,
    pub run: SourceRun,
}

// Written out, so that what owns one is proved without its parts.
impl Drop for Traced {
    fn drop(self) {
        let Traced { typed: _, run: _ } = self;
    }
}

/// The inputs in an input file, all of which the program has channels for.
fn inputs<F: Folder>(
    alloc: Global,
    folder: &mut F,
    table: &Table,
    name: &str,
) -> Result<Inputs, Failure>
    ensures kept { F.files folder.new ≡ F.files folder.old }
    ensures counted { Makes 1 0 (F.counts folder.old) (F.counts folder.new) }
    ensures none_falls { NoneFalls (F.counts folder.old) (F.counts folder.new) }
    ensures faults_are_told { IsTrue F.counts_faults_alone →
        FaultsAreTold result (F.counts folder.old).faults (F.counts folder.new).faults }
    ensures given { IfOk result (AreInputs (first_misfit table.now) (F.files folder.old) name.now) }
    ensures failed { IfErr result (IsFailure (IsUngiven (first_misfit table.now)
        (F.files folder.old) (F.counts folder.old) (F.counts folder.new) name.now)) }
{
    let InputFile { text, inputs } = input_file(alloc, folder, name)?;
    match inputs_fit(alloc, table, &inputs)? {
        None => Ok(inputs),
        Some(place) => Err(bad_entry(text.as_slice(), place)),
    }
}

/// The run of a program on the inputs in an input file, with at most so many steps.
fn run_on<F: Folder>(
    alloc: Global,
    folder: &mut F,
    typed: &Typed,
    name: &str,
    bound: u32,
) -> Result<SourceRun, Failure>
    ensures kept { F.files folder.new ≡ F.files folder.old }
    ensures counted { Makes 1 0 (F.counts folder.old) (F.counts folder.new) }
    ensures faults_are_told { IsTrue F.counts_faults_alone →
        FaultsAreTold result (F.counts folder.old).faults (F.counts folder.new).faults }
    ensures ran { IfOk result (λ made. (lists : Lists)
        × AreInputs (first_misfit typed.now.table) (F.files folder.old) name.now lists
        × (as_run made ≡ source typed.now lists bound)) }
    ensures failed { IfErr result (IsFailure (IsUngiven (first_misfit typed.now.table)
        (F.files folder.old) (F.counts folder.old) (F.counts folder.new) name.now)) }
{
    let inputs = inputs(alloc, folder, &typed.table, name)?;
    match run_source(alloc, typed, &inputs, u64::from(bound)) {
        Ok(run) => Ok(run),
        Err(_) => Err(Failure::Memory),
    }
}

/// The run of the source in a file on the inputs in another, with at most so many steps.
pub fn trace_source<F: Folder>(
    alloc: Global,
    folder: &mut F,
    file: &str,
    name: &str,
    bound: u32,
) -> Result<Traced, Failure>
    ensures kept { F.files folder.new ≡ F.files folder.old }
    ensures counted { OnOk result (Makes 2 0 (F.counts folder.old) (F.counts folder.new)) }
    ensures faults_are_told { IsTrue F.counts_faults_alone →
        FaultsAreTold result (F.counts folder.old).faults (F.counts folder.new).faults }
    ensures traced { IfOk result (λ traced. IsTraced (F.files folder.old) file.now name.now bound
        traced.typed.table traced.run) }
    ensures failed { IfErr result (IsFailure (Untraced (F.files folder.old)
        (F.counts folder.old) (F.counts folder.new) file.now name.now)) }
    ensures memory { IfErr result (λ e. e ≡ Failure.Memory →
        LacksMemory (F.files folder.old) (F.counts folder.old) (F.counts folder.new)
        file.now name.now) }
{
    let typed = program_source(alloc, folder, file)?;
    match run_on(alloc, folder, &typed, name, bound) {
        Ok(run) => Ok(Traced { typed, run }),
        Err(failure) => {
            drop(typed);
            Err(failure)
        }
    }
}
