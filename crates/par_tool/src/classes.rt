//! What is done with a class: its class files and its inputs are read, and a machine is made to run
//! them.

ghost use Rattle.std.specs.Prelude.{◌≡◌, IsTrue, IfOk, IfErr};
ghost use Rattle.par_io.specs.Causes.{Makes, NoneFalls};
ghost use Rattle.par_lexer.specs.par_base.Names.{IsName};
ghost use Rattle.par_link.specs.Inputs.{first_misfit};
ghost use Rattle.par_tool.specs.Given.{AreInputs, IsUngiven};
ghost use Rattle.par_tool.specs.Classes.{NotRun, LacksMemory, Starts};
ghost use Rattle.par_tool.specs.Failures.{IsFailure, FaultsAreTold};

use crate::input_file::{InputFile, bad_entry, input_file};
use crate::reads::Failure;
use par_framed_program::framed;
use par_io::Folder;
use par_link::{Linked, inputs_fit};
use par_loader::{linked_program, main_file};
use par_machine::machine::Machine;
use par_values::inputs::Inputs;
use std::alloc::Global;

/// The inputs in an input file, all of which the linked class files have channels for.
fn inputs<F: Folder>(
    alloc: Global,
    folder: &mut F,
    linked: &Linked,
    name: &str,
) -> Result<Inputs, Failure>
    ensures kept { F.files folder.new ≡ F.files folder.old }
    ensures counted { Makes 1 0 (F.counts folder.old) (F.counts folder.new) }
    ensures none_falls { NoneFalls (F.counts folder.old) (F.counts folder.new) }
    ensures faults_are_told { IsTrue F.counts_faults_alone →
        FaultsAreTold result (F.counts folder.old).faults (F.counts folder.new).faults }
    ensures given { IfOk result (AreInputs (first_misfit linked.now)
        (F.files folder.old) name.now) }
    ensures failed { IfErr result (IsFailure (IsUngiven (first_misfit linked.now)
        (F.files folder.old) (F.counts folder.old) (F.counts folder.new) name.now)) }
{
    let InputFile { text, inputs } = input_file(alloc, folder, name)?;
    match inputs_fit(linked, &inputs) {
        None => Ok(inputs),
        Some(place) => Err(bad_entry(text.as_slice(), place as usize)),
    }
}

/// A machine before its first instruction, for a class and the inputs in a file.
pub fn started<F: Folder>(
    alloc: Global,
    folder: &mut F,
    main: &str,
    name: &str,
) -> Result<Machine, Failure>
    requires { IsName main.now }
    ensures kept { F.files folder.new ≡ F.files folder.old }
    ensures faults_are_told { IsTrue F.counts_faults_alone →
        FaultsAreTold result (F.counts folder.old).faults (F.counts folder.new).faults }
    ensures started { IfOk result (Starts (F.files folder.old)
        (F.counts folder.old) (F.counts folder.new) main.now name.now) }
    ensures failed { IfErr result (IsFailure (NotRun (F.files folder.old)
        (F.counts folder.old) (F.counts folder.new) main.now name.now)) }
    ensures memory { IfErr result (λ e. e ≡ Failure.Memory →
        LacksMemory (F.files folder.old) (F.counts folder.old) (F.counts folder.new)
        main.now name.now) }
{
    let file = main_file(alloc, folder, main)?;
    let linked = linked_program(alloc, folder, file)?;
    framed(alloc, &linked)?;
    let inputs = inputs(alloc, folder, &linked, name)?;
    match Machine::start(alloc, linked, 0, inputs) {
        Ok(machine) => Ok(machine),
        Err(_) => Err(Failure::Memory),
    }
}
