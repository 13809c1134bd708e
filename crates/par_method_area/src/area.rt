ghost use Rattle.std.specs.Prelude.{◌≡◌, ℕ, map, IfOk, MatchOption, slice_index_or};
ghost use Rattle.par_step_laws.specs.Classes.{class_names, exceptions};
ghost use Rattle.par_starts.specs.Standing.{KnowsStanding};
ghost use Rattle.par_step_laws.specs.Methods.{method_code};
ghost use Rattle.par_step_laws.specs.Fields.{all_statics};
ghost use Rattle.par_step_laws.specs.par_link.Linked.{AreLinked};
ghost use Rattle.par_values.specs.Reasons.{Spot};
ghost use Rattle.par_actions.specs.Leaving.{KnowsExceptions};
ghost use Rattle.par_method_area.specs.Area.{KnowsLines, AreTold};
ghost use Rattle.par_actions.specs.par_lines.Lines.{channels_of};
ghost use Rattle.par_method_area.specs.Classes.{IsClassRow, lines_in, line_rows};
ghost use Rattle.par_method_area.specs.Known.{KnowsCode, code_at};
ghost use Rattle.par_method_area.specs.Rows.{AreRows};

use crate::channels::ChannelLines;
use crate::classes::{ClassRow, class_rows};
use crate::exceptions::exception_flags;
use crate::known::Code;
use crate::names::ClassNumbers;
use crate::statics::all_statics;
use par_base::list::List;
use par_base::memory::NoMemory;
use par_starts::{Instructions, Standing};
use par_step_laws::par_link::Linked;
use par_values::inputs::Inputs;
use par_values::value::MVal;
use std::alloc::Global;
use std::marker::Model;

/// Linked class files with what is told once of their classes, fields and methods. Contracts see
/// the files, and for each method the place of the line of the channel of its name.
pub struct MethodArea {
    pub(crate) linked: Linked,
    pub(crate) rows: List<ClassRow>,
    pub(crate) exceptions: List<bool>,
    pub(crate) statics: List<MVal>,
}

impl Drop for MethodArea {
    // In one place, for all that own one.
    fn drop(self) {
        let MethodArea {
            linked: _,
            rows: _,
            exceptions: _,
            statics: _,
        } = self;
    }
}

impl Model for MethodArea {
    ghost use Rattle.par_method_area.specs.Area.{Area, area_of, AreTold};

    ghost Value = { Area };

    ghost view = { λ area. area_of area.linked area.rows };

    ghost invariant = { λ area.
        AreTold area.linked area.rows area.exceptions area.statics };
}

/// What is told once of each class of some files, whose numbers these are.
fn rows_over(
    alloc: Global,
    numbers: &ClassNumbers,
    linked: &Linked,
    inputs: &Inputs,
) -> Result<List<ClassRow>, NoMemory>
    requires linked { AreLinked linked.now }
    requires numbers { numbers.now ≡ class_names linked.now }
    ensures rows { IfOk result (λ rows.
        AreRows (IsClassRow (class_names linked.now) linked.now) linked.now rows) }
    ensures lines { IfOk result (λ rows.
        map lines_in rows ≡ line_rows linked.now (channels_of inputs.now.channels)) }
{
    let lines = ChannelLines::of(alloc, inputs.channels.as_slice())?;
    let rows = class_rows(alloc, numbers, &lines, linked.files());
    drop(lines);
    rows
}

/// What is told once of each class of some files, where the input channels have these lines.
fn told_rows(alloc: Global, linked: &Linked, inputs: &Inputs) -> Result<List<ClassRow>, NoMemory>
    requires { AreLinked linked.now }
    ensures rows { IfOk result (λ rows.
        AreRows (IsClassRow (class_names linked.now) linked.now) linked.now rows) }
    ensures lines { IfOk result (λ rows.
        map lines_in rows ≡ line_rows linked.now (channels_of inputs.now.channels)) }
{
    let numbers = ClassNumbers::of(alloc, linked.files())?;
    let rows = rows_over(alloc, &numbers, linked, inputs);
    drop(numbers);
    rows
}

/// What is told once of some files, and is kept with them.
#[derive(Drop)]
struct Told {
    rows: List<ClassRow>,
    exceptions: List<bool>,
    statics: List<MVal>,
}

/// What is told once of some files, where the input channels have these lines.
fn told_once(alloc: Global, linked: &Linked, inputs: &Inputs) -> Result<Told, NoMemory>
    requires { AreLinked linked.now }
    ensures told { IfOk result (λ told.
        AreTold linked.now told.rows told.exceptions told.statics) }
    ensures lines { IfOk result (λ told.
        map lines_in told.rows ≡ line_rows linked.now (channels_of inputs.now.channels)) }
{
    let exceptions = exception_flags(alloc, linked.files())?;
    let statics = all_statics(alloc, linked.files())?;
    let rows = told_rows(alloc, linked, inputs)?;
    Ok(Told {
        rows,
        exceptions,
        statics,
    })
}

impl MethodArea {
    /// What is told once of linked files, where the input channels have these lines.
    pub fn of(alloc: Global, linked: Linked, inputs: &Inputs) -> Result<MethodArea, NoMemory>
        ensures files { IfOk result (λ area. area.files ≡ linked) }
        ensures lines { IfOk result (λ area. KnowsLines area (channels_of inputs.now.channels)) }
    {
        let _ = linked.count();
        let told = told_once(alloc, &linked, inputs)?;
        Ok(MethodArea {
            linked,
            rows: told.rows,
            exceptions: told.exceptions,
            statics: told.statics,
        })
    }

    /// The files.
    pub fn linked(&self) -> &Linked
        ensures { result.now ≡ self.now.files }
    {
        &self.linked
    }

    /// What all static fields hold before they are written.
    pub fn first_statics(&self) -> &[MVal]
        ensures { result.now ≡ all_statics self.now.files }
    {
        self.statics.as_slice()
    }

    /// Of each class by its number whether it is one of exceptions.
    pub fn exceptions(&self) -> &[bool]
        ensures { (spot : Spot) → spot.exceptions ≡ exceptions self.now.files →
            KnowsExceptions spot result.now }
    {
        self.exceptions.as_slice()
    }

    /// The code of a method, none where it has none.
    pub fn code(&self, class: u16, method: u16) -> Option<Code<'_>>
        ensures { KnowsCode self.now.files class method
            (code_at self.now.files class method) result }
    {
        let code = self
            .linked
            .file(class)?
            .methods
            .get(method as usize)?
            .code
            .as_ref()?;
        let row = self.rows.get(class as usize)?.methods.get(method as usize)?;
        Some(Code {
            bytes: code.code.as_slice(),
            room: code.max_stack,
            locals: code.max_locals,
            gives: row.gives,
            starts: &row.starts,
        })
    }

    /// The instruction at an offset of the code of a method, none where there is none.
    #[inline(always)]
    pub fn instruction(&self, class: u16, method: u16, at: u32) -> Option<Standing>
        ensures { KnowsStanding (method_code self.now.files class method).code at result }
    {
        let row = self.rows.get(class as usize)?.methods.get(method as usize)?;
        row.instructions.at(at)
    }

    /// The instructions of the code of a method, by their offsets.
    #[inline(always)]
    pub fn instructions(&self, class: u16, method: u16) -> Option<&Instructions>
        ensures { MatchOption result
            ((at : ℕ) → KnowsStanding (method_code self.now.files class method).code at None)
            (λ rows. (at : ℕ) → KnowsStanding (method_code self.now.files class method).code at
            (slice_index_or rows.now at None)) }
    {
        let row = self.rows.get(class as usize)?.methods.get(method as usize)?;
        Some(&row.instructions)
    }
}
