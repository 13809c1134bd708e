//! What stays the same while a program runs.

ghost use Rattle.std.specs.Prelude.{◌≡◌, IfOk};
ghost use Rattle.par_run_laws.specs.Names.{channel_named, body_of};
ghost use Rattle.par_run_laws.specs.Source.{given_to};
ghost use Rattle.par_typed.specs.Shown.{bodies};
ghost use Rattle.par_source_state.specs.Bodied.{ArePlaced, body_shown};
ghost use Rattle.par_source_state.specs.Lined.{rows_of, rows_shown};

use crate::{bodies, lines};
use par_base::list::List;
use par_base::memory::NoMemory;
use par_index::Firsts;
use par_typed::program::Typed;
use par_typed::stmt::TStmt;
use par_values::inputs::Inputs;
use std::alloc::Global;

/// A program with its inputs.
#[derive(Drop)]
pub struct Program<'a> {
    pub alloc: Global,
    pub typed: &'a Typed,
    pub inputs: &'a Inputs,
    methods: Firsts<(u16, u16)>,
    lines: List<List<&'a [i32]>>,
    ghost placed: { ArePlaced typed.now.bodies methods },
    ghost lined: { rows_shown lines ≡ rows_of inputs.now.channels typed.now.table.classes },
}

impl<'a> Program<'a> {
    /// The program on these inputs. Where its bodies and the lists of its channels stand is looked
    /// up here, once.
    pub fn new(alloc: Global, typed: &'a Typed, inputs: &'a Inputs) -> Result<Program<'a>, NoMemory>
        ensures typed { IfOk result (λ program. program.typed.now ≡ typed.now) }
        ensures inputs { IfOk result (λ program. program.inputs.now ≡ inputs.now) }
    {
        let methods = bodies::places(alloc, typed.bodies.as_slice())?;
        let classes = typed.table.classes.as_slice();
        let lines = lines::rows(alloc, classes, inputs.channels.as_slice())?;
        Ok(Program {
            alloc,
            typed,
            inputs,
            methods,
            lines,
        })
    }

    /// The body of a method, where it has one.
    pub fn body(&self, class: u16, method: u16) -> Option<&'a TStmt>
        ensures { body_shown result ≡ body_of (bodies self.now.typed.now.bodies) class method }
    {
        match self.methods.place(&(class, method)) {
            Some(place) => bodies::at(self.typed.bodies.as_slice(), place),
            None => None,
        }
    }

    /// What an input channel is given; nothing where there is no such channel.
    pub fn line(&self, class: u16, channel: u16) -> &'a [i32]
        ensures { result.now ≡ given_to self.now.inputs.now.channels
            (channel_named self.now.typed.now.table class channel) }
    {
        match self.lines.get(usize::from(class)) {
            Some(row) => lines::at(row.as_slice(), channel),
            None => &[],
        }
    }
}
