//! What a sample has in it, in a line.

ghost use Rattle.std.specs.Prelude.{◌≡◌, IfOk, string_bytes};
ghost use Rattle.par_sample.specs.Summary.{summary_line};

use std::alloc::{AllocError, Global};

/// What is told of a sample once it is accepted.
#[derive(Clone, Copy)]
pub struct Summary {
    /// The number that it is made of.
    pub number: u64,
    /// How many classes it declares.
    pub classes: u32,
    /// How many methods.
    pub methods: u32,
    /// How many nodes all methods have.
    pub nodes: u32,
    /// How many class files it gives.
    pub files: u32,
}

impl Summary {
    /// Its line, with its end.
    pub fn line(&self, alloc: Global) -> Result<String, AllocError>
        ensures { IfOk result (λ line. string_bytes line ≡ summary_line self.now) }
    {
        let Summary {
            number,
            classes,
            methods,
            nodes,
            files,
        } = *self;
        format!(in alloc;
            "sample {number} classes {classes} methods {methods} nodes {nodes} accepted {files}\n"
        )
    }
}
