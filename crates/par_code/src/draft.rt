//! Labelled code in the making.

ghost use Rattle.std.specs.Prelude.{◌≡◌, ◌+◌, ◌<◌, ◌^◌, [], OnOk, IfOk, map};
ghost use Rattle.par_code_form.specs.Named.{words_of};
ghost use Rattle.par_code_form.specs.Frames.{slot};
ghost use Rattle.par_erase.specs.Shown.{table_of};
ghost use Rattle.par_code.specs.Drafts as state;
ghost use Rattle.par_code.specs.Drafts.{seen};
ghost use Rattle.par_code.specs.Statements.{jump_if, land_if, with_end};

use crate::words::class_name;
use par_base::list::List;
use par_base::memory::NoMemory;
use par_code_form::opcode::GOTO;
use par_code_form::{Handler, Item, LabelFrame, Slot};
use par_erase::Plain;
use par_instr::Instr;
use par_typed::ty::Ty;
use std::alloc::Global;

/// The code of a method so far, the first label that is free, and the most operands that lay
/// there.
#[derive(Drop)]
pub struct Draft {
    pub items: List<Item>,
    pub handlers: List<Handler>,
    pub frames: List<LabelFrame>,
    pub next_label: u32,
    pub most: u16,
}

fn slot(alloc: Global, plain: &Plain, ty: Ty) -> Result<Slot, NoMemory>
    ensures { IfOk result (λ s. s ≡ slot (words_of (table_of plain.now)) ty) }
{
    match ty {
        Ty::Int | Ty::Boolean => Ok(Slot::Int),
        Ty::Class(class) => {
            let name = class_name(alloc, plain, class)?;
            Ok(Slot::Class(name))
        }
        Ty::Null => Ok(Slot::Null),
        Ty::Void => Ok(Slot::Unset),
    }
}

/// What these types are in a frame.
pub fn slots(alloc: Global, plain: &Plain, types: &[Ty]) -> Result<List<Slot>, NoMemory>
    ensures { IfOk result (λ ss. ss ≡ map (slot (words_of (table_of plain.now))) types.now) }
{
    let mut found = List::new(alloc);
    for ty in types {
        let slot = slot(alloc, plain, *ty)?;
        found.push(slot)?;
    }
    Ok(found)
}

impl Draft {
    /// No code yet.
    pub fn new(alloc: Global) -> Draft
        ensures items { result.items ≡ [] }
        ensures handlers { result.handlers ≡ [] }
        ensures frames { result.frames ≡ [] }
        ensures next_label { result.next_label ≡ 0 }
        ensures most { result.most ≡ 0 }
    {
        Draft {
            items: List::new(alloc),
            handlers: List::new(alloc),
            frames: List::new(alloc),
            next_label: 0,
            most: 0,
        }
    }

    /// One more item.
    #[tactic(auto, using(crate::proofs::Pieces::pushes))]
    pub fn put(&mut self, item: Item) -> Result<(), NoMemory>
        ensures { OnOk result (seen self.new ≡ state.put item (seen self.old)) }
    {
        self.items.push(item)
    }

    /// One more handler.
    #[tactic(auto, using(crate::proofs::Pieces::pushes))]
    pub fn put_handler(&mut self, handler: Handler) -> Result<(), NoMemory>
        ensures { OnOk result (seen self.new ≡ state.put_handler handler (seen self.old)) }
    {
        self.handlers.push(handler)
    }

    /// Labels that nothing else has, from the one that is handed out on. A method needs fewer than
    /// there are numbers.
    #[tactic(auto, using(crate::proofs::Pieces::pushes))]
    pub fn take(&mut self, count: u32) -> Result<u32, NoMemory>
        ensures first { IfOk result (λ n. n ≡ self.old.next_label) }
        ensures room { IfOk result (λ n. n + count < 2 ^ 32) }
        ensures taken { OnOk result (seen self.new ≡ state.take count (seen self.old)) }
    {
        let first = self.next_label;
        let Some(next) = first.checked_add(count) else {
            return Err(NoMemory);
        };
        self.next_label = next;
        Ok(first)
    }

    /// So many operands lie there. A method never has more than its code has bytes.
    #[tactic(auto, using(crate::proofs::Pieces::pushes))]
    pub fn reach(&mut self, operands: usize) -> Result<(), NoMemory>
        ensures { OnOk result (seen self.new ≡ state.reach operands (seen self.old)) }
    {
        let Ok(operands) = u16::try_from(operands) else {
            return Err(NoMemory);
        };
        if self.most < operands {
            self.most = operands;
        }
        Ok(())
    }

    /// Marks a label that a branch or an exception goes to, where these locals are in scope and
    /// these operands lie there.
    #[tactic(auto, using(crate::proofs::Pieces::pushes))]
    pub fn land(
        &mut self,
        alloc: Global,
        plain: &Plain,
        label: u32,
        scope: &[Ty],
        operands: &[Ty],
    ) -> Result<(), NoMemory>
        ensures { OnOk result (seen self.new ≡ state.land (words_of (table_of plain.now)) label
            scope.now operands.now (seen self.old)) }
    {
        self.put(Item::Label(label))?;
        let locals = slots(alloc, plain, scope)?;
        let stack = slots(alloc, plain, operands)?;
        self.frames.push(LabelFrame {
            label,
            locals,
            stack,
        })
    }

    /// A jump where control comes to it.
    #[tactic(auto, using(crate::proofs::StmtForms::turns))]
    pub fn jump_if(&mut self, comes: bool, label: u32) -> Result<(), NoMemory>
        ensures { OnOk result (seen self.new ≡ jump_if comes label (seen self.old)) }
    {
        if comes {
            self.put(Item::Jump(GOTO, label))
        } else {
            Ok(())
        }
    }

    /// Marks a label, which branches go to where this holds.
    #[tactic(auto, using(crate::proofs::StmtForms::turns))]
    pub fn land_if(
        &mut self,
        alloc: Global,
        plain: &Plain,
        comes: bool,
        label: u32,
        scope: &[Ty],
    ) -> Result<(), NoMemory>
        ensures { OnOk result (seen self.new
            ≡ land_if (words_of (table_of plain.now)) comes label scope.now (seen self.old)) }
    {
        if comes {
            self.land(alloc, plain, label, scope, &[])
        } else {
            self.put(Item::Label(label))
        }
    }

    /// The end of one of two branches, and the label of the other.
    #[tactic(auto, using(crate::proofs::StmtForms::turns))]
    pub fn part(
        &mut self,
        alloc: Global,
        plain: &Plain,
        comes: bool,
        label: u32,
        scope: &[Ty],
    ) -> Result<(), NoMemory>
        requires { label + 2 < 2 ^ 32 }
        ensures { OnOk result (seen self.new
            ≡ state.land (words_of (table_of plain.now)) label scope.now []
            (jump_if comes (label + 1) (seen self.old))) }
    {
        self.jump_if(comes, label + 1)?;
        self.land(alloc, plain, label, scope, &[])
    }

    /// The end of a body, where control comes to it.
    #[tactic(auto, using(crate::proofs::StmtForms::turns))]
    pub fn end_if(&mut self, comes: bool) -> Result<(), NoMemory>
        ensures { OnOk result (seen self.new ≡ with_end comes (seen self.old)) }
    {
        if comes {
            self.put(Item::Op(Instr::Return))
        } else {
            Ok(())
        }
    }
}
