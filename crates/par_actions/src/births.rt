//! Instructions that make objects.

ghost use Rattle.std.specs.Prelude.{◌≡◌, ◌<◌, List, length, IfOk, OnErr, IsTrue};
ghost use Rattle.std.specs.List.{All};
ghost use Rattle.par_values.specs.Areas.{Name, Areas};
ghost use Rattle.par_values.specs.declared.link.ClassLink.{ClassLink};
ghost use Rattle.par_values.specs.Reasons.{Spot};
ghost use Rattle.par_heap.specs.Heap.{objects_of};
ghost use Rattle.par_actions.specs.Done.{IsAt, Keeps, is_still};
ghost use Rattle.par_actions.specs.Objects.{AreShown, IsClass, Creates};

use crate::done::Done;
use par_base::memory::NoMemory;
use par_heap::Heap;
use par_stack::Stack;
use par_values::value::MVal;

/// A class, by numbers.
#[derive(Clone, Copy)]
pub struct Class<'f> {
    pub number: u16,
    /// What the fields of an object hold before they are written.
    pub first: &'f [MVal],
    pub is_exception: bool,
    /// Objects of it are made.
    pub is_made: bool,
}

/// Makes an object and pushes it.
pub fn create(
    stack: &mut Stack,
    heap: &mut Heap,
    class: Class,
    ahead: bool,
) -> Result<Done, NoMemory>
    requires few { length (objects_of heap.old class.number) < 4294967295 }
    requires same { IsTrue class.is_made →
        All (λ object. length object ≡ length class.first.now) (objects_of heap.old class.number) }
    ensures done { IfOk result (λ done.
        (classes : List Name) (spot : Spot) (program : Areas) (c : ClassLink) →
        IsClass c class.entry → AreShown heap.old program →
        class.entry.number < length program.objects → IsAt spot ahead stack.old →
        Creates done classes spot c program stack.old stack.new heap.new) }
    ensures kept { IfOk result (λ done. Keeps stack.old stack.new) }
    ensures still { IfOk result (λ done. IsTrue (is_still done) → stack.new ≡ stack.old) }
    ensures unmade { IfOk result (λ done. IsTrue (is_still done) → heap.new ≡ heap.old) }
    ensures refused { OnErr result (stack.new ≡ stack.old) }
    ensures unborn { OnErr result (heap.new ≡ heap.old) }
{
    if stack.free() == 0 {
        return Ok(Done::Bad(3));
    }
    if !ahead {
        return Ok(Done::Bad(5));
    }
    if !class.is_made {
        return Ok(Done::Bad(9));
    }
    let n = heap.birth(class.number, class.first)?;
    stack.push(MVal::Ref(class.number, n));
    if class.is_exception {
        Ok(Done::Goes)
    } else {
        Ok(Done::Born(n))
    }
}
