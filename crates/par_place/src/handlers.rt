//! The handlers of code.

ghost use Rattle.std.specs.Prelude.{◌≡◌, ◌+◌, ◌*◌, ◌<◌, length, slice_index, All, IfOk};
ghost use Rattle.std.specs.List.{AllZip};
ghost use Rattle.par_pool.specs.Growth.{Adds, IsClassPart};
ghost use Rattle.par_place.specs.Offsets.{HasLabels};
ghost use Rattle.par_code_form.specs.PoolNames as spec;
ghost use Rattle.par_code_form.specs.PoolNames.{IsCaughtIn};
ghost use Rattle.par_code_form.specs.Placed.{IsCatch};

use crate::named::class_index;
use par_base::list::List;
use par_base::memory::NoMemory;
use par_class::Catch;
use par_code_form::Handler;
use par_pool::PoolBuilder;
use std::alloc::Global;

/// A handler over the offsets of its labels.
fn catch_of(
    alloc: Global,
    handler: &Handler,
    offsets: &[u16],
    pool: &mut PoolBuilder,
) -> Result<Catch, NoMemory>
    requires labels { HasLabels offsets.now handler.now }
    requires room { length pool.old + 2 < 65535 }
    ensures is { IfOk result (λ catch.
        IsCatch pool.new (slice_index offsets.now) handler.now catch) }
    ensures added { Adds pool.old pool.new 2
        (IsClassPart pool.new (spec.full_name handler.now.class)) }
{
    let class = class_index(alloc, &handler.class, pool)?;
    Ok(Catch {
        start: offsets[handler.from as usize],
        end: offsets[handler.to as usize],
        handler: offsets[handler.goes as usize],
        class,
    })
}

/// The handlers in the same order.
pub fn catches_of(
    alloc: Global,
    handlers: &[Handler],
    offsets: &[u16],
    pool: &mut PoolBuilder,
) -> Result<List<Catch>, NoMemory>
    requires labels { All (HasLabels offsets.now) handlers.now }
    requires room { length pool.old + 2 * length handlers.now < 65535 }
    ensures are { IfOk result (λ catches.
        AllZip (IsCatch pool.new (slice_index offsets.now)) handlers.now catches) }
    ensures added { Adds pool.old pool.new (2 * length handlers.now)
        (IsCaughtIn pool.new handlers.now) }
{
    let mut catches = List::new(alloc);
    for handler in handlers {
        let catch = catch_of(alloc, handler, offsets, pool)?;
        catches.push(catch)?;
    }
    Ok(catches)
}
