use par_base::memory::NoMemory;
use par_heap::{Heap, Statics};
use par_values::value::MVal;
use par_worked::expect;
use std::alloc::Global;
use std::test::Fail;

const FIRST: &[MVal] = &[MVal::Int(7), MVal::Null];

const SECOND: &[MVal] = &[MVal::Int(-1), MVal::Ref(2, 0)];

// Two objects of class 2.
fn two(alloc: Global) -> Result<Heap, NoMemory> {
    let mut heap = Heap::new(alloc);
    heap.birth(2, FIRST)?;
    heap.birth(2, SECOND)?;
    Ok(heap)
}

// The numbers of two objects of class 2 and of one of class 0, which has no field.
fn numbers(alloc: Global) -> Result<(u32, u32, u32), NoMemory> {
    let mut heap = Heap::new(alloc);
    let first = heap.birth(2, FIRST)?;
    let second = heap.birth(2, SECOND)?;
    let other = heap.birth(0, &[])?;
    Ok((first, second, other))
}

#[test]
fn births_are_numbered_class_by_class(rt: HostRuntime) -> Result<(), Fail> {
    expect(numbers(rt.alloc())? == (0, 1, 0), "0, 1 and 0")
}

// What is read of class 2 after a field of its second object is written.
fn is_read_again(heap: &mut Heap) -> bool {
    let there = heap.set(2, 1, 0, MVal::Null);
    let missing = heap.set(2, 1, 2, MVal::Null) || heap.set(1, 0, 0, MVal::Null);
    let kept = heap.get(2, 0, 0) == Some(MVal::Int(7)) && heap.get(2, 1, 0) == Some(MVal::Null);
    let none = heap.get(2, 2, 0).is_none() && heap.get(3, 0, 0).is_none();
    there && !missing && kept && none
}

fn read_again(alloc: Global) -> Result<bool, NoMemory> {
    let mut heap = two(alloc)?;
    let is_read = is_read_again(&mut heap);
    drop(heap);
    Ok(is_read)
}

#[test]
fn a_field_is_read_as_it_was_written(rt: HostRuntime) -> Result<(), Fail> {
    expect(
        read_again(rt.alloc())?,
        "the written field alone is another one",
    )
}

fn are_flat(alloc: Global) -> Result<bool, NoMemory> {
    let heap = two(alloc)?;
    let all = [MVal::Int(7), MVal::Null, MVal::Int(-1), MVal::Ref(2, 0)];
    let are_flat = heap.objects(2) == all.as_slice() && heap.objects(1).is_empty();
    drop(heap);
    Ok(are_flat)
}

#[test]
fn objects_lie_behind_each_other(rt: HostRuntime) -> Result<(), Fail> {
    expect(
        are_flat(rt.alloc())?,
        "the fields of both objects in the order of their births",
    )
}

fn keep(statics: &mut Statics) -> bool {
    let written = statics.set(1, MVal::Int(3)) && !statics.set(2, MVal::Null);
    let read = statics.get(0) == Some(MVal::Int(7)) && statics.get(1) == Some(MVal::Int(3));
    written && read && statics.get(2).is_none()
}

fn statics_keep(alloc: Global) -> Result<bool, NoMemory> {
    let mut statics = Statics::of(alloc, FIRST)?;
    let keep = keep(&mut statics);
    drop(statics);
    Ok(keep)
}

#[test]
fn static_fields_are_read_as_they_were_written(rt: HostRuntime) -> Result<(), Fail> {
    expect(
        statics_keep(rt.alloc())?,
        "two fields, of which one is written",
    )
}
