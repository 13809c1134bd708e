//! A slow runner of labelled code with numbers, locks, exceptions, two channels and the one field
//! of a class. It finds each label by looking through the items. Nothing but tests stands on it,
//! and no clause says what it does, as none says what a test does.
#![tactic(auto)]

use par_code_form::opcode::{
    GETSTATIC, GOTO, IF_ICMPEQ, IFEQ, IFNE, INVOKESPECIAL, INVOKESTATIC, PUTSTATIC,
};
use par_code_form::{Handler, Item, Labelled};
use par_instr::Instr;
use std::alloc::Global;
use std::test::Fail;

/// A run that takes more steps has failed.
const MOST_STEPS: u32 = 5_000;

const LOCKS: usize = 4;

// What an operand or a local holds; an object is told by the place of the item that made it.
#[derive(Clone, Copy)]
enum Value {
    Unset,
    Number(i32),
    Object(usize),
}

/// Where a run stands, and what it has put out.
#[derive(Drop)]
pub struct State {
    place: usize,
    operands: Vec<Value>,
    locals: Vec<Value>,
    field: i32,
    are_open: Vec<bool>,
    keys: Vec<i32>,
    pub shown: Vec<i32>,
    is_over: bool,
}

fn empty(alloc: Global) -> State {
    State {
        place: 0,
        operands: Vec::new(alloc),
        locals: Vec::new(alloc),
        field: 0,
        are_open: Vec::new(alloc),
        keys: Vec::new(alloc),
        shown: Vec::new(alloc),
        is_over: false,
    }
}

fn fill(state: &mut State, code: &Labelled, keys: &[i32]) -> Result<(), Fail> {
    state
        .locals
        .resize(usize::from(code.max_locals), Value::Unset)?;
    state.are_open.resize(LOCKS, false)?;
    // The next one comes last.
    for key in keys.iter().rev() {
        state.keys.push(*key)?;
    }
    Ok(())
}

fn begin(alloc: Global, code: &Labelled, keys: &[i32]) -> Result<State, Fail> {
    let mut state = empty(alloc);
    fill(&mut state, code, keys)?;
    Ok(state)
}

impl State {
    fn push(&mut self, code: &Labelled, value: Value) -> Result<(), Fail> {
        if self.operands.len() >= usize::from(code.max_stack) {
            return Err(Fail::new("too many operands"));
        }
        self.operands.push(value)?;
        Ok(())
    }

    fn pop(&mut self) -> Result<Value, Fail> {
        match self.operands.pop() {
            None => Err(Fail::new("no operand")),
            Some(value) => Ok(value),
        }
    }

    fn pop_number(&mut self) -> Result<i32, Fail> {
        match self.pop()? {
            Value::Number(number) => Ok(number),
            Value::Unset | Value::Object(_) => Err(Fail::new("no number")),
        }
    }

    fn push_local(&mut self, code: &Labelled, local: u8) -> Result<(), Fail> {
        match self.locals.get(usize::from(local)) {
            None | Some(Value::Unset) => Err(Fail::new("a local that is not set")),
            Some(value) => {
                let value = *value;
                self.push(code, value)
            }
        }
    }

    fn pop_local(&mut self, local: u8) -> Result<(), Fail> {
        let value = self.pop()?;
        let place = usize::from(local);
        if place >= self.locals.len() {
            return Err(Fail::new("no local"));
        }
        self.locals[place] = value;
        Ok(())
    }
}

fn place_of(code: &Labelled, wanted: u32) -> Result<usize, Fail> {
    for (place, item) in code.items.as_slice().iter().enumerate() {
        let found = match item {
            Item::Label(label) => *label == wanted,
            _ => false,
        };
        if found {
            return Ok(place);
        }
    }
    Err(Fail::new("no such label"))
}

// Whether the handler takes what the item at this place made, where the run stands.
fn takes(code: &Labelled, handler: &Handler, made_at: usize, place: usize) -> Result<bool, Fail> {
    let from = place_of(code, handler.from)?;
    let to = place_of(code, handler.to)?;
    match code.items.get(made_at) {
        Some(Item::ClassOp(_, class)) => {
            Ok(from <= place && place < to && class.bytes() == handler.class.bytes())
        }
        _ => Err(Fail::new("no object is thrown")),
    }
}

// A handler has what it takes as its one operand.
fn enter(
    code: &Labelled,
    handler: &Handler,
    made_at: usize,
    state: &mut State,
) -> Result<(), Fail> {
    state.operands.clear();
    state.push(code, Value::Object(made_at))?;
    state.place = place_of(code, handler.goes)?;
    Ok(())
}

// The first handler that takes it has it.
fn throw(code: &Labelled, made_at: usize, state: &mut State) -> Result<(), Fail> {
    for handler in code.handlers.as_slice() {
        if takes(code, handler, made_at, state.place)? {
            return enter(code, handler, made_at, state);
        }
    }
    Err(Fail::new("no handler"))
}

fn combined(instr: Instr, first: i32, second: i32) -> Result<i32, Fail> {
    match instr {
        Instr::Iadd => Ok(first.wrapping_add(second)),
        Instr::Isub => Ok(first.wrapping_sub(second)),
        Instr::Imul => Ok(first.wrapping_mul(second)),
        _ => Err(Fail::new("another instruction")),
    }
}

fn combine(code: &Labelled, instr: Instr, state: &mut State) -> Result<(), Fail> {
    let second = state.pop_number()?;
    let first = state.pop_number()?;
    let number = combined(instr, first, second)?;
    state.push(code, Value::Number(number))
}

fn drop_operand(state: &mut State) -> Result<(), Fail> {
    state.pop()?;
    Ok(())
}

fn double(code: &Labelled, state: &mut State) -> Result<(), Fail> {
    let value = state.pop()?;
    state.push(code, value)?;
    state.push(code, value)
}

fn negate(code: &Labelled, state: &mut State) -> Result<(), Fail> {
    let number = state.pop_number()?;
    state.push(code, Value::Number(number.wrapping_neg()))
}

fn throw_operand(code: &Labelled, state: &mut State) -> Result<(), Fail> {
    match state.pop()? {
        Value::Object(made_at) => throw(code, made_at, state),
        Value::Unset | Value::Number(_) => Err(Fail::new("no object")),
    }
}

fn operate(code: &Labelled, instr: Instr, state: &mut State) -> Result<(), Fail> {
    match instr {
        Instr::IloadShort(local) | Instr::Iload(local) => state.push_local(code, local),
        Instr::IstoreShort(local) | Instr::Istore(local) => state.pop_local(local),
        Instr::Pop => drop_operand(state),
        Instr::Dup => double(code, state),
        Instr::Ineg => negate(code, state),
        Instr::Athrow => throw_operand(code, state),
        Instr::Return => {
            state.is_over = true;
            Ok(())
        }
        _ => combine(code, instr, state),
    }
}

// The six comparisons stand in the order of their opcodes.
fn is_so(opcode: u8, first: i32, second: i32) -> Result<bool, Fail> {
    match opcode.wrapping_sub(IF_ICMPEQ) {
        0 => Ok(first == second),
        1 => Ok(first != second),
        2 => Ok(first < second),
        3 => Ok(first >= second),
        4 => Ok(first > second),
        5 => Ok(first <= second),
        _ => Err(Fail::new("another branch")),
    }
}

fn is_taken(opcode: u8, state: &mut State) -> Result<bool, Fail> {
    if opcode == GOTO {
        return Ok(true);
    }
    let second = state.pop_number()?;
    if opcode == IFEQ || opcode == IFNE {
        return Ok((second == 0) == (opcode == IFEQ));
    }
    let first = state.pop_number()?;
    is_so(opcode, first, second)
}

fn branch(code: &Labelled, opcode: u8, label: u32, state: &mut State) -> Result<(), Fail> {
    if is_taken(opcode, state)? {
        state.place = place_of(code, label)?;
    }
    Ok(())
}

fn call(code: &Labelled, name: &[u8], state: &mut State) -> Result<(), Fail> {
    if name == b"show".as_slice() {
        let number = state.pop_number()?;
        state.shown.push(number)?;
        return Ok(());
    }
    if name != b"key".as_slice() {
        return Err(Fail::new("another method"));
    }
    match state.keys.pop() {
        None => Err(Fail::new("no more keys")),
        Some(key) => state.push(code, Value::Number(key)),
    }
}

fn work_on(code: &Labelled, opcode: u8, name: &[u8], state: &mut State) -> Result<(), Fail> {
    match opcode {
        GETSTATIC => {
            let number = state.field;
            state.push(code, Value::Number(number))
        }
        PUTSTATIC => {
            state.field = state.pop_number()?;
            Ok(())
        }
        INVOKESPECIAL => drop_operand(state),
        INVOKESTATIC => call(code, name, state),
        _ => Err(Fail::new("another opcode")),
    }
}

fn set_lock(lock: u16, state: &mut State) -> Result<(), Fail> {
    let number = state.pop_number()?;
    let place = usize::from(lock);
    if place >= state.are_open.len() {
        return Err(Fail::new("no lock"));
    }
    state.are_open[place] = number != 0;
    Ok(())
}

fn push_lock(code: &Labelled, lock: u16, state: &mut State) -> Result<(), Fail> {
    let number = match state.are_open.get(usize::from(lock)) {
        None => return Err(Fail::new("no lock")),
        Some(true) => 1,
        Some(false) => 0,
    };
    state.push(code, Value::Number(number))
}

fn step(code: &Labelled, state: &mut State) -> Result<(), Fail> {
    let place = state.place;
    match code.items.get(place) {
        None => Err(Fail::new("behind the end")),
        Some(Item::Label(_)) => Ok(()),
        Some(Item::Op(instr)) => operate(code, *instr, state),
        Some(Item::Const(number)) => state.push(code, Value::Number(*number)),
        Some(Item::Jump(opcode, label)) => branch(code, *opcode, *label, state),
        Some(Item::Member(opcode, _, name, _)) => work_on(code, *opcode, name.as_slice(), state),
        Some(Item::ClassOp(_, _)) => state.push(code, Value::Object(place)),
        Some(Item::LockOp(PUTSTATIC, lock)) => set_lock(*lock, state),
        Some(Item::LockOp(_, lock)) => push_lock(code, *lock, state),
    }
}

fn go(code: &Labelled, state: &mut State) -> Result<(), Fail> {
    for _ in 0..MOST_STEPS {
        step(code, state)?;
        // Where it went to a label, the next item is the one behind it.
        state.place = state.place.saturating_add(1);
        if state.is_over {
            return Ok(());
        }
    }
    Err(Fail::new("too many steps"))
}

/// Where a run of the code ends that reads these keys.
pub fn run(alloc: Global, code: &Labelled, keys: &[i32]) -> Result<State, Fail> {
    let mut state = begin(alloc, code, keys)?;
    go(code, &mut state)?;
    Ok(state)
}
