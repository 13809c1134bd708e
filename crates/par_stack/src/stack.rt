ghost use Rattle.std.specs.Prelude.{◌≡◌, ◌<◌, ◌≤◌, ◌+◌, ℕ, [], ◌∷◌, drop, length, map, slice_get};
ghost use Rattle.std.specs.Prelude.{Some, None, IfOk, OnOk, OnErr};
ghost use Rattle.std.specs.Option.{option_map};
ghost use Rattle.par_values.specs.Areas.{local_value};
ghost use Rattle.par_stack.specs.Frames.{all_places, running, waiting, entered, with_running};
ghost use Rattle.par_stack.specs.Frames.{pushed, popped, left_with, with_local, at_offset};
ghost use Rattle.par_stack.specs.Frames.{last_operands, without_running, is_awaited};

use crate::places::empty;
use crate::point::{Extent, Point};
use par_base::memory::NoMemory;
use par_values::value::MVal;
use std::alloc::Global;
use std::marker::Model;

/// The frames of a running program, of which there is always one. Contracts see them as a list,
/// the one that runs first.
#[derive(Drop)]
pub struct Stack {
    places: Vec<Option<MVal>>,
    // The outermost first.
    waiting: Vec<Extent>,
    running: Extent,
}

impl Model for Stack {
    ghost use Rattle.std.specs.Prelude.{List as Items, reverse};
    ghost use Rattle.par_stack.specs.Frames.{Frame};
    ghost use Rattle.par_stack.specs.Layout.{frames_at, IsLaid};

    ghost Value = { Items Frame };

    ghost view = { λ s. frames_at s.places.items s.running (reverse s.waiting.items) };

    ghost invariant = { λ s. IsLaid s.places.items s.running (reverse s.waiting.items) };
}

impl Stack {
    /// One frame, with so many locals and room for so many operands.
    pub fn start(alloc: Global, point: Point, locals: u16, room: u16) -> Result<Stack, NoMemory>
        ensures { IfOk result (λ stack. stack ≡ entered point [] locals room ∷ []) }
    {
        let floor = locals as usize;
        let end = floor + room as usize;
        let mut places = Vec::new(alloc);
        places.resize(end, None)?;
        let waiting = Vec::new(alloc);
        let running = Extent {
            point,
            base: 0,
            floor,
            top: floor,
            end,
        };
        Ok(Stack {
            places,
            waiting,
            running,
        })
    }

    /// Where the running frame stands.
    pub fn point(&self) -> Point
        ensures is { result ≡ (running self.now).point }
        ensures some { 0 < length self.now }
    {
        // Field by field, since a processor waits where it reads at once what was written in parts.
        let point = &self.running.point;
        Point {
            class: point.class,
            method: point.method,
            at: point.at,
        }
    }

    /// The offset at which the running frame stands.
    pub fn at(&self) -> u32
        ensures is { result ≡ (running self.now).point.at }
        ensures some { 0 < length self.now }
    {
        self.running.point.at
    }

    /// The places of all frames: for each, the outermost first, its locals and then its operands
    /// from the bottom, up to its room.
    pub fn places(&self) -> &[Option<MVal>]
        ensures { result.now ≡ all_places self.now }
    {
        self.places.as_slice()
    }

    /// The number of operands of the running frame.
    pub fn count(&self) -> usize
        ensures { result ≡ length (running self.now).operands }
    {
        self.running.top - self.running.floor
    }

    /// How many more operands the running frame has room for.
    pub fn free(&self) -> usize
        ensures { result ≡ (running self.now).free }
    {
        self.running.end - self.running.top
    }

    /// The number of locals of the running frame.
    pub fn locals(&self) -> usize
        ensures { result ≡ length (running self.now).locals }
    {
        self.running.floor - self.running.base
    }

    /// The running frame goes on at an offset.
    pub fn go_to(&mut self, at: u32)
        ensures { self.new ≡ with_running (at_offset at) self.old }
    {
        self.running.point.at = at;
    }

    /// The operand with so many pushed after it, none where there are no more.
    pub fn operand(&self, after: usize) -> Option<MVal>
        ensures { result ≡ slice_get (running self.now).operands after }
    {
        if after >= self.running.top - self.running.floor {
            return None;
        }
        self.places[self.running.top - 1 - after]
    }

    /// What a local holds, where it is there and set.
    pub fn local(&self, place: u16) -> Option<MVal>
        ensures { result ≡ local_value (slice_get (running self.now).locals place) }
    {
        let at = self.running.base + place as usize;
        if at >= self.running.floor {
            return None;
        }
        self.places[at]
    }

    /// Sets a local.
    pub fn set_local(&mut self, place: u16, value: MVal)
        requires { place < length (running self.old).locals }
        ensures { self.new ≡ with_running (with_local place value) self.old }
    {
        let place = self.running.base + place as usize;
        self.places[place] = Some(value);
    }

    /// Pushes an operand.
    pub fn push(&mut self, value: MVal)
        requires { 0 < (running self.old).free }
        ensures { self.new ≡ with_running (pushed value) self.old }
    {
        self.places[self.running.top] = Some(value);
        self.running.top += 1;
    }

    /// Takes the operands that were pushed last, so many.
    pub fn pop(&mut self, many: usize)
        requires { many ≤ length (running self.old).operands }
        ensures { self.new ≡ with_running (popped many) self.old }
    {
        let top = self.running.top - many;
        empty(&mut self.places, top, self.running.top);
        self.running.top = top;
    }

    /// Takes the operands that were pushed last, so many, and pushes one in their place.
    #[inline(always)]
    pub fn replace(&mut self, many: usize, value: MVal)
        requires some { 1 ≤ many }
        requires there { many ≤ length (running self.old).operands }
        ensures { self.new ≡ with_running (λ f. pushed value (popped many f)) self.old }
    {
        let top = self.running.top;
        let place = top - many;
        self.running.top = place + 1;
        empty(&mut self.places, place + 1, top);
        self.places[place] = Some(value);
    }

    /// Takes all operands and pushes this one.
    pub fn keep(&mut self, value: MVal)
        requires { 0 < length (running self.old).operands + (running self.old).free }
        ensures { self.new ≡ with_running (left_with value) self.old }
    {
        self.pop(self.count());
        self.push(value);
    }

    /// Calls a method: the operands that were pushed last, so many, become the first locals of a
    /// new frame, which runs.
    pub fn enter(
        &mut self,
        point: Point,
        locals: u16,
        room: u16,
        arguments: usize,
    ) -> Result<(), NoMemory>
        requires given { arguments ≤ length (running self.old).operands }
        requires placed { arguments ≤ locals }
        ensures called { OnOk result (self.new ≡
            entered point (last_operands arguments (running self.old)) locals room
            ∷ with_running (popped arguments) self.old) }
        ensures refused { OnErr result (self.new ≡ self.old) }
    {
        let base = self.running.end;
        let floor = base + locals as usize;
        let end = floor + room as usize;
        let from = self.running.top - arguments;
        self.waiting.reserve(1)?;
        self.places.resize(end, None)?;
        self.places.copy_within(from..self.running.top, base);
        empty(&mut self.places, from, self.running.top);
        self.running.top = from;
        self.waiting.push(self.running).unwrap();
        self.running = Extent {
            point,
            base,
            floor,
            top: floor,
            end,
        };
        Ok(())
    }

    /// Drops the running frame where another waits for it, and tells whether one did. The last
    /// frame stays.
    pub fn leave(&mut self) -> bool
        ensures left { self.new ≡ without_running self.old }
        ensures told { result ≡ is_awaited self.old }
    {
        match self.waiting.pop() {
            Some(caller) => {
                self.places.truncate(self.running.base);
                self.running = caller;
                true
            }
            None => false,
        }
    }

    /// The number of frames.
    pub fn depth(&self) -> usize
        ensures { result ≡ length self.now }
    {
        1 + self.waiting.len()
    }

    /// Where the frame stands that has so many frames above it, none where there are not so many.
    pub fn point_below(&self, above: usize) -> Option<Point>
        ensures { result ≡ option_map (λ f. f.point) (slice_get self.now above) }
    {
        if above == 0 {
            return Some(self.running.point);
        }
        if above > self.waiting.len() {
            return None;
        }
        Some(self.waiting[self.waiting.len() - above].point)
    }
}
