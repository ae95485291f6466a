//! The plain accessors.

ghost use Rattle.std.specs.Prelude.{◌≡◌, ℕ, List, IfOk, slice_index};
ghost use Rattle.kernel_model.specs.declared.Inverse.TheVariants.{Window, Mark};
ghost use Rattle.kernel_model.specs.Objects.{FrameValue};
ghost use Rattle.kernel_model.specs.Access as model;
ghost use Rattle.audit_state.specs.Access.{access_of, callable_of, own_access, Keeps};
ghost use Rattle.audit_state.specs.Things.{things_of, frame_of};

use crate::policies::{byte_of, word_of};
use crate::{Accessed, Callable, Frame, Things};
use kernel_model::{Cause, Inverse, Mode, Need, NoMemory, Object};
use std::alloc::Global;

/// Whether a call asks another point of the same process.
pub fn is_ask(id: u32) -> bool
    ensures { result ≡ model.is_ask id }
{
    13 <= id && id <= 15
}

/// Whether a call gets or sets a policy's parameter.
fn is_tuning(id: u32) -> bool
    ensures { result ≡ model.is_tuning id }
{
    id == 10 || id == 11
}

/// Whether an argument is out of its range, as the numbers alone show.
fn is_out_of_range(id: u32, r0: u32, r1: u32) -> bool
    ensures { result ≡ model.is_out_of_range id r0 r1 }
{
    id <= 1 && 3 < r0
        || (id == 3 && 39 < r0)
        || ((id == 4 || id == 5 || id == 13) && 3 < r0)
        || (id == 5 && 8 < r1)
        || (id == 9 && 255 < r1)
        || (is_tuning(id) && 2 < r0)
        || (id == 12 && 15 < r0)
}

/// Why a call is refused early: its id is above the highest one, another than root's graft tunes,
/// or an argument is out of its range as the numbers alone show.
pub fn early_refusal(highest: u32, id: u32, r0: u32, r1: u32, q: u8) -> Option<Cause>
    ensures { result ≡ model.early_refusal highest id r0 r1 q }
{
    if highest < id {
        Some(Cause::NotCallable(id))
    } else if is_tuning(id) && q != 0 {
        Some(Cause::NotAllowed(id))
    } else if is_out_of_range(id, r0, r1) {
        Some(Cause::BadArgument(id))
    } else {
        None
    }
}

/// An object that is needed in this mode.
pub fn needed(object: Object, mode: Mode) -> Need
    ensures { result ≡ model.needed object mode }
{
    Need {
        object,
        mode,
        by_user: false,
    }
}

/// The object that a plain accessor needs, and in which mode; for `take_lock` the holder of the
/// user lock hinders too.
pub fn accessed(id: u32, r0: u32, q: u8) -> Result<Need, NoMemory>
    ensures { IfOk result (λ n. n ≡ model.accessed id r0 q) }
{
    match id {
        0 => Ok(needed(Object::Cell(q, byte_of(r0)?), Mode::Shared)),
        1 => Ok(needed(Object::Cell(q, byte_of(r0)?), Mode::Exclusive)),
        2 => Ok(needed(Object::Queue, Mode::Shared)),
        3 => Ok(needed(Object::Queue, Mode::Exclusive)),
        4 => Ok(needed(Object::OpenFile(q, byte_of(r0)?), Mode::Shared)),
        5 => Ok(needed(Object::OpenFile(q, byte_of(r0)?), Mode::Exclusive)),
        6..=8 => Ok(needed(Object::Cache, Mode::Shared)),
        9 => Ok(needed(Object::Cache, Mode::Exclusive)),
        10 => Ok(needed(Object::Pol(byte_of(r0)?), Mode::Shared)),
        11 => Ok(needed(Object::Pol(byte_of(r0)?), Mode::Exclusive)),
        _ => Ok(Need {
            object: Object::Lock(byte_of(r0)?),
            mode: Mode::Exclusive,
            by_user: true,
        }),
    }
}

/// The point that an ask names, of the asker's own process.
pub fn asked_point(id: u32, r0: u32) -> Result<u8, NoMemory>
    ensures { IfOk result (λ pt. pt ≡ model.asked_point id r0) }
{
    match id {
        13 => byte_of(r0),
        14 => Ok(4),
        _ => Ok(5),
    }
}

/// The objects of an ask, before the graft of its point.
pub fn asked_objects(id: u32, r0: u32, q: u8) -> Result<[Need; 2], NoMemory>
    ensures { IfOk result (λ ns. ns ≡ model.asked_objects id r0 q) }
{
    match id {
        13 => Ok([
            needed(Object::OpenFile(q, byte_of(r0)?), Mode::Shared),
            needed(Object::Pol(0), Mode::Shared),
        ]),
        14 => Ok([
            needed(Object::Cache, Mode::Shared),
            needed(Object::Pol(1), Mode::Shared),
        ]),
        _ => Ok([
            needed(Object::Queue, Mode::Shared),
            needed(Object::Pol(2), Mode::Shared),
        ]),
    }
}

/// The graft of the point that an ask names.
pub fn asked_graft(id: u32, r0: u32, q: u8) -> Result<Need, NoMemory>
    ensures { IfOk result (λ n. n ≡ model.asked_graft id r0 q) }
{
    let pt = asked_point(id, r0)?;
    Ok(needed(Object::Graft(q, pt), Mode::Exclusive))
}

/// The accessor of an id.
fn callable(id: u32) -> Callable
    ensures { callable_of result ≡ model.callable id }
{
    match id {
        0 => Callable::CellGet,
        1 => Callable::CellSet,
        2 => Callable::NiceGet,
        3 => Callable::NiceSet,
        4 => Callable::WindowGet,
        5 => Callable::WindowSet,
        6 => Callable::FramesMine,
        7 => Callable::FrameAt,
        8 => Callable::FrameBlock,
        9 => Callable::FrameMark,
        10 => Callable::TuneGet,
        11 => Callable::TuneSet,
        _ => Callable::TakeLock,
    }
}

/// The highest value of a policy's parameter, if it has one.
fn param_top(kind: u32, policy: u8) -> Option<u32>
    ensures { result ≡ model.param_top kind policy }
{
    if policy == 0 {
        None
    } else if kind == 0 {
        Some(8)
    } else if kind == 1 {
        Some(255)
    } else {
        Some(39)
    }
}

/// Whether it is parameter 0, with a value in the range.
fn in_range(top: Option<u32>, k: u32, v: u32) -> bool
    ensures { result ≡ model.in_range top k v }
{
    match top {
        None => false,
        Some(top) => k == 0 && v <= top,
    }
}

/// Whether a parameter of a policy of a kind takes a value.
pub fn in_range_of(kind: u32, policy: u8, k: u32, v: u32) -> bool
    ensures { result ≡ model.in_range (model.param_top kind policy) k v }
{
    in_range(param_top(kind, policy), k, v)
}

/// What a frame of a process itself gives; another's is refused, and one that isn't in use is a bad
/// argument.
fn own_frame(id: u32, q: u8, frame: Option<Frame>) -> Result<Frame, Cause>
    ensures { (bytes : List ℕ) (then : FrameValue → model.Access) →
        own_access result bytes then ≡ model.own_frame id q (frame_of bytes frame) then }
{
    match frame {
        None => Err(Cause::BadArgument(id)),
        Some(f) => {
            if f.owner == q {
                Ok(f)
            } else {
                Err(Cause::NotYours(id))
            }
        }
    }
}

impl Things {
    /// A cell gets a value.
    fn access_cell(&mut self, q: u8, k: u32, v: u32) -> Result<Accessed, NoMemory>
        ensures value { IfOk result (λ a. (bytes : ℕ → List ℕ) →
            access_of a (things_of bytes self.new)
            ≡ model.access_by model.CellSet 0 k v 0 q (things_of bytes self.old)) }
        ensures kept { IfOk result (λ a. (bytes : ℕ → List ℕ) →
            Keeps a (things_of bytes self.old) (things_of bytes self.new)) }
    {
        let value = self.cell(q, k);
        let cell = byte_of(k)?;
        self.set_cell(q, k, v)?;
        let undo = Inverse::Cell {
            process: q,
            cell,
            value,
        };
        Ok(Accessed::Changes(value, undo))
    }

    /// A process gets a nice.
    fn access_nice(&mut self, q: u8, v: u32) -> Result<Accessed, NoMemory>
        ensures value { IfOk result (λ a. (bytes : ℕ → List ℕ) →
            access_of a (things_of bytes self.new)
            ≡ model.access_by model.NiceSet 0 v 0 0 q (things_of bytes self.old)) }
        ensures kept { IfOk result (λ a. (bytes : ℕ → List ℕ) →
            Keeps a (things_of bytes self.old) (things_of bytes self.new)) }
    {
        let nice = self.nice(q);
        let value = byte_of(v)?;
        self.set_nice(q, value);
        Ok(Accessed::Changes(u32::from(nice), Inverse::Nice(q, nice)))
    }

    /// The window of an open file.
    fn access_window(&self, id: u32, q: u8, fd: u32) -> Accessed
        ensures value { (bytes : ℕ → List ℕ) →
            access_of result (things_of bytes self.now)
            ≡ model.access_by model.WindowGet id fd 0 0 q (things_of bytes self.now) }
        ensures kept { (bytes : ℕ → List ℕ) →
            Keeps result (things_of bytes self.now) (things_of bytes self.now) }
    {
        match self.file(q, fd) {
            None => Accessed::Refuses(Cause::BadArgument(id)),
            Some(opened) => Accessed::Gives(u32::from(opened.window)),
        }
    }

    /// An open file, which has this window, gets another.
    fn change_window(&mut self, q: u8, fd: u32, v: u32, window: u8) -> Result<Accessed, NoMemory>
        ensures value { IfOk result (λ a. (bytes : ℕ → List ℕ) →
            access_of a (things_of bytes self.new) ≡ model.Changes window (Window q fd window)
            (model.set_window q fd v (things_of bytes self.old))) }
        ensures kept { IfOk result (λ a. (bytes : ℕ → List ℕ) →
            Keeps a (things_of bytes self.old) (things_of bytes self.new)) }
    {
        let descriptor = byte_of(fd)?;
        let value = byte_of(v)?;
        self.set_window(q, fd, value)?;
        let undo = Inverse::Window {
            process: q,
            descriptor,
            value: window,
        };
        Ok(Accessed::Changes(u32::from(window), undo))
    }

    /// An open file gets a window, if one is open.
    fn access_window_set(&mut self, id: u32, q: u8, fd: u32, v: u32) -> Result<Accessed, NoMemory>
        ensures value { IfOk result (λ a. (bytes : ℕ → List ℕ) →
            access_of a (things_of bytes self.new)
            ≡ model.access_by model.WindowSet id fd v 0 q (things_of bytes self.old)) }
        ensures kept { IfOk result (λ a. (bytes : ℕ → List ℕ) →
            Keeps a (things_of bytes self.old) (things_of bytes self.new)) }
    {
        match self.file(q, fd) {
            None => Ok(Accessed::Refuses(Cause::BadArgument(id))),
            Some(opened) => {
                let accessed = self.change_window(q, fd, v, opened.window)?;
                Ok(accessed)
            }
        }
    }

    /// How many frames a process has.
    fn access_frames(&self, alloc: Global, q: u8) -> Result<Accessed, NoMemory>
        ensures value { IfOk result (λ a. (bytes : ℕ → List ℕ) →
            access_of a (things_of bytes self.now)
            ≡ model.access_by model.FramesMine 0 0 0 0 q (things_of bytes self.now)) }
        ensures kept { IfOk result (λ a. (bytes : ℕ → List ℕ) →
            Keeps a (things_of bytes self.now) (things_of bytes self.now)) }
    {
        let frames = self.frames_of(alloc, q)?;
        let count = word_of(frames.len())?;
        Ok(Accessed::Gives(count))
    }

    /// The frame of a process by its place in the order of use.
    fn access_frame_at(
        &self,
        alloc: Global,
        id: u32,
        q: u8,
        place: u32,
    ) -> Result<Accessed, NoMemory>
        ensures value { IfOk result (λ a. (bytes : ℕ → List ℕ) →
            access_of a (things_of bytes self.now)
            ≡ model.access_by model.FrameAt id place 0 0 q (things_of bytes self.now)) }
        ensures kept { IfOk result (λ a. (bytes : ℕ → List ℕ) →
            Keeps a (things_of bytes self.now) (things_of bytes self.now)) }
    {
        let frames = self.frames_of(alloc, q)?;
        match frames.get(place as usize) {
            None => Ok(Accessed::Refuses(Cause::BadArgument(id))),
            Some(f) => Ok(Accessed::Gives(*f)),
        }
    }

    /// The block of a frame.
    fn access_block(&self, id: u32, q: u8, f: u32) -> Accessed
        ensures value { (bytes : ℕ → List ℕ) →
            access_of result (things_of bytes self.now)
            ≡ model.access_by model.FrameBlock id f 0 0 q (things_of bytes self.now) }
        ensures kept { (bytes : ℕ → List ℕ) →
            Keeps result (things_of bytes self.now) (things_of bytes self.now) }
    {
        match own_frame(id, q, self.frame(f)) {
            Err(cause) => Accessed::Refuses(cause),
            Ok(frame) => Accessed::Gives(frame.block),
        }
    }

    /// A frame, which has this mark, gets another.
    fn change_mark(&mut self, f: u32, v: u32, mark: u8) -> Result<Accessed, NoMemory>
        ensures value { IfOk result (λ a. (bytes : ℕ → List ℕ) →
            access_of a (things_of bytes self.new)
            ≡ model.Changes mark (Mark f mark) (model.set_mark f v (things_of bytes self.old))) }
        ensures kept { IfOk result (λ a. (bytes : ℕ → List ℕ) →
            Keeps a (things_of bytes self.old) (things_of bytes self.new)) }
    {
        let frame = byte_of(f)?;
        let value = byte_of(v)?;
        self.set_mark(f, value)?;
        Ok(Accessed::Changes(u32::from(mark), Inverse::Mark(frame, mark)))
    }

    /// A frame of the process itself gets a mark.
    fn access_mark(&mut self, id: u32, q: u8, f: u32, v: u32) -> Result<Accessed, NoMemory>
        ensures value { IfOk result (λ a. (bytes : ℕ → List ℕ) →
            access_of a (things_of bytes self.new)
            ≡ model.access_by model.FrameMark id f v 0 q (things_of bytes self.old)) }
        ensures kept { IfOk result (λ a. (bytes : ℕ → List ℕ) →
            Keeps a (things_of bytes self.old) (things_of bytes self.new)) }
    {
        match own_frame(id, q, self.frame(f)) {
            Err(cause) => Ok(Accessed::Refuses(cause)),
            Ok(frame) => {
                let accessed = self.change_mark(f, v, frame.mark)?;
                Ok(accessed)
            }
        }
    }

    /// The parameter of the chosen policy of a kind.
    fn access_tune(&self, id: u32, kind: u32, k: u32) -> Result<Accessed, NoMemory>
        ensures value { IfOk result (λ a. (bytes : ℕ → List ℕ) →
            access_of a (things_of bytes self.now)
            ≡ model.access_by model.TuneGet id kind k 0 0 (things_of bytes self.now)) }
        ensures kept { IfOk result (λ a. (bytes : ℕ → List ℕ) →
            Keeps a (things_of bytes self.now) (things_of bytes self.now)) }
    {
        let chosen = self.chosen(kind);
        if in_range_of(kind, chosen, k, 0) {
            Ok(Accessed::Gives(self.param(kind, u32::from(chosen))))
        } else {
            Ok(Accessed::Refuses(Cause::BadArgument(id)))
        }
    }

    /// The parameter of the chosen policy of a kind, which has this value, gets another.
    fn change_param(&mut self, kind: u32, k: u32, v: u32, old: u32) -> Result<Accessed, NoMemory>
        ensures value { IfOk result (λ a. (bytes : ℕ → List ℕ) →
            access_of a (things_of bytes self.new)
            ≡ model.tune_change kind k v old (things_of bytes self.old)) }
        ensures kept { IfOk result (λ a. (bytes : ℕ → List ℕ) →
            Keeps a (things_of bytes self.old) (things_of bytes self.new)) }
    {
        let number = byte_of(kind)?;
        let parameter = byte_of(k)?;
        self.set_param(kind, v)?;
        let undo = Inverse::Tune {
            kind: number,
            parameter,
            value: old,
        };
        Ok(Accessed::Changes(old, undo))
    }

    /// The parameter of the chosen policy of a kind gets a value in its range.
    fn access_tune_set(&mut self, id: u32, kind: u32, k: u32, v: u32) -> Result<Accessed, NoMemory>
        ensures value { IfOk result (λ a. (bytes : ℕ → List ℕ) →
            access_of a (things_of bytes self.new)
            ≡ model.access_by model.TuneSet id kind k v 0 (things_of bytes self.old)) }
        ensures kept { IfOk result (λ a. (bytes : ℕ → List ℕ) →
            Keeps a (things_of bytes self.old) (things_of bytes self.new)) }
    {
        let chosen = self.chosen(kind);
        if in_range_of(kind, chosen, k, v) {
            let old = self.param(kind, u32::from(chosen));
            let accessed = self.change_param(kind, k, v, old)?;
            Ok(accessed)
        } else {
            Ok(Accessed::Refuses(Cause::BadArgument(id)))
        }
    }

    /// What an accessor does, on arguments r0, r1 and r2.
    fn access_by(
        &mut self,
        alloc: Global,
        what: Callable,
        id: u32,
        args: [u32; 3],
        q: u8,
    ) -> Result<Accessed, NoMemory>
        ensures value { IfOk result (λ a. (bytes : ℕ → List ℕ) → access_of a (things_of bytes self.new)
            ≡ model.access_by (callable_of what) id (slice_index args 0) (slice_index args 1)
            (slice_index args 2) q (things_of bytes self.old)) }
        ensures kept { IfOk result (λ a. (bytes : ℕ → List ℕ) →
            Keeps a (things_of bytes self.old) (things_of bytes self.new)) }
    {
        let [r0, r1, r2] = args;
        match what {
            Callable::CellGet => Ok(Accessed::Gives(self.cell(q, r0))),
            Callable::CellSet => self.access_cell(q, r0, r1),
            Callable::NiceGet => Ok(Accessed::Gives(u32::from(self.nice(q)))),
            Callable::NiceSet => self.access_nice(q, r0),
            Callable::WindowGet => Ok(self.access_window(id, q, r0)),
            Callable::WindowSet => self.access_window_set(id, q, r0, r1),
            Callable::FramesMine => self.access_frames(alloc, q),
            Callable::FrameAt => self.access_frame_at(alloc, id, q, r0),
            Callable::FrameBlock => Ok(self.access_block(id, q, r0)),
            Callable::FrameMark => self.access_mark(id, q, r0, r1),
            Callable::TuneGet => self.access_tune(id, r0, r1),
            Callable::TuneSet => self.access_tune_set(id, r0, r1, r2),
            Callable::TakeLock => Ok(Accessed::Gives(r0)),
        }
    }

    /// A plain accessor of process q, on arguments r0, r1 and r2. Only a change leaves other
    /// objects.
    pub fn access(
        &mut self,
        alloc: Global,
        id: u32,
        args: [u32; 3],
        q: u8,
    ) -> Result<Accessed, NoMemory>
        ensures value { IfOk result (λ a. (bytes : ℕ → List ℕ) → access_of a (things_of bytes self.new)
            ≡ model.access id (slice_index args 0) (slice_index args 1) (slice_index args 2) q
            (things_of bytes self.old)) }
        ensures kept { IfOk result (λ a. (bytes : ℕ → List ℕ) →
            Keeps a (things_of bytes self.old) (things_of bytes self.new)) }
    {
        self.access_by(alloc, callable(id), id, args, q)
    }
}
