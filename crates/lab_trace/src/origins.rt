//! What is known of a run beside its kernel: what the images of slots were made of, and which event
//! of the run each event of the session is.

use kernel_data::NoMemory;
use lab_lowering::Lowered;
use std::alloc::{AllocError, Global};
use text_words::put;

/// The slots of images.
const SLOTS: usize = 32;

/// The graft that a slot's image was made of, and whether it was sealed as it stands.
#[derive(Clone, Copy)]
pub struct Origin {
    /// The number of the graft in the file.
    pub graft: usize,
    /// Whether it was sealed as it stands, and not boxed first.
    pub raw: bool,
}

/// An event of the session: which one of the run it is, and the line of the file.
#[derive(Clone, Copy)]
pub struct Begun {
    pub event: u32,
    pub line: u32,
}

/// What is known of a run beside its kernel.
#[derive(Drop)]
pub struct Known<'a> {
    /// The lab file.
    pub lowered: &'a Lowered,
    /// What each slot's image was made of.
    origins: Vec<Option<Origin>>,
    /// The events of the session, from the first on.
    begun: Vec<Begun>,
    /// How many events the run had.
    pub events: u32,
}

fn no_origins(alloc: Global, slots: usize) -> Result<Vec<Option<Origin>>, AllocError> {
    vec![in alloc; None; slots]
}

impl<'a> Known<'a> {
    /// Nothing was run yet.
    pub fn new(alloc: Global, lowered: &'a Lowered) -> Result<Known<'a>, NoMemory> {
        let Ok(origins) = no_origins(alloc, SLOTS) else {
            return Err(NoMemory);
        };
        Ok(Known {
            lowered,
            origins,
            begun: Vec::new(alloc),
            events: 0,
        })
    }

    /// What the image of a slot was made of.
    pub fn origin(&self, slot: u32) -> Option<Origin> {
        match self.origins.get(slot as usize) {
            Some(origin) => *origin,
            None => None,
        }
    }

    /// The image of a slot was made of this.
    pub fn keep_origin(&mut self, slot: u32, origin: Origin) {
        if let Some(place) = self.origins.get_mut(slot as usize) {
            *place = Some(origin);
        }
    }

    /// The event of the run that an event of the session is.
    pub fn event(&self, number: u32) -> Option<Begun> {
        if number == 0 {
            return None;
        }
        match self.begun.get(number as usize - 1) {
            Some(begun) => Some(*begun),
            None => None,
        }
    }

    /// A line of the file is an event of the run.
    pub fn begin_event(&mut self) {
        self.events = self.events.saturating_add(1);
    }

    /// The session had so many events in all: those that are new are the run's last one, of this
    /// line of the file.
    pub fn follow_events(&mut self, count: u32, line: u32) -> Result<(), NoMemory> {
        let known = self.begun.len();
        for _ in known..count as usize {
            let begun = Begun {
                event: self.events,
                line,
            };
            put(&mut self.begun, begun)?;
        }
        Ok(())
    }
}
