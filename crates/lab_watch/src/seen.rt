//! What is told of a kernel that was looked at: its images, its memory and its view.

use crate::watch::Watch;
use gm_isa::Instr;
use graft_loader::{Images, Loaded};
use kernel_model::NoMemory;
use lab_levels::{LEVELS, LevelRow, PROCESSES, View, append_instruction, append_level, segment_in};
use ram_space::Ram;
use std::alloc::Global;
use text_words::{append, append_with};

impl<'a> Watch<'a> {
    /// The slot of a level's image, and that image.
    fn image_of<'i>(&self, images: &'i Images, level: &LevelRow) -> Option<(u32, &'i Loaded)> {
        let slot = self.view.slot(level.owner, level.point)?;
        let image = images.get(slot)?;
        Some((slot, image))
    }

    /// The instruction at which a level was last seen, if that is known.
    fn instr_of(&self, images: &Images, level: &LevelRow) -> Option<Instr> {
        let place = self.seats.seat(level.process, level.depth).place?;
        let (_, image) = self.image_of(images, level)?;
        match image.code().code().get(place as usize) {
            Some(instr) => Some(*instr),
            None => None,
        }
    }

    /// Follows a level that is there.
    fn follow_level(&mut self, images: &Images, memory: &Ram, level: &LevelRow) {
        let taken = self.instr_of(images, level);
        if self.seats.follow(level, taken) {
            let segment = segment_in(memory, level);
            self.seats.begin_level(level.process, level.depth, segment);
        }
    }

    /// Follows the levels of a process.
    fn follow(&mut self, images: &Images, memory: &Ram, p: u8) {
        for depth in 0..LEVELS {
            match self.view.level(p, depth) {
                None => self.seats.leave(p, depth),
                Some(level) => self.follow_level(images, memory, &level),
            }
        }
    }

    /// This is seen of the kernel now, after something was run: follows the levels, and tells what
    /// stands.
    pub fn see(
        &mut self,
        alloc: Global,
        images: &Images,
        memory: &Ram,
        view: View,
    ) -> Result<(), NoMemory> {
        self.view = view;
        self.outside.pass();
        for p in 0..PROCESSES {
            self.follow(images, memory, p);
        }
        self.tell_standing(alloc)
    }

    /// Tells the next instruction of a process, if it is in a graft and the place is known.
    fn tell_instruction(&mut self, alloc: Global, images: &Images, p: u8) -> Result<(), NoMemory> {
        let Some(level) = self.view.innermost(p) else {
            return Ok(());
        };
        let Some(place) = self.seats.seat(p, level.depth).place else {
            return Ok(());
        };
        let Some((slot, image)) = self.image_of(images, &level) else {
            return Ok(());
        };
        let mut text = Vec::new(alloc);
        append_level(&mut text, p, level.depth)?;
        append_with(&mut text, b", instruction ", level.count.saturating_add(1))?;
        append(&mut text, b": ")?;
        let origin = self.origin(slot);
        append_instruction(
            alloc,
            &mut text,
            self.lowered,
            origin,
            image,
            place as usize,
        )?;
        self.told.add(text.as_slice())
    }

    /// Tells what changed since the last look, and the instruction that a process takes next; keeps
    /// the memory before it.
    pub fn tell_before(
        &mut self,
        alloc: Global,
        images: &Images,
        memory: &Ram,
        p: u8,
    ) -> Result<(), NoMemory> {
        self.tell_changes(alloc, p, memory)?;
        self.tell_instruction(alloc, images, p)?;
        self.outside.see(memory)
    }

    /// Tells what a process's instruction changed, of which this is seen now.
    pub fn tell_after(
        &mut self,
        alloc: Global,
        images: &Images,
        memory: &Ram,
        view: View,
        p: u8,
    ) -> Result<(), NoMemory> {
        let before = self.view.innermost(p);
        self.see(alloc, images, memory, view)?;
        let after = self.view.innermost(p);
        self.outside.compare(before, after, memory);
        self.tell_changes(alloc, p, memory)
    }
}
