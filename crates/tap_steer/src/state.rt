//! The table in memory, and what is read from it.

ghost use Rattle.std.specs.Prelude.{◌≡◌, ℕ, ◌<◌, ◌≤◌, length, map, IsTrue, IfSome, IfOk, All, ◌↔◌};
ghost use Rattle.std.specs.Option.{option_map};
ghost use Rattle.tap_steer.specs.Table.{new_file, new_name};
ghost use Rattle.tap_steer.specs.Named.{AreLimits};

use crate::files::{Attachment, File};
use crate::operation::Op;
use crate::selection::Select;
use crate::slot::Slot;
use crate::steer::NAMES;
use ebpf_code::Program;
use ebpf_run::evaluate;
use std::alloc::{AllocError, Global};
use std::marker::Model;
use tap_frame::Shape;
use tap_queues::Row;

/// How many frames the ring of a file holds at most.
const MAX_CAPACITY: u16 = 1024;

/// The table in memory: files, names and programs by number.
#[derive(Drop)]
pub(crate) struct State {
    pub(crate) clock: u64,
    pub(crate) files: Vec<File>,
    pub(crate) slots: Vec<Slot>,
    pub(crate) programs: Vec<Program>,
}

// Clauses see the table.
impl Model for State {
    ghost use Rattle.tap_steer.specs.Table.{Table};

    ghost Value = { Table };

    ghost use Rattle.tap_steer.specs.State.{table_in};

    ghost view = { table_in };
}

impl State {
    ghost use Rattle.tap_steer.specs.Table as word;
    ghost use Rattle.tap_steer.specs.Select as chosen;
    ghost use Rattle.tap_steer.specs.Sound.{IsSound, IsPlace, rows_of};
    ghost use Rattle.tap_steer.specs.Named.{IsFile, IsNamed};

    /// The first table: files with these capacities, and names with these limits and ages of flows.
    #[tactic(auto, unfolding(crate::specs::Table::first))]
    pub fn new(
        alloc: Global,
        programs: Vec<Program>,
        capacities: &[u16],
        flows: &[(u32, u64)],
    ) -> Result<State, AllocError>
        requires { All AreLimits flows.now }
        ensures { IfOk result (λ state. state ≡ word.first programs.items capacities.now flows.now) }
    {
        Ok(State {
            clock: 0,
            files: new_files(alloc, capacities)?,
            slots: new_slots(alloc, flows)?,
            programs,
        })
    }

    /// The file of a number.
    pub fn file(&self, file: u16) -> File
        requires { IsFile self.now file }
        ensures { result ≡ word.file_at self.now file }
    {
        self.files[usize::from(file)]
    }

    /// Whether what an operation names is there.
    pub fn is_named(&self, op: &Op) -> bool
        ensures { IsTrue result ↔ IsNamed self.now op.now }
    {
        match *op {
            Op::SetIff { file, device, .. } => self.has_file(file) && usize::from(device) < NAMES,
            Op::Steering { file, program } | Op::Filter { file, program } => {
                self.has_file(file) && self.has_program(program)
            }
            Op::Resize { file, capacity } => {
                self.has_file(file) && 1 <= capacity && capacity <= MAX_CAPACITY
            }
            Op::SetQueue { file, .. }
            | Op::Shut { file }
            | Op::HdrSize { file, .. }
            | Op::Persist { file, .. }
            | Op::Learn { file, .. }
            | Op::Back { file, .. } => self.has_file(file),
            Op::Tick { .. } => true,
        }
    }

    fn has_file(&self, file: u16) -> bool
        ensures { IsTrue result ↔ IsFile self.now file }
    {
        usize::from(file) < self.files.len()
    }

    fn has_program(&self, program: Option<u16>) -> bool
        ensures { IsTrue result ↔ IsPlace (length self.now.programs) program }
    {
        match program {
            Some(program) => usize::from(program) < self.programs.len(),
            None => true,
        }
    }

    /// The device of a file.
    pub fn device_of(&self, file: u16) -> Option<u16>
        requires { IsFile self.now file }
        ensures { result ≡ word.device_of self.now file }
    {
        self.file(file).attachment.home()
    }

    /// Whether a device exists.
    pub fn exists(&self, device: u16) -> bool
        requires { device < length self.now.names }
        ensures { result ≡ word.exists self.now device }
    {
        self.slots[usize::from(device)].exists()
    }

    /// What stands in front of a file's frames.
    #[tactic(auto, using(crate::proofs::Homes::home_is_name, crate::proofs::Homes::size_is_good))]
    pub fn shape_of(&self, file: u16) -> Option<Shape>
        requires file { IsFile self.now file }
        requires sound { IsSound self.now }
        ensures { option_map chosen.parts_of result ≡ chosen.shape_of self.now file }
    {
        let device = self.device_of(file)?;
        self.slots[usize::from(device)].shape()
    }

    /// Whether a write to a file is learnt.
    #[tactic(auto, using(crate::proofs::Homes::enabled_is_name))]
    pub fn learns(&self, file: u16) -> bool
        requires file { IsFile self.now file }
        requires sound { IsSound self.now }
        ensures { result ≡ chosen.learns self.now file }
    {
        match self.file(file).attachment {
            Attachment::Enabled(device) => self.slots[usize::from(device)].is_learning(),
            Attachment::Disabled(_) | Attachment::Unattached => false,
        }
    }

    /// What a program answers on a frame.
    fn result_at(&self, program: u16, frame: &[u8]) -> u32
        requires { program < length self.now.programs }
        ensures { result ≡ chosen.result_at self.now program frame.now }
    {
        evaluate(&self.programs[usize::from(program)], frame)
    }

    /// How many bytes of a frame a filter lets pass.
    fn allowed(&self, filter: Option<u16>, frame: &[u8]) -> u32
        requires { IsPlace (length self.now.programs) filter }
        ensures { result ≡ chosen.allowed self.now filter frame.now }
    {
        match filter {
            Some(program) => self.result_at(program, frame),
            None => u32::MAX,
        }
    }

    /// The index of the queue that a frame gets.
    fn index_in(&self, slot: &Slot, steering: Option<u16>, frame: &[u8]) -> u16
        requires place { IsPlace (length self.now.programs) steering }
        requires queues { 0 < length (rows_of slot.now.device) }
        ensures { IfSome slot.now.device (λ d. result ≡ chosen.index_in self.now d steering frame.now) }
    {
        match steering {
            Some(program) => (self.result_at(program, frame) & 0xffff) as u16 % slot.len(),
            None => slot.index_by_flow(frame),
        }
    }

    /// What becomes of a frame that is sent to a device.
    #[tactic(auto, using(crate::proofs::Homes::selecting), unfolding(crate::specs::Select::select))]
    pub fn select(&self, device: u16, frame: &[u8]) -> Select
        requires name { device < length self.now.names }
        requires sound { IsSound self.now }
        ensures { result ≡ chosen.select self.now device frame.now }
    {
        let slot = &self.slots[usize::from(device)];
        let Some(settings) = slot.settings() else {
            return Select::NoQueue;
        };
        if slot.len() == 0 {
            return Select::NoQueue;
        }
        let index = self.index_in(slot, settings.steering, frame);
        self.filtered(slot.at(index), settings.filter, frame)
    }

    /// What becomes of a frame that gets this row, if there is one, and passes a filter.
    fn filtered(&self, row: Option<Row>, filter: Option<u16>, frame: &[u8]) -> Select
        requires place { IsPlace (length self.now.programs) filter }
        requires file { IfSome row (λ r. IsFile self.now r.file) }
        ensures { result ≡ chosen.filtered self.now (chosen.allowed self.now filter frame.now) frame.now row }
    {
        let Some(row) = row else {
            return Select::NoQueue;
        };
        let most = self.allowed(filter, frame);
        if most == 0 {
            return Select::Filtered;
        }
        let keep = (most as usize).min(frame.len()) as u32;
        self.goes_to(row, keep)
    }

    /// Where a frame goes that gets this row.
    fn goes_to(&self, row: Row, keep: u32) -> Select
        requires { IsFile self.now row.file }
        ensures { result ≡ chosen.goes_to self.now row keep }
    {
        let file = self.file(row.file);
        Select::Row {
            row,
            keep,
            resizes: file.resizes,
            capacity: file.capacity,
        }
    }
}

/// Files that were never attached, with these capacities.
fn new_files(alloc: Global, capacities: &[u16]) -> Result<Vec<File>, AllocError>
    ensures { IfOk result (λ files. files.items ≡ map new_file capacities.now) }
{
    capacities
        .iter()
        .map(|capacity| File::new(*capacity))
        .collect(alloc)
}

/// Names without a device, with memory for flows of these limits and ages.
fn new_slots(alloc: Global, flows: &[(u32, u64)]) -> Result<Vec<Slot>, AllocError>
    requires { All AreLimits flows.now }
    ensures { IfOk result (λ slots. slots.items ≡ map new_name flows.now) }
{
    let mut slots = Vec::new(alloc);
    for (limit, age) in flows {
        slots.push(Slot::new(alloc, *limit, *age)?)?;
    }
    Ok(slots)
}
