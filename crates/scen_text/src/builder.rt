//! A scenario that is built line by line.

ghost use Rattle.std.specs.Prelude.{◌≡◌, ◌≤◌, ◌++◌, ◌∷◌, [], OnOk, length};
ghost use Rattle.scen_text.specs.Lines.{lines_before, open_phase, turns_of};
ghost use Rattle.scen_words.specs.declared.limits.TheConstants.{MAX_COMMANDS, MAX_NAMES, MAX_TURNS};

use crate::declared::{
    has_file, has_flows, has_guest, has_program, has_vhost, is_unknown, region_refusal,
};
use crate::naming::{add_name, number_for, passes_names};
use crate::phases::phase_of;
use crate::place::Place;
use crate::scenario::{Line, Phase, Scenario};
use scen_words::meaning::{
    command_of, commanded_name, declared_name, file, flows, program, region, u16_at, vhost,
};
use scen_words::{
    Command, CommandWord, Declaration, DeclarationWord, MAX_COMMANDS, MAX_TURNS, OrMemory,
    Sentence, Why, sentence_of,
};
use sqlite_items::Items;
use std::alloc::{AllocError, Global};
use text_fields::{DeviceName, Value};

/// What is kept of the lines of a scenario so far.
#[derive(Drop)]
pub struct Builder {
    pub declarations: Items<Declaration>,
    pub names: Items<DeviceName>,
    /// The phases that are whole.
    pub phases: Items<Phase>,
    /// The lines of the phase that is open.
    pub lines: Items<Line>,
    /// Whether a command, `phase` or `end` was there.
    pub started: bool,
    pub place: Place,
    pub commands: u32,
    pub turns: u32,
    ghost few_names: { length names ≤ MAX_NAMES },
    ghost few_commands: { commands ≤ MAX_COMMANDS },
    ghost few_turns: { turns ≤ MAX_TURNS },
}

// How many turns a command is: one or none.
fn turns_of(command: &Command) -> u32
    ensures { result ≡ turns_of command.now }
{
    if command.is_turn() { 1 } else { 0 }
}

// The line begins a run, or goes on with the phase that is open.
fn push_line(
    lines: &mut Items<Line>,
    alloc: Global,
    place: Place,
    line: Line,
) -> Result<(), AllocError>
    ensures { OnOk result (lines.new ≡ lines_before place lines.old ++ line ∷ []) }
{
    match place {
        Place::Outside => {
            *lines = Items::new(alloc);
            lines.push(line)
        }
        Place::Run => lines.push(line),
        Place::Block { .. } => lines.push(line),
    }
}

// The phase that is open joins those that are whole.
fn push_open(
    phases: &mut Items<Phase>,
    alloc: Global,
    place: Place,
    lines: Items<Line>,
) -> Result<(), AllocError>
    ensures { OnOk result (phases.new ≡ phases.old ++ open_phase place lines) }
{
    match place {
        Place::Outside => Ok(()),
        Place::Run => phases.push(phase_of(alloc, 1, lines)?),
        Place::Block { actors } => phases.push(phase_of(alloc, actors, lines)?),
    }
}

impl Builder {
    ghost use Rattle.std.specs.Prelude.{◌+◌, false, ◌<◌, IfOk};
    ghost use Rattle.std.specs.Option.{option_copied};
    ghost use Rattle.scen_words.specs.declared.sentence.Sentence.TheVariants as sentence;
    ghost use Rattle.scen_words.specs.declared.word.DeclarationWord.TheVariants as declaration;
    ghost use Rattle.scen_text.specs.Building.{HearsLine, Keeps, Takes, closed, shown, standing, with_command, with_declaration};
    ghost use Rattle.scen_text.specs.Before.{add_line};
    ghost use Rattle.std.specs.Prelude.{List};
    ghost use Rattle.scen_text.specs.Refusals.{passes_limit, passes_names, said_in};
    ghost use Rattle.scen_text.specs.Scenario.{scenario_of};
    ghost use Rattle.scen_words.specs.declared.sentence.Sentence.{Sentence};

    pub fn new(alloc: Global) -> Builder
        ensures { Keeps result [] }
    {
        Builder {
            declarations: Items::new(alloc),
            names: Items::new(alloc),
            phases: Items::new(alloc),
            lines: Items::new(alloc),
            started: false,
            place: Place::Outside,
            commands: 0,
            turns: 0,
        }
    }

    // Adds a declaration that is refused for nothing, and its name.
    fn add_declaration(
        &mut self,
        declaration: Declaration,
        name: Option<&DeviceName>,
    ) -> Result<(), AllocError>
        requires { passes_names self.old.names (option_copied name) ≡ false }
        ensures standing { OnOk result (standing self.new
            ≡ with_declaration (standing self.old) declaration (option_copied name.entry)) }
        ensures phases { OnOk result (shown self.new ≡ shown self.old) }
    {
        add_name(&mut self.names, name)?;
        self.declarations.push(declaration)
    }

    fn declare_file(&mut self, values: &[Value], last: bool) -> Result<(), OrMemory<Why>>
        requires { self.old.started ≡ false }
        ensures { Takes last self.old (sentence.Declares declaration.File values.now) result self.new }
    {
        if has_file(self.declarations.as_slice(), u16_at(values, 0)) {
            return Err(OrMemory::Fault(Why::Twice));
        }
        self.add_declaration(file(values), None)?;
        Ok(())
    }

    fn declare_region(
        &mut self,
        alloc: Global,
        values: &[Value],
        last: bool,
    ) -> Result<(), OrMemory<Why>>
        requires { self.old.started ≡ false }
        ensures { Takes last self.old (sentence.Declares declaration.Region values.now) result self.new }
    {
        if let Some(fault) = region_refusal(alloc, self.declarations.as_slice(), values)? {
            return Err(OrMemory::Fault(Why::Region(fault)));
        }
        self.add_declaration(region(values), None)?;
        Ok(())
    }

    fn declare_vhost(&mut self, values: &[Value], last: bool) -> Result<(), OrMemory<Why>>
        requires { self.old.started ≡ false }
        ensures { Takes last self.old (sentence.Declares declaration.Vhost values.now) result self.new }
    {
        if has_vhost(self.declarations.as_slice(), u16_at(values, 0)) {
            return Err(OrMemory::Fault(Why::Twice));
        }
        if !has_guest(self.declarations.as_slice(), u16_at(values, 1)) {
            return Err(OrMemory::Fault(Why::Unknown));
        }
        self.add_declaration(vhost(values), None)?;
        Ok(())
    }

    fn declare_program(
        &mut self,
        alloc: Global,
        values: &[Value],
        last: bool,
    ) -> Result<(), OrMemory<Why>>
        requires { self.old.started ≡ false }
        ensures { Takes last self.old (sentence.Declares declaration.Prog values.now) result self.new }
    {
        if has_program(self.declarations.as_slice(), u16_at(values, 0)) {
            return Err(OrMemory::Fault(Why::Twice));
        }
        match program(alloc, values) {
            Ok(declaration) => {
                self.add_declaration(declaration, None)?;
                Ok(())
            }
            Err(OrMemory::Fault(fault)) => Err(OrMemory::Fault(Why::Program(fault))),
            Err(OrMemory::NoMemory) => Err(OrMemory::NoMemory),
        }
    }

    fn declare_flows(&mut self, values: &[Value], last: bool) -> Result<(), OrMemory<Why>>
        requires { self.old.started ≡ false }
        ensures { Takes last self.old (sentence.Declares declaration.Flows values.now) result self.new }
    {
        let device = declared_name(DeclarationWord::Flows, values);
        let name = number_for(self.names.as_slice(), device) as u16;
        if has_flows(self.declarations.as_slice(), name) {
            return Err(OrMemory::Fault(Why::Twice));
        }
        if passes_names(self.names.as_slice(), device) {
            return Err(OrMemory::Fault(Why::Limit));
        }
        self.add_declaration(flows(name, values), device)?;
        Ok(())
    }

    fn declare(
        &mut self,
        alloc: Global,
        word: DeclarationWord,
        values: &[Value],
        last: bool,
    ) -> Result<(), OrMemory<Why>>
        ensures { Takes last self.old (sentence.Declares word values.now) result self.new }
    {
        if self.started {
            return Err(OrMemory::Fault(Why::Late));
        }
        match word {
            DeclarationWord::File => self.declare_file(values, last),
            DeclarationWord::Region => self.declare_region(alloc, values, last),
            DeclarationWord::Vhost => self.declare_vhost(values, last),
            DeclarationWord::Prog => self.declare_program(alloc, values, last),
            DeclarationWord::Flows => self.declare_flows(values, last),
        }
    }

    // Whether a command would be one too many, or be one turn or name too many.
    #[tactic(auto, unfolding(crate::specs::Refusals::passes_limit))]
    fn passes_limit(&self, name: Option<&DeviceName>, command: &Command) -> bool
        ensures { result
            ≡ passes_limit self.now.commands self.now.turns self.now.names (option_copied name.entry) command.now }
    {
        let more_commands = self.commands >= MAX_COMMANDS;
        let more_turns = command.is_turn() & (self.turns >= MAX_TURNS);
        more_commands | more_turns | passes_names(self.names.as_slice(), name)
    }

    // Adds a command that is refused for nothing.
    fn add_command(
        &mut self,
        alloc: Global,
        actor: u16,
        name: Option<&DeviceName>,
        command: Command,
    ) -> Result<(), AllocError>
        requires room { passes_names self.old.names (option_copied name) ≡ false }
        requires commands { self.old.commands < MAX_COMMANDS }
        requires turns { self.old.turns + turns_of command ≤ MAX_TURNS }
        ensures standing { OnOk result (standing self.new
            ≡ with_command (standing self.old) command (option_copied name.entry)) }
        ensures phases { OnOk result (shown self.new ≡ add_line self.old.place
            (record { actor = actor; number = self.old.commands; command = command }) (shown self.old)) }
    {
        let turns = turns_of(&command);
        let line = Line {
            actor,
            number: self.commands,
            command,
        };
        push_line(&mut self.lines, alloc, self.place, line)?;
        add_name(&mut self.names, name)?;
        self.started = true;
        self.place = self.place.after();
        self.commands += 1;
        self.turns += turns;
        Ok(())
    }

    fn order(
        &mut self,
        alloc: Global,
        actor: Option<u64>,
        word: CommandWord,
        values: &[Value],
        last: bool,
    ) -> Result<(), OrMemory<Why>>
        ensures { Takes last self.old (sentence.Orders actor word values.now) result self.new }
    {
        let name = commanded_name(word, values);
        let number = number_for(self.names.as_slice(), name) as u16;
        let command = command_of(alloc, number, word, values)?;
        if is_unknown(self.declarations.as_slice(), &command) {
            return Err(OrMemory::Fault(Why::Unknown));
        }
        let Some(actor) = self.place.actor(actor) else {
            return Err(OrMemory::Fault(Why::Phase));
        };
        if last & self.place.is_block() {
            return Err(OrMemory::Fault(Why::Phase));
        }
        if self.passes_limit(name, &command) {
            return Err(OrMemory::Fault(Why::Limit));
        }
        self.add_command(alloc, actor, name, command)?;
        Ok(())
    }

    // Ends the phase that is open.
    fn close(&mut self, alloc: Global) -> Result<(), AllocError>
        ensures standing { OnOk result (standing self.new ≡ closed (standing self.old)) }
        ensures phases { OnOk result (self.new.phases ≡ shown self.old) }
        ensures lines { OnOk result (self.new.lines ≡ []) }
    {
        let lines = std::mem::replace(&mut self.lines, Items::new(alloc));
        push_open(&mut self.phases, alloc, self.place, lines)?;
        self.place = Place::Outside;
        Ok(())
    }

    fn open(&mut self, alloc: Global, actors: u16, last: bool) -> Result<(), OrMemory<Why>>
        ensures { Takes last self.old (sentence.Opens actors) result self.new }
    {
        if self.place.is_block() | last {
            return Err(OrMemory::Fault(Why::Phase));
        }
        self.close(alloc)?;
        self.started = true;
        self.place = Place::Block { actors };
        Ok(())
    }

    fn end(&mut self, alloc: Global, last: bool) -> Result<(), OrMemory<Why>>
        ensures { Takes last self.old sentence.Ends result self.new }
    {
        if !self.place.is_block() {
            return Err(OrMemory::Fault(Why::Phase));
        }
        self.close(alloc)?;
        self.started = true;
        Ok(())
    }

    fn skip(&self, last: bool) -> Result<(), OrMemory<Why>>
        ensures { Takes last self.now sentence.Skipped result self.now }
    {
        if last & self.place.is_block() {
            return Err(OrMemory::Fault(Why::Phase));
        }
        Ok(())
    }

    /// Hears the next line, or answers its least refusal.
    pub fn hear(
        &mut self,
        alloc: Global,
        version: u8,
        line: &[u8],
        last: bool,
    ) -> Result<(), OrMemory<Why>>
        ensures { HearsLine version line.now last self.old result self.new }
    {
        match sentence_of(alloc, version, line) {
            Ok(sentence) => self.take(alloc, sentence, last),
            Err(error) => Err(error),
        }
    }

    /// The scenario that the lines say.
    pub fn finish(self, alloc: Global, version: u8) -> Result<Scenario, AllocError>
        ensures { IfOk result (λ s. (said : List Sentence) → Keeps self said → s ≡ scenario_of (said_in version said)) }
    {
        let mut builder = self;
        builder.close(alloc)?;
        let Builder {
            declarations,
            names,
            phases,
            lines: _,
            started: _,
            place: _,
            commands: _,
            turns: _,
        } = builder;
        Ok(Scenario {
            version,
            declarations,
            names,
            phases,
        })
    }

    /// Takes what the next line says, or answers its least refusal.
    pub fn take(
        &mut self,
        alloc: Global,
        sentence: Sentence,
        last: bool,
    ) -> Result<(), OrMemory<Why>>
        ensures { Takes last self.old sentence result self.new }
    {
        match sentence {
            Sentence::Skipped => self.skip(last),
            Sentence::Declares { word, values } => {
                self.declare(alloc, word, values.as_slice(), last)
            }
            Sentence::Orders {
                actor,
                word,
                values,
            } => self.order(alloc, actor, word, values.as_slice(), last),
            Sentence::Opens { actors } => self.open(alloc, actors, last),
            Sentence::Ends => self.end(alloc, last),
        }
    }
}
