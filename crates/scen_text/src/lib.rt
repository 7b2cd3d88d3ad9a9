//! Scenarios as plain data, and their texts.
//!
//! A [`Scenario`] is what a scenario's text says: declarations, the names in order of first appearance, and
//! phases of commands. To a contract it is a record of numbers and lists. What a line says by itself is of the crate
//! `scen_words`, whose types are handed on.
//!
//! `specs/Before.antt` has what the lines before a line say, `specs/Refusals.antt` when a line is refused,
//! `specs/Scenario.antt` the scenario that a text stands for, `specs/ScenarioText.antt` the text that is printed for a
//! scenario, and `specs/ScenarioLaws.antt` that the printed text stands for the scenario again.
#![tactic(auto)]

mod builder;
mod declared;
mod fault;
mod naming;
mod phases;
mod place;
mod reading;
mod scenario;
mod scenario_laws;
mod versions;
mod writing;
#[cfg(test)]
mod writing_tests;

pub use fault::ScenFault;
pub use place::Place;
pub use reading::read_scenario;
pub use scen_words::{
    Command, CommandWord, Declaration, DeclarationWord, MAX_BYTES, MAX_COMMANDS, MAX_NAMES,
    MAX_PLACES, MAX_ROOM, MAX_TURNS, OrMemory, Sentence, Why, Word,
};
pub use scenario::{Line, Phase, Scenario, Script};
pub use scenario_laws::{one_scenario, printed_stands};
pub use versions::upgrade;
pub use writing::print_scenario;
