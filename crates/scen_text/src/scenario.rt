//! A scenario as plain data.

use scen_words::{Command, Declaration};
use sqlite_items::Items;
use text_fields::DeviceName;

/// A whole scenario.
#[derive(Drop)]
pub struct Scenario {
    /// The number behind `tapscen`.
    pub version: u8,
    /// The declarations in their order.
    pub declarations: Items<Declaration>,
    /// The names of devices in order of first appearance; elsewhere a name is its number here.
    pub names: Items<DeviceName>,
    /// The phases, which run one after the other.
    pub phases: Items<Phase>,
}

/// Commands of several actors that run side by side.
#[derive(Debug, Drop)]
pub struct Phase {
    pub actors: u16,
    /// One script per actor, by the actor's number.
    pub scripts: Items<Script>,
    /// The commands of all actors in the order in which they were given.
    pub lines: Items<Line>,
}

/// The commands of one actor in one phase, in their order.
#[derive(Debug, Drop)]
pub struct Script {
    pub commands: Items<Command>,
}

/// One command as it was given.
#[derive(Debug, Drop)]
pub struct Line {
    pub actor: u16,
    /// Its number, from 0 over the whole scenario.
    pub number: u32,
    pub command: Command,
}
