//! What a scenario that some text stands for lays down for its runs: laws, each a function that does nothing. The
//! statements stand in `specs/`.
//!
//! `specs/Declared.antt` says how files, guests, vhosts, programs and flows are laid down, `specs/Phases.antt` what
//! names, commands and phases are, `specs/Laid.antt` that all of it is so of each scenario that some text stands for, and
//! `specs/Generated.antt` of each that is generated. `specs/Runs.antt` says that their runs are sound: no law on runs is left
//! with a premise but that.
#![tactic(auto)]

ghost use Rattle.scen_laid.specs.Generated.{GeneratedIsLaid, GeneratedStands, RunsOfGenerated};
ghost use Rattle.scen_laid.specs.Laid.{ReadIsLaid};
ghost use Rattle.scen_laid.specs.Runs.{LaidRunsAreSound, RunsOfText};

/// Each scenario that some text stands for is laid: places, capacities, guests and memories are good, commands are
/// numbered one after another, and each names what is declared.
pub fn read_is_laid()
    ensures { ReadIsLaid }
{
    scen_words::command_laws();
    scen_words::sentence_laws();
}

/// The runs of a scenario that is laid are sound: each world that a run reaches and the one that it ends in, and no event
/// is refused for its names.
pub fn laid_runs_are_sound()
    ensures { LaidRunsAreSound }
{
    tap_sound::names_are_new();
    tap_sound::runs_are_sound();
    tap_sound::used_is_counted();
    tap_world::name_stands_once();
    tap_world::leave_in_order();
}

/// So the runs of a scenario that some text stands for are sound, with no premise left.
pub fn runs_of_text()
    ensures { RunsOfText }
{
    read_is_laid();
    laid_runs_are_sound();
}

/// The text of each scenario that is generated stands for it; so it is laid, and its runs are sound.
pub fn generated_is_laid()
    ensures text { GeneratedStands }
    ensures laid { GeneratedIsLaid }
    ensures runs { RunsOfGenerated }
{
    text_fields::line_laws();
    scen_words::line_laws();
    scen_words::command_laws();
    laid_runs_are_sound();
}
