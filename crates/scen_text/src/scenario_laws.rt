//! What scenarios and their texts have to do with one another.

ghost use Rattle.scen_text.specs.ScenarioLaws.{OneScenario, PrintedStands};

/// A text stands for one scenario only.
pub fn one_scenario()
    ensures { OneScenario }
{}

/// The printed text of a scenario that some text stands for stands for it, where it isn't too long.
pub fn printed_stands()
    ensures { PrintedStands }
{
    text_fields::line_laws();
    scen_words::command_laws();
    scen_words::declaration_laws();
    scen_words::line_laws();
    scen_words::sentence_laws();
}
