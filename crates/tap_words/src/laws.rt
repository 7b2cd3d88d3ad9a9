//! Examples of what words ask for, and a law, as the contracts of functions that do nothing.

ghost use Rattle.tap_words.specs.Examples.{Examples};
ghost use Rattle.tap_words.specs.Words.{CountsFit};

/// Words with what they ask for.
pub fn examples()
    ensures { Examples }
{}

/// The number of sends that words ask for is 1 to 100,000.
pub fn count_law()
    ensures { CountsFit }
{}
