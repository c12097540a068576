//! Laws of the texts of scenarios.

ghost use Rattle.scenario.specs.Laws.{NoFault, OneFault, OneScenario};

/// A text is at most one scenario.
pub fn one_scenario()
    ensures { OneScenario }
{}

/// A text has at most one fault, and a text with a fault is no scenario.
pub fn one_fault()
    ensures once { OneFault }
    ensures none { NoFault }
{}
