// Worked figures of the library: models, formulas as texts, joins and weights, with what comes out.
#![tactic(auto)]

ghost use Rattle.figures.specs.Table.{WorkedFigures};

/// The worked figures come out as their table says (`specs/Table.antt`).
pub fn worked_figures()
    ensures { WorkedFigures }
{}
