// The worked figures of the rules, of the definitions that the contracts use.
#![tactic(auto)]

ghost use Rattle.figures.specs.Figures.{Figures, AllFigures};

// The figures of plans, and of the words and lanes of the lane kernels.
pub fn worked_figures()
    ensures { Figures }
{}

// Every worked figure, as one statement.
pub fn all_worked_figures()
    ensures { AllFigures }
{
    worked_figures();
}
