#![tactic(auto)]
// Figures worked by hand, proved of the definitions that the contracts cite.
ghost use Rattle.figures.specs.Example.{ExampleHistory};
ghost use Rattle.figures.specs.TwoDays.{NineLines, TwoDays};
ghost use Rattle.figures.specs.Worked.{WorkedFigures};

// Every worked figure holds, a run of two days over a small basin has the one outcome that was worked out, and the program tells its figures, readings aside.
pub fn hand_figures()
    ensures figures { WorkedFigures }
    ensures two_days { TwoDays }
    ensures nine_lines { NineLines }
{}

// Four calls on that basin that the law of the balance speaks of, and what it says of them.
pub fn example_history()
    ensures { ExampleHistory }
{}
