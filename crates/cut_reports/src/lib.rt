// What is promised of reports that were cut by hand holds of those that `cut` makes: a statement about the definitions, as
// what a function ensures that does nothing, so that the check asks for its proof.
#![tactic(auto)]

ghost use Rattle.pine.specs.Param.{Field64};
ghost use Rattle.cut_reports.specs.CutReports.{CutReports};

// An accepted call makes a report of the main theorem, and gives the seeds that both servers find.
pub fn cut_reports()
    ensures { CutReports Field64 }
{}
