//! Laws of the definitions. Each function has no code, and its contract is the law.
ghost use Rattle.scen_report.specs.Laws.{ReportTellsAnswers};

/// For one problem, two different lists of answers have different reports.
pub fn report_tells_answers()
    ensures { ReportTellsAnswers }
{}
