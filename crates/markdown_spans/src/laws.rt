//! Laws of the definitions, as functions without code.
ghost use Rattle.markdown_spans.specs.CutLines.{CutLineKeepsPrefix};
ghost use Rattle.markdown_spans.specs.VisitLaws.{CodeVisitLaw, MathVisitLaw};

/// States that a search for the end of a code span examines no item after that end.
pub fn code_visits_end_at_the_closer()
    ensures { CodeVisitLaw }
{}

/// States that a search for the end of a math span examines no item after that end.
pub fn math_visits_end_at_the_closer()
    ensures { MathVisitLaw }
{}

/// States that a line that is cut, as where a code span ends inside it, keeps its container prefix; but where only white
/// space is left of it after the prefix, and columns of space are missing, that is prefix too.
pub fn cut_line_keeps_prefix()
    ensures { CutLineKeepsPrefix }
{}
