//! Laws of the definitions.
ghost use Rattle.pg_report.specs.Lines.{OneLine, HasNoLineFeed};
ghost use Rattle.pg_report.specs.Report.{EntriesAreLines};

/// A text is that of one line at most.
pub fn a_text_is_of_one_line()
    ensures { OneLine }
{}

/// No line has a line feed within, so a report is cut into its lines at its line feeds.
pub fn a_line_has_no_line_feed()
    ensures { HasNoLineFeed }
{}

/// The line of a journal's entry is that of the report's entries.
pub fn entries_are_lines()
    ensures { EntriesAreLines }
{}
