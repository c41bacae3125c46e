//! A line that was read beside the line that is expected.
ghost use Rattle.std.specs.Prelude.{◌≡◌, Some};
ghost use Rattle.pg_base.specs.Shown.{shown};
ghost use Rattle.pg_report.specs.Lines.{line_text};
ghost use Rattle.pg_check.specs.Course.{stands};

use pg_base::RawLine;
use pg_report::{ReportLine, put_line};

/// Whether a line is this one, with its line feed.
pub fn is_line(line: RawLine<'_>, expected: ReportLine) -> bool
    ensures { result ≡ stands (line_text expected) (shown (Some line.entry)) }
{
    let mut buf = [0; 128];
    let length = put_line(&mut buf, expected);
    line.ended && line.bytes == &buf[..length]
}

/// The same of a line that may be missing.
pub fn stands(line: Option<RawLine<'_>>, expected: ReportLine) -> bool
    ensures { result ≡ stands (line_text expected) (shown line.entry) }
{
    match line {
        None => false,
        Some(line) => is_line(line, expected),
    }
}
