//! Lines of a graph text.

ghost use Rattle.std.specs.Prelude.{◌≡◌, ℕ, List, ◌∷◌, true, length, Option, is_some};
ghost use Rattle.std.specs.Io.BufRead.{strip_last};
ghost use Rattle.pg_readers.specs.Tokens.{begins_token, tokens, numbers, all_numbers};
ghost use Rattle.pg_readers.specs.Lines.{is_comment, says, line_says};

use crate::targets::Targets;
use crate::tokens::{from_token, next_number, number_token};

/// How the lines of a graph text are written.
#[derive(Clone, Copy, Debug, PartialEq, Eq)]
pub enum Format {
    /// An edge a line, as its two ids; what stands behind them is ignored.
    Snap,
    /// An edge a line, as its two ids and, where it stands, its weight.
    Tsv,
    /// A vertex a line, as its id, the number of its targets, and their ids.
    Adj,
}

/// What is wrong with a line.
#[derive(Clone, Copy, Debug, PartialEq, Eq)]
pub enum BadLine {
    /// It has one token.
    TooFew,
    /// A token that has to be a number is none, or is above 4,294,967,295.
    BadNumber,
    /// It has fewer targets than it says.
    BadCount,
    /// It has more tokens than its format has places, or more targets than it says.
    TooMany,
}

/// What a line says.
#[derive(Drop)]
pub enum Line<'a> {
    /// The line is blank or a comment.
    Nothing,
    /// An edge between two ids.
    Edge { src: u32, dst: u32, weight: u32 },
    /// A vertex and, in order, the targets of edges of weight 1 that leave it.
    Star { id: u32, targets: Targets<'a> },
}

/// What a line says, or how it is bad.
///
/// The line has no line feed; one carriage return at its end is no part of it. The bytes are read
/// once, but for the targets of a star: here to be judged, and again as they are taken.
pub fn parse_line(format: Format, line: &[u8]) -> Result<Line<'_>, BadLine>
    ensures { result ≡ line_says format line.now }
{
    let Some(rest) = from_token(without_return(line)) else {
        return Ok(Line::Nothing);
    };
    if is_comment(rest) {
        return Ok(Line::Nothing);
    }
    line_of_tokens(format, rest)
}

fn without_return(line: &[u8]) -> &[u8]
    ensures { result.now ≡ strip_last 13 line.now }
{
    match line {
        [front @ .., b'\r'] => front,
        _ => line,
    }
}

/// Whether the first token begins with '#'.
fn is_comment(bytes: &[u8]) -> bool
    requires { begins_token bytes.now ≡ true }
    ensures { result ≡ is_comment (tokens bytes.now) }
{
    bytes[0] == b'#'
}

/// What a line with these tokens says.
fn line_of_tokens(format: Format, bytes: &[u8]) -> Result<Line<'_>, BadLine>
    requires { begins_token bytes.now ≡ true }
    ensures { result ≡ says format (numbers bytes.now) }
{
    let (first, rest) = number_token(bytes);
    let Some((second, rest)) = next_number(rest) else {
        return Err(BadLine::TooFew);
    };
    match format {
        Format::Snap => edge(first, second),
        Format::Tsv => weighted_edge(first, second, rest),
        Format::Adj => star(first, second, rest),
    }
}

/// A line of two tokens or more, of which these are the first.
fn edge<'a>(src: Option<u32>, dst: Option<u32>) -> Result<Line<'a>, BadLine>
    ensures { (more : List (Option ℕ)) → result ≡ says Format.Snap (src ∷ dst ∷ more) }
{
    match (src, dst) {
        (Some(src), Some(dst)) => Ok(Line::Edge {
            src,
            dst,
            weight: 1,
        }),
        _ => Err(BadLine::BadNumber),
    }
}

/// A line of these two tokens and those of `rest`.
fn weighted_edge<'a>(
    src: Option<u32>,
    dst: Option<u32>,
    rest: &'a [u8],
) -> Result<Line<'a>, BadLine>
    ensures { result ≡ says Format.Tsv (src ∷ dst ∷ numbers rest.now) }
{
    let mut weight = Some(1);
    if let Some((third, rest)) = next_number(rest) {
        if next_number(rest).is_some() {
            return Err(BadLine::TooMany);
        }
        weight = third;
    }
    match (src, dst, weight) {
        (Some(src), Some(dst), Some(weight)) => Ok(Line::Edge { src, dst, weight }),
        _ => Err(BadLine::BadNumber),
    }
}

/// A line of these two tokens and those of `rest`.
fn star<'a>(id: Option<u32>, degree: Option<u32>, rest: &'a [u8]) -> Result<Line<'a>, BadLine>
    ensures { result ≡ says Format.Adj (id ∷ degree ∷ numbers rest.now) }
{
    let (Some(id), Some(degree)) = (id, degree) else {
        return Err(BadLine::BadNumber);
    };
    let (count, are_numbers) = count_numbers(rest);
    if count < degree as usize {
        Err(BadLine::BadCount)
    } else if count > degree as usize {
        Err(BadLine::TooMany)
    } else if !are_numbers {
        Err(BadLine::BadNumber)
    } else {
        Ok(Line::Star {
            id,
            targets: Targets::new(rest),
        })
    }
}

/// How many tokens the bytes have, and whether all of them are numbers.
fn count_numbers(bytes: &[u8]) -> (usize, bool)
    ensures count { result.0 ≡ length (numbers bytes.now) }
    ensures are_numbers { result.1 ≡ is_some (all_numbers (numbers bytes.now)) }
{
    let mut count = 0;
    let mut are_numbers = true;
    let mut rest = bytes;
    while let Some((number, behind)) = next_number(rest) {
        count += 1;
        are_numbers &= number.is_some();
        rest = behind;
    }
    (count, are_numbers)
}
