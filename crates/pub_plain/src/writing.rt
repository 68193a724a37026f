// The lines behind a refutation, as they are written one after another.
ghost use Rattle.std.specs.Prelude.{◌≡◌, IfOk, length};
ghost use Rattle.pub_plain.specs.Writing.{lines_of, put_of, says_of};
ghost use Rattle.pub_term.specs.declared.cause.Cause.{Cause};
ghost use Rattle.pub_trail.specs.Derived.{put, same_line, written};

use pub_term::{Cause, Incompat};
use spm_version::NoMemory;

/// Where a line comes from.
#[derive(Debug, Drop)]
pub enum LineOrigin {
    /// It is a fact, with its cause.
    Fact(Cause),
    /// It is the resolution of two earlier lines, counted from 1, on a node.
    Resolution { first: u64, second: u64, on: u32 },
}

/// A line with its terms. Contracts have its `says_of` (`specs/Writing.antt`).
#[derive(Debug, Drop)]
pub struct WrittenLine {
    pub incompat: Incompat,
    pub origin: LineOrigin,
}

// Whether two lines say the same: a fact with equal terms and an equal cause, or a resolution of the same lines on the same node.
fn is_same(line: &WrittenLine, other: &WrittenLine) -> bool
    ensures { result ≡ same_line ⟦<Cause as PartialEq>⟧.eq (says_of line.now).line (says_of other.now).line }
{
    match &line.origin {
        LineOrigin::Fact(cause) => match &other.origin {
            LineOrigin::Fact(why) => line.incompat == other.incompat && cause == why,
            LineOrigin::Resolution { .. } => false,
        },
        LineOrigin::Resolution { first, second, on } => match &other.origin {
            LineOrigin::Fact(_) => false,
            LineOrigin::Resolution {
                first: a,
                second: b,
                on: node,
            } => first == a && second == b && on == node,
        },
    }
}

// The number of a line that is written already.
fn written(lines: &[WrittenLine], line: &WrittenLine) -> Option<u64>
    ensures { result ≡ written ⟦<Cause as PartialEq>⟧.eq (lines_of lines.now) (says_of line.now).line }
{
    let mut place = lines.len();
    while place > 0 {
        if is_same(&lines[place - 1], line) {
            return Some(place as u64);
        }
        place -= 1;
    }
    None
}

/// Puts a line behind the others, where it isn't written already, and tells its number.
///
/// # Errors
///
/// `NoMemory` alone.
pub fn put(lines: &mut Vec<WrittenLine>, line: WrittenLine) -> Result<u64, NoMemory>
    ensures { IfOk result (λ number. put_of lines.new.items number
        ≡ put ⟦<Cause as PartialEq>⟧.eq (lines_of lines.old.items) (says_of line).line (says_of line).terms) }
{
    if let Some(number) = written(lines.as_slice(), &line) {
        return Ok(number);
    }
    lines.push(line)?;
    Ok(lines.len() as u64)
}
