//! Which lines begin before a byte offset, and which after it.
ghost use Rattle.std.specs.Prelude.{◌≤◌, length};
ghost use Rattle.yf_lines.specs.Lines.{LinesBegunAt};
ghost use Rattle.yf_rule_sets.specs.RuleSets.Scalars.{BegunTo};

use yf_lines::source_text::Src;

/// Returns the largest `n`, at most the hint, for which the line of index `n - 1` begins at the byte offset or before
/// it, or 0.
#[inline(always)]
fn begun_back(src: &Src, hint: usize, offset: usize) -> usize
    ensures { BegunTo src.now.lines offset result }
{
    let lines = src.lines();
    let mut at = hint.min(lines.len());
    while at > 0 {
        if lines.line(at - 1).start <= offset {
            return at;
        }
        at -= 1;
    }
    at
}

/// Returns how many lines begin at the byte offset or before it. The search starts from a hint, so a pass over
/// ascending offsets visits each line once.
#[inline(always)]
pub fn lines_begun(src: &Src, hint: usize, offset: usize) -> usize
    ensures begun { LinesBegunAt src.now.lines offset result }
    ensures within { result ≤ length src.now.lines }
{
    let lines = src.lines();
    let mut at = begun_back(src, hint, offset);
    while at < lines.len() {
        if lines.line(at).start > offset {
            return at;
        }
        at += 1;
    }
    at
}
