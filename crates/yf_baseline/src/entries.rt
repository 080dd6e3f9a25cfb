//! The entries of the findings of one file.
ghost use Rattle.std.specs.Prelude.{◌≡◌, ◌+◌, ◌^◌, ◌<◌, string_bytes, map, IfOk, OnOk};
ghost use Rattle.yf_baseline.specs.SeenTexts.{CountsOneMore, count_of};
ghost use Rattle.yf_baseline.specs.Entries.{entries_of, entry_at, kept, kept_of, line_hash, mark};

use crate::counts::{Counts, count_of, count_once_more};
use crate::entry::{Entry, Found};
use sha2::{Digest, Sha256};
use std::alloc::{AllocError, Global};
use std::collections::BTreeMap;
use yf_lines::text::OwnedText;

/// Returns the entry of each finding of a file, in the order of the findings. It takes `n log n` time in the number of
/// findings, and linear time in the texts of their lines.
///
/// # Errors
///
/// `AllocError` if memory runs out.
pub fn entries_of(
    alloc: Global,
    file: &str,
    findings: &[Found<'_>],
) -> Result<Vec<Entry>, AllocError>
    ensures { IfOk result (λ found. found.items ≡ entries_of file.now (map kept_of findings.now)) }
{
    let mut found = Vec::new(alloc);
    let mut counts = BTreeMap::new(alloc);
    for finding in findings {
        let hash = hash_of(alloc, finding.text)?;
        let entry = entry_of(alloc, &mut counts, file, finding.rule, hash.as_str())?;
        found.push(entry)?;
    }
    Ok(found)
}

// Returns the hash of the text of a line.
#[tactic(auto, unfolding(crate::specs::Entries::line_hash))]
fn hash_of(alloc: Global, text: &str) -> Result<String, AllocError>
    ensures { IfOk result (λ hash. string_bytes hash ≡ line_hash text.now) }
{
    let mut hasher = Sha256::new();
    hasher.update(text);
    let digest = hasher.finalize();
    hex::encode(alloc, digest.as_slice())
}

// Returns the entry of a finding, and counts its rule and its hash.
fn entry_of(
    alloc: Global,
    counts: &mut Counts,
    file: &str,
    rule: &str,
    hash: &str,
) -> Result<Entry, AllocError>
    requires { count_of counts.old (mark (kept rule.now hash.now)) + 1 < 2 ^ 64 }
    ensures entry { IfOk result (λ entry. entry
        ≡ entry_at file.now (kept rule.now hash.now) (count_of counts.old (mark (kept rule.now hash.now)))) }
    ensures counted { OnOk result (CountsOneMore counts.old counts.new (mark (kept rule.now hash.now))) }
{
    let mark = mark_of(alloc, rule, hash)?;
    let ordinal = count_of(counts, mark.as_str());
    count_once_more(counts, mark, ordinal + 1)?;
    Ok(Entry {
        file: owned(alloc, file)?,
        rule: owned(alloc, rule)?,
        hash: owned(alloc, hash)?,
        ordinal,
    })
}

// Returns one text for a rule and a hash.
fn mark_of(alloc: Global, rule: &str, hash: &str) -> Result<String, AllocError>
    ensures { IfOk result (λ text. string_bytes text ≡ mark (kept rule.now hash.now)) }
{
    let mut text = String::from_str(alloc, hash)?;
    text.push_str(rule)?;
    Ok(text)
}

/// Returns a text of its own.
pub(crate) fn owned(alloc: Global, text: &str) -> Result<OwnedText, AllocError>
    ensures { IfOk result (λ copy. copy ≡ text.now) }
{
    Ok(OwnedText::new(String::from_str(alloc, text)?))
}
