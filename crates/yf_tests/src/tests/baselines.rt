//! Baselines. The hashes are those of coreutils' `sha256sum`.

use std::alloc::{AllocError, Global};
use yf_baseline::baseline::write_baseline;
use yf_baseline::entries::entries_of;
use yf_baseline::entry::{Entry, Found};
use yf_baseline::listed::{lines_of, missing, names_of};
use yf_baseline::read::read_baseline;
use yf_baseline::refusal::Refusal;

const fn found(rule: &'static str, text: &'static str) -> Found<'static> {
    Found { rule, text }
}

/// The baseline of the four findings of a text with the lines `a:  1`, `b: 2 ` and `b: 2 `: quoting on lines 1 and 2,
/// and trailing-blanks on lines 2 and 3.
const WRITTEN: &str = "{\"findings\":[
{\"file\":\"x.yaml\",\"hash\":\"97346d204f75cd71c06a1b97f328bc9094ebd46f59929d13484d48c540f0638e\",\"ordinal\":0,\"rule\":\"quoting\"},
{\"file\":\"x.yaml\",\"hash\":\"0fdf0436cc3b333a2fc447db579b05ae8544951b6fa4c5e6eaf024b730bb1377\",\"ordinal\":0,\"rule\":\"quoting\"},
{\"file\":\"x.yaml\",\"hash\":\"0fdf0436cc3b333a2fc447db579b05ae8544951b6fa4c5e6eaf024b730bb1377\",\"ordinal\":0,\"rule\":\"trailing-blanks\"},
{\"file\":\"x.yaml\",\"hash\":\"0fdf0436cc3b333a2fc447db579b05ae8544951b6fa4c5e6eaf024b730bb1377\",\"ordinal\":1,\"rule\":\"trailing-blanks\"}
],\"version\":1}
";

/// Returns whether the baseline of the old findings is this text.
fn writes(alloc: Global) -> Result<bool, AllocError> {
    let findings = [
        found("quoting", "a:  1"),
        found("quoting", "b: 2 "),
        found("trailing-blanks", "b: 2 "),
        found("trailing-blanks", "b: 2 "),
    ];
    let entries = entries_of(alloc, "x.yaml", &findings)?;
    let bytes = write_baseline(alloc, entries.as_slice())?;
    Ok(bytes.as_slice() == WRITTEN.as_bytes())
}

#[test]
fn writes_a_baseline(rt: HostRuntime) {
    assert!(rt; writes(rt.alloc()) == Ok(true));
}

/// Returns whether two entries no longer occur after two lines have changed places and one of the equal lines is gone.
fn compares(alloc: Global, baseline: &[Entry]) -> Result<bool, AllocError> {
    let findings = [found("trailing-blanks", "b: 2 "), found("quoting", "a:  1")];
    let entries = entries_of(alloc, "x.yaml", &findings)?;
    let current = lines_of(alloc, entries.as_slice())?;
    let files = names_of(alloc, &["x.yaml"])?;
    let gone = missing(alloc, baseline, &files, &current)?;
    Ok(
        gone.len() == 2
            && gone[0].rule.as_str() == "quoting"
            && gone[1].rule.as_str() == "trailing-blanks"
            && gone[1].ordinal == 1,
    )
}

/// Returns whether the baseline is read, and compared with the new findings.
fn reads(alloc: Global) -> bool {
    match &read_baseline(alloc, WRITTEN) {
        Ok(baseline) => compares(alloc, baseline.as_slice()) == Ok(true),
        Err(_) => false,
    }
}

#[test]
fn reads_a_baseline(rt: HostRuntime) {
    assert!(rt; reads(rt.alloc()));
}

/// Texts that are not baselines, and the reason.
static REFUSED: [(&str, Refusal); 13] = [
    ("", Refusal::NotJson),
    ("{\"version\":1,\"findings\":[],}", Refusal::NotJson),
    ("[]", Refusal::Version),
    ("{\"findings\":[]}", Refusal::Version),
    ("{\"version\":2,\"findings\":[]}", Refusal::Version),
    ("{\"version\":\"1\",\"findings\":[]}", Refusal::Version),
    ("{\"version\":1}", Refusal::Shape),
    ("{\"version\":1,\"findings\":{}}", Refusal::Shape),
    ("{\"version\":1,\"findings\":[1]}", Refusal::Shape),
    (
        "{\"version\":1,\"findings\":[{\"file\":\"a\",\"hash\":\"b\",\"rule\":\"c\"}]}",
        Refusal::Shape,
    ),
    (
        "{\"version\":1,\"findings\":[{\"file\":\"a\",\"hash\":\"b\",\"rule\":\"c\",\"ordinal\":-1}]}",
        Refusal::Shape,
    ),
    (
        "{\"version\":1,\"findings\":[{\"file\":\"a\",\"hash\":\"b\",\"rule\":\"c\",\"ordinal\":18446744073709551616}]}",
        Refusal::Shape,
    ),
    (
        "{\"version\":1,\"findings\":[{\"file\":1,\"hash\":\"b\",\"rule\":\"c\",\"ordinal\":0}]}",
        Refusal::Shape,
    ),
];

/// Returns whether a text is refused for this reason.
fn refuses(alloc: Global, text: &str, why: Refusal) -> bool {
    match &read_baseline(alloc, text) {
        Ok(_) => false,
        Err(refusal) => *refusal == why,
    }
}

#[test]
fn refuses_what_is_no_baseline(rt: HostRuntime) {
    for (text, why) in &REFUSED {
        assert!(rt; refuses(rt.alloc(), text, *why), "{}", text);
    }
}
