//! The settings with values that have their own grammar: `required_version` and `exclude`.
ghost use Rattle.std.specs.Prelude.{◌≡◌, ◌≢◌, IfOk, MatchOption, None, Ok, OnErr, Some, codes, map};
ghost use Rattle.semver.specs.Identifiers.{comparator_view};
ghost use Rattle.semver.specs.Parse.{req_of};
ghost use Rattle.toml.specs.Data.{get_member};
ghost use Rattle.toml.specs.View.{items_view, table_view, view};
ghost use Rattle.yf_settings.specs.Texts.{AreTexts, Excludes, IsNoList, IsNoRequirement, IsNoVersions};
ghost use Rattle.yf_settings.specs.Texts.{NoPatternsIn, PatternsIn, Requires, allows, strings_of};

use crate::settings::value_at;
use semver::{Error, Version, VersionReq};
use std::alloc::{AllocError, Global};
use toml::{Table, Value};
use yf_excludes::pattern::Pattern;
use yf_excludes::read_pattern::read_patterns;
use yf_lines::text::OwnedText;

pub(crate) const REQUIRED_VERSION: &str = "required_version";

pub(crate) const EXCLUDE: &str = "exclude";

/// The versions of the program that the settings require.
#[derive(Drop)]
pub enum Required {
    /// Any version.
    Any,
    /// The versions that meet a requirement.
    Versions(Requirement),
}

/// A requirement for the version of the program.
#[derive(Drop)]
pub struct Requirement {
    /// The text of the requirement.
    pub text: OwnedText,
    /// The versions that it allows.
    pub versions: VersionReq,
}

// Returns the versions that a table requires, or `None` if the value of the key is not a requirement.
pub(crate) fn required_at(alloc: Global, table: &Table) -> Result<Option<Required>, AllocError>
    ensures read { IfOk result (λ o. MatchOption o
        (IsNoRequirement (get_member (codes "required_version") (table_view table.now)))
        (Requires (get_member (codes "required_version") (table_view table.now)))) }
    ensures memory { OnErr result (get_member (codes "required_version") (table_view table.now) ≢ None) }
{
    match value_at(table, REQUIRED_VERSION) {
        Some(value) => required_of(alloc, value),
        None => Ok(Some(Required::Any)),
    }
}

// Returns the versions that a value requires.
fn required_of(alloc: Global, value: &Value) -> Result<Option<Required>, AllocError>
    ensures { IfOk result (λ o. MatchOption o (IsNoRequirement (Some (view value.now)))
        (Requires (Some (view value.now)))) }
{
    match value.as_str() {
        Some(text) => match versions_of(alloc, text)? {
            Some(versions) => {
                let text = OwnedText::new(String::from_str(alloc, text)?);
                Ok(Some(Required::Versions(Requirement { text, versions })))
            }
            None => Ok(None),
        },
        None => Ok(None),
    }
}

// Returns the requirement with this text, or `None` if the text is not a requirement.
fn versions_of(alloc: Global, text: &str) -> Result<Option<VersionReq>, AllocError>
    ensures { IfOk result (λ o. MatchOption o (IsNoVersions text.now)
        (λ r. req_of text.now ≡ Ok (map comparator_view r.comparators.items))) }
{
    match VersionReq::parse(alloc, text) {
        Ok(versions) => Ok(Some(versions)),
        Err(error) => {
            if error == Error::from(AllocError) {
                return Err(AllocError);
            }
            Ok(None)
        }
    }
}

/// Returns whether a version of the program, given by its text, meets the requirement.
///
/// # Errors
///
/// `AllocError` if memory is refused.
pub fn allows(alloc: Global, required: &Required, version: &str) -> Result<bool, AllocError>
    ensures { IfOk result (λ b. b ≡ allows required.now version.now) }
{
    match required {
        Required::Any => Ok(true),
        Required::Versions(requirement) => match Version::parse(alloc, version) {
            Ok(version) => Ok(requirement.versions.matches(&version)),
            Err(error) => {
                if error == Error::from(AllocError) {
                    return Err(AllocError);
                }
                Ok(false)
            }
        },
    }
}

// Returns the patterns that a table excludes, or `None` if the value of the key is not a list of patterns.
pub(crate) fn patterns_at(alloc: Global, table: &Table) -> Result<Option<Vec<Pattern>>, AllocError>
    ensures read { IfOk result (λ o. MatchOption o
        (IsNoList (get_member (codes "exclude") (table_view table.now)))
        (λ v. Excludes (get_member (codes "exclude") (table_view table.now)) v.items)) }
    ensures memory { OnErr result (get_member (codes "exclude") (table_view table.now) ≢ None) }
{
    match value_at(table, EXCLUDE) {
        Some(value) => patterns_of(alloc, value),
        None => Ok(Some(Vec::new(alloc))),
    }
}

// Returns the patterns of a value, or `None` if the value is not a list of patterns.
fn patterns_of(alloc: Global, value: &Value) -> Result<Option<Vec<Pattern>>, AllocError>
    ensures { IfOk result (λ o. MatchOption o (IsNoList (Some (view value.now)))
        (λ v. Excludes (Some (view value.now)) v.items)) }
{
    match value.as_array() {
        Some(values) => patterns_in(alloc, values.as_slice()),
        None => Ok(None),
    }
}

// Returns the patterns of some values, or `None` if one of them is not a pattern.
fn patterns_in(alloc: Global, values: &[Value]) -> Result<Option<Vec<Pattern>>, AllocError>
    ensures { IfOk result (λ o. MatchOption o (NoPatternsIn (items_view values.now))
        (λ v. PatternsIn (items_view values.now) v.items)) }
{
    match texts_in(alloc, values)? {
        Some(texts) => match read_patterns(alloc, texts.as_slice())? {
            Ok(patterns) => Ok(Some(patterns)),
            Err(_) => Ok(None),
        },
        None => Ok(None),
    }
}

// Returns the texts of some values, or `None` if one of them is not a text.
fn texts_in<'v>(alloc: Global, values: &'v [Value]) -> Result<Option<Vec<&'v [u8]>>, AllocError>
    ensures { IfOk result (λ o. MatchOption o (strings_of (items_view values.now) ≡ None)
        (λ v. AreTexts (items_view values.now) v.items)) }
{
    let mut texts = Vec::new(alloc);
    for value in values {
        match value.as_str() {
            Some(text) => texts.push(text.as_bytes())?,
            None => return Ok(None),
        }
    }
    Ok(Some(texts))
}
