//! The steps of an edit script.
ghost use Rattle.std.specs.Prelude.{◌≡◌, ◌≤◌, length};
ghost use Rattle.yf_diff.specs.Script.{is_change, new_part, old_part};
ghost use Rattle.yf_diff.specs.Fates.{edit_of};
ghost use Rattle.yf_diff.specs.Unified.{line_of, sign_of};

use crate::fate::Fate;
use std::marker::Model;

/// A step of an edit script: a line with its line feed, and what the edit does with it.
#[derive(Drop)]
pub struct Step<'a> {
    fate: Fate,
    line: &'a [u8],
}

impl<'a> Model for Step<'a> {
    ghost use Rattle.yf_diff.specs.Script.{Edit};
    ghost use Rattle.yf_diff.specs.Fates.{edit_of};

    ghost Value = { Edit };

    ghost view = { λ step. edit_of step.fate step.line.now };
}

impl<'a> Step<'a> {
    pub fn new(fate: Fate, line: &'a [u8]) -> Step<'a>
        ensures { result ≡ edit_of fate line.now }
    {
        Step { fate, line }
    }

    pub fn is_change(&self) -> bool
        ensures { result ≡ is_change self.now }
    {
        match self.fate {
            Fate::Kept => false,
            Fate::Dropped => true,
            Fate::Added => true,
        }
    }

    /// Returns the number of lines of the old text in the step: one or none.
    pub fn old_count(&self) -> usize
        ensures count { result ≡ length (old_part self.now) }
        ensures bound { result ≤ 1 }
    {
        match self.fate {
            Fate::Kept => 1,
            Fate::Dropped => 1,
            Fate::Added => 0,
        }
    }

    /// Returns the number of lines of the new text in the step: one or none.
    pub fn new_count(&self) -> usize
        ensures count { result ≡ length (new_part self.now) }
        ensures bound { result ≤ 1 }
    {
        match self.fate {
            Fate::Kept => 1,
            Fate::Dropped => 0,
            Fate::Added => 1,
        }
    }

    /// Returns the sign before the line in a unified diff.
    pub fn sign(&self) -> u8
        ensures { result ≡ sign_of self.now }
    {
        match self.fate {
            Fate::Kept => b' ',
            Fate::Dropped => b'-',
            Fate::Added => b'+',
        }
    }

    pub fn line(&self) -> &'a [u8]
        ensures { result.now ≡ line_of self.now }
    {
        self.line
    }
}
