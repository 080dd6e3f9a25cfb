//! The settings file: the settings in its text, and the explanation of a text that is refused.
//!
//! A text sets exactly the settings that it names. If a text is refused, the fault has the least of its wrong keys by
//! their bytes, or no key if the text is not TOML. A page of settings is a TOML text with these settings. The crate
//! opens no file.
#![tactic(auto)]

pub mod file_settings;
pub mod page;
pub mod settings;
pub mod settings_words;
pub mod texts;
