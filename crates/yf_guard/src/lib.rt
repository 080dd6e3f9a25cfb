//! Texts that are not YAML data: Ansible Vault files, plain text over several lines, and templates.
//!
//! An Ansible Vault file is known by its first bytes. For other texts the reading decides, not the bytes: `name: build
//! {{version}}` is data, since its value is a scalar, and `vlan: {{ site_vlan }}` is a template, since its value is a
//! mapping with a mapping as its key. `guard` decides it for a text. The crate knows no settings and no house style.
#![tactic(auto)]

pub mod guarded;
mod open_collection;
mod pass;
pub mod scalars;
