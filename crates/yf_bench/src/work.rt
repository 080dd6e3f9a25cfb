//! The work of a command on each stream.

use crate::command::Verb;
use crate::digest::Digest;
use std::alloc::{AllocError, Global};
use std::mem;
use yf_chars::utf8::check_utf8;
use yf_events::notation::write_events;
use yf_events::reading::Reading;
use yf_forms::style::Style;
use yf_lines::fault::Fault;
use yf_lines::source_text::Src;
use yf_lines::watched::Watched;
use yf_rules::check_all::check_all;
use yf_rules::finding::Finding;
use yf_rules::format::format;
use yf_stream::stream::read_stream;

/// The work done so far.
#[derive(Drop)]
pub struct Work {
    pub streams: u64,
    pub bytes: u64,
    pub refused: u64,
    pub digest: Digest,
    output: Vec<u8>,
}

impl Work {
    /// Returns the state before any work.
    pub fn new(alloc: Global) -> Work {
        Work {
            streams: 0,
            bytes: 0,
            refused: 0,
            digest: Digest::new(),
            output: Vec::new(alloc),
        }
    }

    /// Does the work of a verb on a stream, and adds its output to the digest. Fails if memory is refused.
    pub fn take(&mut self, alloc: Global, verb: Verb, text: &str) -> Result<(), AllocError> {
        self.streams = self.streams.wrapping_add(1);
        self.bytes = self.bytes.wrapping_add(text.len() as u64);
        let Ok(text) = check_utf8(text.as_bytes()) else {
            return Err(AllocError);
        };
        let done = match verb {
            Verb::Events => self.take_events(alloc, text),
            Verb::Check => self.take_findings(alloc, text),
            Verb::Fmt => self.take_formatted(alloc, text),
        };
        match done {
            Ok(()) => Ok(()),
            Err(Fault::Memory) => Err(AllocError),
            Err(_) => {
                self.refused = self.refused.wrapping_add(1);
                Ok(())
            }
        }
    }

    fn take_events(&mut self, alloc: Global, text: &str) -> Result<(), Fault> {
        match read_stream(alloc, text) {
            Ok(reading) => self.add_events(alloc, &reading),
            Err(fault) => Err(fault),
        }
    }

    fn add_events(&mut self, alloc: Global, reading: &Reading) -> Result<(), Fault> {
        let mut writer = Watched::new(mem::replace(&mut self.output, Vec::new(alloc)));
        let written = write_events(reading, &mut writer);
        self.output = writer.into_inner();
        if written.is_ok() {
            self.digest.add_bytes(self.output.as_slice());
        }
        self.output.clear();
        written
    }

    fn take_findings(&mut self, alloc: Global, text: &str) -> Result<(), Fault> {
        match findings_in(alloc, text) {
            Ok(findings) => {
                self.add_findings(findings.as_slice());
                Ok(())
            }
            Err(fault) => Err(fault),
        }
    }

    fn add_findings(&mut self, findings: &[Finding]) {
        for finding in findings {
            self.digest.add_number(finding.place.line as u64);
            self.digest.add_number(finding.place.column as u64);
            self.digest.add_number(finding.number as u64);
        }
    }

    fn take_formatted(&mut self, alloc: Global, text: &str) -> Result<(), Fault> {
        match format(alloc, text, &Style::house()) {
            Ok(formatted) => {
                self.digest.add_bytes(formatted.as_str().as_bytes());
                Ok(())
            }
            Err(fault) => Err(fault),
        }
    }
}

/// Returns the findings of all rules in a text, in the house style.
fn findings_in(alloc: Global, text: &str) -> Result<Vec<Finding>, Fault> {
    let Ok(src) = Src::new(alloc, text) else {
        return Err(Fault::Memory);
    };
    match read_stream(alloc, text) {
        Ok(reading) => check_all(alloc, &[], &src, &reading, &Style::house()),
        Err(fault) => Err(fault),
    }
}
