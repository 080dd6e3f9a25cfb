//! A session of the editor server, in memory.

use crate::tests::answers::NO_TERMINAL;
use std::alloc::{AllocError, Global};
use yf_forms::style::Style;
use yf_host::memory_inputs::{MemoryInputs, Stored};
use yf_host::streams::{Streams, in_memory};
use yf_lines::text::OwnedText;
use yf_lines::watched::Watched;
use yf_program::handling::Start;
use yf_program::scope::Scope;
use yf_program::server::run_server;

/// The settings files of the documents.
static FILES: [Stored; 2] = [
    Stored {
        name: "/w/.yamlfmt.toml",
        bytes: b"indent = 4\nexclude = [\"no.yaml\"]\n",
    },
    Stored {
        name: "/w/d/.yamlfmt.toml",
        bytes: b"indent = 9\n",
    },
];

/// What a client sends.
static RECEIVED: [&str; 21] = [
    r#"{"jsonrpc":"2.0","id":1,"method":"initialize","params":{"capabilities":{}}}"#,
    r#"{"jsonrpc":"2.0","method":"initialized","params":{}}"#,
    r#"{"jsonrpc":"2.0","method":"textDocument/didOpen","params":{"textDocument":{"uri":"u","languageId":"yaml","version":7,"text":"a: 1\n"}}}"#,
    r#"{"jsonrpc":"2.0","id":"f","method":"textDocument/formatting","params":{"textDocument":{"uri":"u"},"options":{}}}"#,
    r#"{"jsonrpc":"2.0","method":"textDocument/didOpen","params":{"textDocument":{"uri":"w","languageId":"yaml","version":1,"text":"---\na:   1\nx:\n  - 1\nb:   2\n"}}}"#,
    r#"{"jsonrpc":"2.0","id":4,"method":"textDocument/rangeFormatting","params":{"textDocument":{"uri":"w"},"range":{"start":{"line":4,"character":0},"end":{"line":4,"character":1}},"options":{}}}"#,
    r#"{"jsonrpc":"2.0","id":6,"method":"textDocument/foldingRange","params":{"textDocument":{"uri":"w"}}}"#,
    r#"{"jsonrpc":"2.0","id":11,"method":"textDocument/documentSymbol","params":{"textDocument":{"uri":"w"}}}"#,
    r#"{"jsonrpc":"2.0","method":"textDocument/didOpen","params":{"textDocument":{"uri":"v","languageId":"yaml","version":1,"text":"$ANSIBLE_VAULT;1.1;AES256\n3366\n"}}}"#,
    r#"{"jsonrpc":"2.0","id":5,"method":"textDocument/willSaveWaitUntil","params":{"textDocument":{"uri":"v"},"reason":1}}"#,
    r#"{"jsonrpc":"2.0","method":"textDocument/didChange","params":{"textDocument":{"uri":"u","version":7},"contentChanges":[{"text":""}]}}"#,
    r#"{"jsonrpc":"2.0","method":"textDocument/didOpen","params":{"textDocument":{"uri":"file:///w/s%20/a.yaml","languageId":"yaml","version":1,"text":"---\na:\n    b:   1\n"}}}"#,
    r#"{"jsonrpc":"2.0","id":7,"method":"textDocument/willSaveWaitUntil","params":{"textDocument":{"uri":"file:///w/s%20/a.yaml"},"reason":1}}"#,
    r#"{"jsonrpc":"2.0","method":"textDocument/didOpen","params":{"textDocument":{"uri":"file:///w/s/no.yaml","languageId":"yaml","version":1,"text":"a:   1\n"}}}"#,
    r#"{"jsonrpc":"2.0","id":8,"method":"textDocument/formatting","params":{"textDocument":{"uri":"file:///w/s/no.yaml"},"options":{}}}"#,
    r#"{"jsonrpc":"2.0","method":"textDocument/didOpen","params":{"textDocument":{"uri":"file:///w/d/a.yaml","languageId":"yaml","version":1,"text":"a:   1\n"}}}"#,
    r#"{"jsonrpc":"2.0","id":9,"method":"textDocument/formatting","params":{"textDocument":{"uri":"file:///w/d/a.yaml"},"options":{}}}"#,
    r#"{"jsonrpc":"2.0","method":"textDocument/didOpen","params":{"textDocument":{"uri":"t","languageId":"yaml","version":1,"text":"---\n{{ x }}\n"}}}"#,
    r#"{"jsonrpc":"2.0","id":10,"method":"textDocument/formatting","params":{"textDocument":{"uri":"t"},"options":{}}}"#,
    r#"{"jsonrpc":"2.0","id":3,"method":"shutdown"}"#,
    r#"{"jsonrpc":"2.0","method":"exit"}"#,
];

/// What the server sends.
static SENT: [&str; 20] = [
    r#"{"id":1,"jsonrpc":"2.0","result":{"capabilities":{"codeActionProvider":{"codeActionKinds":["source.fixAll.yamlfmt"]},"diagnosticProvider":{"interFileDependencies":false,"workspaceDiagnostics":false},"documentFormattingProvider":true,"documentRangeFormattingProvider":true,"documentSymbolProvider":true,"foldingRangeProvider":true,"positionEncoding":"utf-16","selectionRangeProvider":true,"textDocumentSync":{"change":2,"openClose":true,"willSaveWaitUntil":true}}}}"#,
    r#"{"jsonrpc":"2.0","method":"textDocument/publishDiagnostics","params":{"diagnostics":[{"code":"document-start","message":"no `---` before the document","range":{"end":{"character":0,"line":0},"start":{"character":0,"line":0}},"severity":2,"source":"yamlfmt"}],"uri":"u","version":7}}"#,
    r#"{"id":"f","jsonrpc":"2.0","result":[{"newText":"---\n","range":{"end":{"character":0,"line":0},"start":{"character":0,"line":0}}}]}"#,
    r#"{"jsonrpc":"2.0","method":"textDocument/publishDiagnostics","params":{"diagnostics":[],"uri":"w","version":1}}"#,
    r#"{"id":4,"jsonrpc":"2.0","result":[{"newText":"b: 2\n","range":{"end":{"character":0,"line":5},"start":{"character":0,"line":4}}}]}"#,
    r#"{"id":6,"jsonrpc":"2.0","result":[{"endLine":3,"startLine":2}]}"#,
    r#"{"id":11,"jsonrpc":"2.0","result":[{"children":[],"kind":15,"name":"a","range":{"end":{"character":6,"line":1},"start":{"character":0,"line":1}},"selectionRange":{"end":{"character":1,"line":1},"start":{"character":0,"line":1}}},{"children":[{"children":[],"kind":15,"name":"1","range":{"end":{"character":5,"line":3},"start":{"character":2,"line":3}},"selectionRange":{"end":{"character":5,"line":3},"start":{"character":4,"line":3}}}],"kind":18,"name":"x","range":{"end":{"character":5,"line":3},"start":{"character":0,"line":2}},"selectionRange":{"end":{"character":1,"line":2},"start":{"character":0,"line":2}}},{"children":[],"kind":15,"name":"b","range":{"end":{"character":6,"line":4},"start":{"character":0,"line":4}},"selectionRange":{"end":{"character":1,"line":4},"start":{"character":0,"line":4}}}]}"#,
    r#"{"jsonrpc":"2.0","method":"textDocument/publishDiagnostics","params":{"diagnostics":[],"uri":"v","version":1}}"#,
    r#"{"id":5,"jsonrpc":"2.0","result":null}"#,
    r#"{"jsonrpc":"2.0","method":"window/logMessage","params":{"message":"the version is not higher than the one before: open the document again, or send the whole text","type":2}}"#,
    r#"{"jsonrpc":"2.0","method":"textDocument/publishDiagnostics","params":{"diagnostics":[],"uri":"u"}}"#,
    r#"{"jsonrpc":"2.0","method":"textDocument/publishDiagnostics","params":{"diagnostics":[],"uri":"file:///w/s%20/a.yaml","version":1}}"#,
    r#"{"id":7,"jsonrpc":"2.0","result":[{"newText":"    b: 1\n","range":{"end":{"character":0,"line":3},"start":{"character":0,"line":2}}}]}"#,
    r#"{"jsonrpc":"2.0","method":"textDocument/publishDiagnostics","params":{"diagnostics":[],"uri":"file:///w/s/no.yaml","version":1}}"#,
    r#"{"id":8,"jsonrpc":"2.0","result":null}"#,
    r#"{"jsonrpc":"2.0","method":"textDocument/publishDiagnostics","params":{"diagnostics":[{"code":"settings","message":"/w/d/.yamlfmt.toml: config: indent","range":{"end":{"character":0,"line":0},"start":{"character":0,"line":0}},"severity":1,"source":"yamlfmt"}],"uri":"file:///w/d/a.yaml","version":1}}"#,
    r#"{"id":9,"jsonrpc":"2.0","result":null}"#,
    r#"{"jsonrpc":"2.0","method":"textDocument/publishDiagnostics","params":{"diagnostics":[{"code":"flow-layout","message":"flow style, expected block style","range":{"end":{"character":7,"line":1},"start":{"character":0,"line":1}},"severity":2,"source":"yamlfmt"}],"uri":"t","version":1}}"#,
    r#"{"id":10,"jsonrpc":"2.0","result":null}"#,
    r#"{"id":3,"jsonrpc":"2.0","result":null}"#,
];

/// Messages as they are written.
fn framed(alloc: Global, contents: &[&str]) -> Result<Vec<u8>, AllocError> {
    let mut bytes = Vec::new(alloc);
    for content in contents {
        let length = content.len();
        let head = format!(in alloc; "Content-Length: {length}\r\n\r\n")?;
        bytes.extend_from_slice(head.as_str().as_bytes())?;
        bytes.extend_from_slice(content.as_bytes())?;
    }
    Ok(bytes)
}

/// Returns what a search without a settings file leads to.
fn searched(alloc: Global) -> Scope {
    Scope {
        patterns: Vec::new(alloc),
        current: Vec::new(alloc),
        settings: OwnedText::new(String::new(alloc)),
        any_text: false,
        asks_any_text: false,
        is_nearest: true,
        names: false,
        stdin_name: None,
        terminal: NO_TERMINAL,
    }
}

/// Whether the server sends that, and nothing else, and ends well.
fn is_served(alloc: Global) -> Result<bool, AllocError> {
    let received = framed(alloc, &RECEIVED)?;
    let sent = framed(alloc, &SENT)?;
    let inputs = MemoryInputs {
        files: &FILES,
        standard: b"",
        current: b"/",
        opened: Vec::new(alloc),
    };
    let mut streams = in_memory(alloc);
    let status = run_server(
        alloc,
        &Start {
            inputs: &inputs,
            scope: &searched(alloc),
            style: &Style::house(),
        },
        &mut Watched::new(received.as_slice()),
        &mut streams,
    );
    let Streams { output, errors } = streams;
    Ok(
        status == 0
            && output.into_inner().as_slice() == sent.as_slice()
            && errors.into_inner().is_empty(),
    )
}

#[test]
fn serves_a_session(rt: HostRuntime) {
    assert!(rt; matches!(is_served(rt.alloc()), Ok(true)));
}
