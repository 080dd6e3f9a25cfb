//! Common mistakes, and the position and the reason that are reported for each. The positions were worked out by hand.
//! The position is the first character with which no stream begins, with three exceptions: an open quote is reported at
//! the quote, open brackets at the end of the last character in them, and a tab in the indentation at the tab.

use crate::tests::answers::repeated;
use std::alloc::Global;
use yf_diagnose::Why;
use yf_lines::fault::Fault;
use yf_lines::place::Position;
use yf_stream::stream::read_stream;

/// Texts that are not streams, the line and the column of the fault, and the reason.
static MISTAKES: [(&str, (usize, usize), Why); 201] = [
    (
        "{\"name\": \"x\",\n \"deps\": [\"a\" \"b\"],\n \"v\": 1}\n",
        (2, 15),
        Why::CommaExpected,
    ),
    (
        "{\n  \"a\": \"x\",\n  \"b\": \"y\"\n  \"c\": \"z\"\n}\n",
        (4, 3),
        Why::CommaExpected,
    ),
    ("{\n  \"a\": 1\n  \"b\": 2\n}\n", (3, 6), Why::SecondColon),
    ("cfg: {a: 1, b: 2\n", (1, 17), Why::BracketsOpen),
    ("ports: [80, 443\nname: web\n", (2, 1), Why::LeftInBrackets),
    (
        "deps: [\n  a,\n  b,\nnext: 1\n",
        (4, 1),
        Why::LeftInBrackets,
    ),
    ("key: [\n  1,\n  2\n]\n", (4, 1), Why::BracketLeft),
    ("a:\n  b: {\n    c: 1\n  }\n", (4, 3), Why::BracketLeft),
    ("a: [1, 2}\n", (1, 9), Why::WrongBracket),
    (
        "{\"a\": [1, 2, \"b\": {\"c\": 3}}\n",
        (1, 27),
        Why::WrongBracket,
    ),
    ("a: [1, 2]]\n", (1, 10), Why::NoBracketOpen),
    ("a: [1,, 2]\n", (1, 7), Why::NoEntryBeforeComma),
    ("[, a]\n", (1, 2), Why::NoEntryBeforeComma),
    ("a: {b: 1, c}: d\n", (1, 13), Why::MappingInLine),
    ("x: [a, b] c\n", (1, 11), Why::AfterBrackets),
    ("x: [a, - b]\n", (1, 8), Why::DashInBrackets),
    ("x: {a: b: c}\n", (1, 9), Why::SecondColon),
    ("x: [a,\n# note\n  b\n", (3, 4), Why::BracketsOpen),
    ("x: [%a]\n", (1, 5), Why::NoPlain),
    ("{a: 1, b: [x, y}, c: 2}\n", (1, 16), Why::WrongBracket),
    ("a: \"x\nb: y\n", (1, 4), Why::QuoteLeft),
    ("a: 'x\nb: y\n", (1, 4), Why::QuoteLeft),
    ("a: \"x", (1, 4), Why::QuoteOpen),
    ("msg: 'it's here'\n", (1, 10), Why::AfterSingle),
    ("a: \"say \"hi\" now\"\n", (1, 10), Why::AfterNode),
    ("a: \"x\" y\n", (1, 8), Why::AfterNode),
    ("a: \"C:\\Users\\me\"\n", (1, 7), Why::EscapeDigits),
    ("re: \"\\d+\"\n", (1, 6), Why::NoEscape),
    ("a: \"\\x4\"\n", (1, 5), Why::EscapeDigits),
    ("d: \"first\n  second\nthird\"\n", (3, 1), Why::LeftInQuotes),
    (
        "d: \"first\n  a\n  C:\\Users\n  b\"\n",
        (3, 5),
        Why::EscapeDigits,
    ),
    ("\"a\": \"b\n\"c\": \"d\"\n", (1, 6), Why::QuoteLeft),
    ("- \"a\n- \"b\"\n", (1, 3), Why::QuoteLeft),
    ("'a\n---\nb'\n", (1, 1), Why::QuoteOpen),
    ("\"key\n\": v\n", (2, 2), Why::QuotedKeyOpen),
    ("a: \"b\"c: d\n", (1, 7), Why::AfterNode),
    ("a:\n\tb: 1\n", (2, 1), Why::TabIndents),
    ("a:\n  b: 1\n\tc: 2\n", (3, 1), Why::TabIndents),
    ("a: [\n\tb\n]\n", (2, 1), Why::TabIndents),
    ("-\ta: 1\n-\tb: 2\n", (1, 2), Why::TabBeforeEntry),
    ("a:\n  - b\n \t- c\n", (3, 2), Why::TabIndents),
    ("a: |\n\tx\n", (2, 1), Why::TabIndents),
    ("? a\n:\tb: 1\n", (2, 2), Why::TabBeforeEntry),
    ("a: 1\n b: 2\n", (2, 3), Why::DeeperThanKey),
    ("a:\n  b: 1\n   c: 2\n", (3, 5), Why::DeeperThanKey),
    ("a:\n    b: 1\n  c: 2\n", (3, 3), Why::NoSuchColumn),
    ("a:\n  - b\n - c\n", (3, 2), Why::NoSuchColumn),
    ("a:\n  - b: 1\n   c: 2\n", (3, 4), Why::NoSuchColumn),
    (" a: 1\nb: 2\n", (2, 1), Why::LeftOfRoot),
    ("a: \"x\"\n  b: 1\n", (2, 3), Why::RightOfEntries),
    ("- a\n  b: 1\n", (2, 4), Why::DeeperThanItem),
    ("a: |\n    x\n  y\nb: 1\n", (3, 3), Why::LeftInScalar),
    ("a: |\n     \n  x\n", (2, 3), Why::LongBlankLine),
    ("a: >\ntext\nb: 1\n", (2, 5), Why::LeftOfScalar),
    ("a: b: c\n", (1, 5), Why::MappingInLine),
    ("url: http: //x\n", (1, 10), Why::MappingInLine),
    ("a: 1\nb\nc: 3\n", (2, 2), Why::KeyWithoutColon),
    ("a:1\nb: 2\n", (2, 2), Why::KeyUnspacedAbove),
    ("a: 1\nb:2\nc: 3\n", (2, 4), Why::KeyUnspaced),
    (
        "a: 1\nkey\n  - x\n  - y\nz: 2\n",
        (2, 4),
        Why::KeyWithoutColon,
    ),
    ("server\n  host: x\n", (2, 7), Why::KeyWithoutColonAbove),
    ("- name: a: b\n", (1, 10), Why::MappingInLine),
    ("time: 12:30: late\n", (1, 12), Why::MappingInLine),
    ("a: - b\n", (1, 4), Why::SequenceInLine),
    ("a: 1\n- b\n", (2, 1), Why::DashInMapping),
    ("- a\nb: 1\n", (2, 1), Why::KeyInSequence),
    ("- a\nb\n", (2, 1), Why::KeyInSequence),
    ("-a\n-b: 1\n", (2, 3), Why::DashUnspaced),
    ("a:\n- b\nc\n", (3, 2), Why::KeyWithoutColon),
    ("a: &x\nb: &x &y c\n", (2, 7), Why::PropertyTwice),
    ("a: &x *y\n", (1, 7), Why::AliasProperties),
    ("a: !!str !x y\n", (1, 10), Why::PropertyTwice),
    ("*a: b\n", (1, 5), Why::ColonOfAlias),
    ("a: & b\n", (1, 5), Why::NoName),
    ("a: !<x y\n", (1, 7), Why::VerbatimTag),
    ("a: &x - b\n", (1, 7), Why::CollectionAfterProperty),
    ("&a - b\n", (1, 4), Why::CollectionAfterProperty),
    ("a: !e!\n", (1, 7), Why::NoSuffix),
    ("a: !x%zz y\n", (1, 6), Why::TagEscape),
    ("a: @home\n", (1, 4), Why::NoPlain),
    ("a: `cmd`\n", (1, 4), Why::NoPlain),
    ("a: %x\n", (1, 4), Why::NoPlain),
    ("a: , b\n", (1, 4), Why::NoPlain),
    ("a: ]\n", (1, 4), Why::NoBracketOpen),
    ("a: *\n", (1, 5), Why::NoName),
    ("glob: *.py: x\n", (1, 13), Why::TextAsAlias),
    ("a: | text\n", (1, 6), Why::HeaderSign),
    ("a: |0\n  x\n", (1, 5), Why::HeaderSign),
    ("a: >x\n  y\n", (1, 5), Why::HeaderSign),
    ("a: >=1.0\n", (1, 5), Why::HeaderSign),
    ("a: |#c\n  x\n", (1, 5), Why::CommentUnspaced),
    ("a: \"x\"#c\n", (1, 7), Why::CommentUnspaced),
    ("a: {{ x }}-y\n", (1, 11), Why::Template),
    ("{% if x %}\na: 1\n{% endif %}\n", (1, 2), Why::Template),
    ("a: 1\n{{- x }}\n", (2, 3), Why::Template),
    (
        "a: 1\n<<<<<<< HEAD\nb: 2\n=======\nb: 3\n>>>>>>> x\n",
        (2, 13),
        Why::Conflict,
    ),
    (
        "<<<<<<< HEAD\na: 1\n=======\na: 2\n>>>>>>> x\n",
        (2, 2),
        Why::Conflict,
    ),
    ("a: x\u{0}y\n", (1, 5), Why::Control),
    ("a: \"x\u{1}y\"\n", (1, 6), Why::Control),
    ("# c\u{1}d\na: 1\n", (1, 4), Why::Control),
    ("a: x\u{FEFF}y\n", (1, 5), Why::Mark),
    ("--- a: 1\n", (1, 6), Why::OnDocumentLine),
    ("--- - a\n", (1, 5), Why::OnDocumentLine),
    ("a: 1\n... b\n", (2, 5), Why::AfterDocumentEnd),
    ("a\n---\nb\n...\nc: 1\nd\n", (6, 2), Why::KeyWithoutColon),
    ("%YAML 1.2\na: 1\n", (2, 1), Why::NoDocumentStart),
    ("%YAML 1\n---\n", (1, 8), Why::Version),
    ("%YAML 1.2 x\n---\n", (1, 11), Why::AfterDirective),
    ("%TAG !e tag:x\n---\n", (1, 8), Why::Handle),
    ("a: 1\n%YAML 1.2\n---\nb: 2\n", (2, 1), Why::DirectivePlace),
    ("\"a\"\n\"b\"\n", (2, 1), Why::NodeEnded),
    ("[a]\n[b]\n", (2, 1), Why::NodeEnded),
    ("{\"a\": 1}\n{\"b\": 2}\n", (2, 1), Why::NodeEnded),
    ("a: 1\n{}\n", (2, 3), Why::KeyWithoutColon),
    ("a: [\n---\n]\n", (1, 5), Why::BracketsOpen),
    ("? a\n:- b\n", (2, 5), Why::KeyWithoutColon),
    ("? a\n? b: c\nd\n", (3, 2), Why::KeyWithoutColon),
    ("[\n 1,\n 2\n", (3, 3), Why::BracketsOpen),
    ("a: {b: [1, 2}, c: 3}\n", (1, 13), Why::WrongBracket),
    ("{a: 1}: {b\n", (1, 11), Why::BracketsOpen),
    ("a: [b\nc: d]\n", (2, 1), Why::LeftInBrackets),
    ("a: [\"x\", \"y]\nb: 1\n", (1, 10), Why::QuoteLeft),
    ("{\"a\": tru e, \"b\" 2}\n", (1, 18), Why::ColonExpected),
    ("{a: 1, a b: {c}\n", (1, 16), Why::BracketsOpen),
    ("a: \"x\n  y\n", (1, 4), Why::QuoteOpen),
    ("path: 'C:\\dir\\'x\n", (1, 16), Why::AfterSingle),
    ("a: \"\\u12G4\"\n", (1, 5), Why::EscapeDigits),
    (
        "a: 1\n\t\nb:\n  - c\n  -\td: 1\n",
        (5, 4),
        Why::TabBeforeEntry,
    ),
    ("a:\n  b:\n    c: 1\n   d: 2\n", (4, 4), Why::NoSuchColumn),
    ("\"a\" : \"b\" \"c\"\n", (1, 11), Why::AfterNode),
    ("? a: b: c\n", (1, 7), Why::MappingInLine),
    ("- a\n-b\n- c\n", (2, 1), Why::DashUnspaced),
    ("a: &x [b] &y\n", (1, 11), Why::AfterBrackets),
    ("a: ${{ x }}: y\n", (1, 12), Why::MappingInLine),
    ("x: [a\n  b: c]\n", (2, 4), Why::PairOverLines),
    ("[a: 1, b:[c]]\n", (1, 9), Why::ColonUnspaced),
    ("a: 1\n\"b\nc\": 2\n", (2, 1), Why::QuotedKeyOpen),
    ("a: \"b\n  \\\n  c\"\n", (2, 3), Why::EscapedBreakFirst),
    ("a: &x[b]\n", (1, 6), Why::PropertyUnspaced),
    ("a: 1\n=======\nb: 2\n", (2, 8), Why::KeyWithoutColon),
    ("a: 1\n>>>>>>> x\n", (2, 1), Why::ScalarAsKey),
    ("a: 1\n||||||| base\nb: 2\n", (2, 1), Why::ScalarAsKey),
    ("a: {% x %}\n", (1, 5), Why::Template),
    ("- {{ a }}: {{ b }} c\n", (1, 20), Why::Template),
    ("key: {\n  a: 1\n}\n", (3, 1), Why::BracketLeft),
    ("- [\n  1\n]\n", (3, 1), Why::BracketLeft),
    ("a: {b: [1\n]}\n", (2, 1), Why::BracketLeft),
    ("a: \u{7F}\n", (1, 4), Why::Control),
    ("a: 'x\u{8}y'\n", (1, 6), Why::Control),
    ("a: [x\u{1}]\n", (1, 6), Why::Control),
    ("a: b # c\u{1}\n", (1, 9), Why::Control),
    ("a: # c\u{1}\n", (1, 7), Why::Control),
    ("a: # c\u{FEFF}\n", (1, 7), Why::Mark),
    ("a: [x\u{FEFF}]\n", (1, 6), Why::Mark),
    ("\u{FEFF}a: b: c\n", (1, 5), Why::MappingInLine),
    ("a: {b\r\nc: 1\r\n", (2, 1), Why::LeftInBrackets),
    ("a: \"x\r\nb: y\r\n", (1, 4), Why::QuoteLeft),
    ("a: é\nb: [é, é}\n", (2, 9), Why::WrongBracket),
    ("a: 1\n&x &y b: 2\n", (2, 4), Why::PropertyTwice),
    ("a: 1\n&x\nb: 2\n", (2, 3), Why::KeyWithoutColon),
    ("a: 1\nkey\n  b: c\nd: 1\n", (2, 4), Why::KeyWithoutColon),
    ("- x: 1\n  key\n    b: c\n", (2, 6), Why::KeyWithoutColon),
    ("x: 1\ny:\n  - p\n    q: 2\n", (4, 6), Why::DeeperThanItem),
    (
        "&a\n\nk: |+\n x\n\nl:\n\n - b # c\n - ? d\n   : [",
        (10, 7),
        Why::BracketsOpen,
    ),
    // no space after a `:`
    ("a: 1\nvalue:\"x\"\n", (2, 10), Why::KeyUnspaced),
    ("a: 1\nhttp://x\n", (2, 9), Why::KeyWithoutColon),
    ("\"a\":1\n", (1, 4), Why::ColonUnspaced),
    ("- \"a\":1\n", (1, 6), Why::ColonUnspaced),
    ("- a:1\n  b: 2\n", (2, 4), Why::KeyUnspacedAbove),
    ("{*a :b}\n", (1, 5), Why::ColonUnspaced),
    // texts that begin with `*`
    ("[main, *]\n", (1, 9), Why::NoName),
    ("a: *.{js,ts}\n", (1, 6), Why::TextAsAlias),
    ("[a, *.{js,ts}]\n", (1, 7), Why::TextAsAlias),
    // a template in quotes, in a comment or after a `$` is not the reason
    ("a: \"{{ x }}\" y\n", (1, 14), Why::AfterNode),
    ("a: '{{ x }}'y\n", (1, 13), Why::AfterSingle),
    ("a: x {{ y }} : z\n", (1, 14), Why::MappingInLine),
    (
        "a:\n    b: ${{ x }}\n  c: ${{ y }}\n",
        (3, 3),
        Why::NoSuchColumn,
    ),
    ("a: 1\n\tb: {{ x }}\n", (2, 1), Why::TabIndents),
    (
        "a: \"{{ x }}\"\n  b: \"{{ y }}\"\n",
        (2, 3),
        Why::RightOfEntries,
    ),
    ("{\"a\": \"{{ x }}\" \"b\"}\n", (1, 17), Why::CommaExpected),
    ("a: {{ x[\"y\"] }}\n", (1, 8), Why::Template),
    // a line that looks like a conflict marker, with and without its beginning
    ("title\n=======\na: 1\n", (3, 2), Why::LineJoined),
    ("a: 1\n<<<<<<<< x\n", (2, 11), Why::KeyWithoutColon),
    ("<<<<<<< HEAD\nx\n=======\nb: 1\n", (4, 2), Why::Conflict),
    // lists at the column of a line
    ("k:\n  - a\n  b: 1\n", (3, 3), Why::KeyInSequence),
    ("k: !!seq\n  - a\n  b\n", (3, 3), Why::KeyInSequence),
    ("- - a\n  b: 1\n", (2, 3), Why::KeyInSequence),
    ("- - a\n  -b\n", (2, 3), Why::DashUnspaced),
    ("a: 'x\n  - y'\n  z: 1\n", (3, 3), Why::NoSuchColumn),
    ("k:\n  [a]\n  b: 1\n", (3, 3), Why::NodeEnded),
    // lines that are one text
    ("a\nb: 1\n", (2, 2), Why::KeyWithoutColonAbove),
    ("x\ny\nz: 1\n", (3, 2), Why::LineJoined),
    ("a: x\n  y\n  b: z\n", (3, 4), Why::DeeperThanKey),
    ("a: x\n  - b: y\n", (2, 6), Why::ItemBelowText),
    ("a:\n  k\n    - b: y\n", (3, 8), Why::KeyWithoutColonAbove),
    ("[a\n ]: 1\n", (2, 3), Why::KeyOverLines),
    ("a: 1\n{b\n}: 2\n", (2, 3), Why::KeyOverLines),
    // characters that are missing in brackets
    ("{\"a\" \"b\"}\n", (1, 6), Why::ColonExpected),
    ("['a'# c\n]\n", (1, 5), Why::CommentUnspaced),
    // a byte order mark at the start of a line, in a document and before one
    ("a: 1\n\u{FEFF}b: 2\n", (2, 1), Why::Mark),
    ("a: 1\n...\n\u{FEFF}]\n", (3, 1), Why::NoBracketOpen),
];

#[test]
fn tells_mistakes(rt: HostRuntime) {
    for (text, place, why) in &MISTAKES {
        assert!(rt; is_told(rt.alloc(), text, *place, *why), "{text}");
    }
    assert!(rt; tells_a_long_key(rt.alloc()));
}

// Returns whether a key of more than 1,024 characters is reported at its `:`.
fn tells_a_long_key(alloc: Global) -> bool {
    match &repeated(alloc, &("", "k", 1030, ": v", 1)) {
        Ok(text) => is_told(alloc, text.as_str(), (1, 1031), Why::LongKey),
        Err(_) => false,
    }
}

// Returns whether the text is refused at this line and column for this reason.
fn is_told(alloc: Global, text: &str, place: (usize, usize), why: Why) -> bool {
    match &read_stream(alloc, text) {
        Err(Fault::Syntax { place: told, what }) => {
            let Position { line, column } = *told;
            if line != place.0 {
                return false;
            }
            if column != place.1 {
                return false;
            }
            *what == why.words()
        }
        _ => false,
    }
}
