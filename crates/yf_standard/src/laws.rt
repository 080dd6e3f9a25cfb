//! The laws that relate the readers' definitions to the standard's productions.
ghost use Rattle.yf_standard.specs.Acceptance.{FaultsTellOfTheStandard, StandardStreamsMeanOne, StandardTextsAreRead};
ghost use Rattle.yf_standard.specs.ContentLaws.{DoubleContents, FoldedContents, LiteralContents, PlainContents, SingleContents};
ghost use Rattle.yf_standard.specs.Laws.{ForbiddenLinesAreStandard, ReadTextsAreStandard, RefusedStreamsAreNone, RulesOnlyRestrict, StandardStreamsAreDerived, StreamsAreStandard};
ghost use Rattle.yf_standard.specs.NodeLaws.{BlockNodes, FlowNodes};
ghost use Rattle.yf_standard.specs.StreamLaws.{ReadingsAreSaid, StreamTokens};
ghost use Rattle.yf_standard.specs.TokenLaws.{AliasTokens, CommentTokens, FoldedScalars, LiteralScalars, PropertyTokens, SeparateTokens};

/// Does nothing: its contract states which texts are streams of the standard, with which meaning.
///
/// The definitions of the crates below derive a text as a stream, within the limit of open collections, if and only if
/// the standard's productions do with the reading rules (`l-yaml-stream`, production 211). So no text that is refused
/// for its syntax is a stream of the standard. The rules only restrict the standard's letter, so a text that has a
/// reading is a stream by the letter too. Forbidden lines are those of production 206.
///
/// Each text that the standard derives has exactly one meaning. A text has a reading if and only if the standard
/// derives it and its meaning breaks none of the standard's other rules (sections 5.7, 6.8, 6.9 and 7.1). If a text is
/// refused with `Syntax` or `TooDeep`, the standard doesn't derive it. If it is refused with another fault except
/// `Memory`, the standard derives it, and the text breaks the rule that the fault names.
pub fn standard_laws()
    ensures accepted { StreamsAreStandard }
    ensures derived { StandardStreamsAreDerived }
    ensures refused { RefusedStreamsAreNone }
    ensures restrict { RulesOnlyRestrict }
    ensures read { ReadTextsAreStandard }
    ensures forbidden { ForbiddenLinesAreStandard }
    ensures means { StandardStreamsMeanOne }
    ensures texts { StandardTextsAreRead }
    ensures faults { FaultsTellOfTheStandard }
{}

/// Does nothing: its contract gives the meanings of some of the standard's productions. A meaning is a function of the
/// derivation, by the names of the productions (`specs/Contents.antt` and `specs/Tokens.antt`).
///
/// Each derivation of a plain, a single-quoted or a double-quoted scalar, and of the content of a literal or a folded
/// scalar, means the text that is read, with its bad escapes (sections 5.7, 6.5, 7.3, 8.1.1.2, 8.1.2 and 8.1.3). For
/// quoted scalars and the content of block scalars, this law is for derivations that cover no forbidden line. Each
/// derivation of comments, of separation, of an alias and of node properties has the comments and names that are read
/// (6.6 to 6.9, 7.1). Each derivation of a node that covers no forbidden line has the events, the comments, and the
/// offsets of tags and of bad escapes that are read (`specs/Readings.antt`; chapters 7 and 8). Each derivation of a
/// whole text as a stream is read as the documents that its tokens state, with their directives and with all comments
/// (6.8 and chapter 9). So all derivations of a text that has a reading state that reading.
pub fn meaning_laws()
    ensures plain { PlainContents }
    ensures single { SingleContents }
    ensures double { DoubleContents }
    ensures literal { LiteralContents }
    ensures folded { FoldedContents }
    ensures comments { CommentTokens }
    ensures separation { SeparateTokens }
    ensures aliases { AliasTokens }
    ensures properties { PropertyTokens }
    ensures literals { LiteralScalars }
    ensures foldeds { FoldedScalars }
    ensures flow_nodes { FlowNodes }
    ensures block_nodes { BlockNodes }
    ensures streams { StreamTokens }
    ensures readings { ReadingsAreSaid }
{}
