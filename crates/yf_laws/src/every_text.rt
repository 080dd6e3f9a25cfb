//! The laws of every text.
ghost use Rattle.yf_laws.specs.Formattings.{FormattingsHold, RefusedTextsHaveNoReading, StandardTextsAreFormatted};
ghost use Rattle.yf_laws.specs.Laws.{ReadingsAreOfTexts};
ghost use Rattle.yf_laws.specs.Mended.{RulesAreMended};
ghost use Rattle.yf_laws.specs.Settings.CommentBlocks.{CommentsStayInBlocks};
ghost use Rattle.yf_laws.specs.Settings.DocumentStarts.{StartsAreKept};
ghost use Rattle.yf_laws.specs.Settings.HiddenCharacters.{HiddenAreEscaped, HiddenAreFound, QuotesAreSpelled};
ghost use Rattle.yf_standard.specs.Acceptance.{FaultsTellOfTheStandard, StandardStreamsMeanOne, StandardTextsAreRead};
ghost use Rattle.yf_standard.specs.Laws.{ReadTextsAreStandard};
ghost use Rattle.yf_stream.specs.HasReading.{WellFormedTextsHaveReadings};
ghost use Rattle.yf_stream.specs.Laws.{ReadTextsHaveNoFault, ReadingsAreOne};

/// A text has a reading if and only if the standard's productions (YAML 1.2.2, chapters 5 to 9), with the reading
/// rules, derive all of it as `l-yaml-stream` with at most `DEPTH` collections open at once, and its meaning, which is
/// unique, breaks none of the standard's other rules (sections 5.7, 6.8, 6.9 and 7.1). Without the reading rules the
/// productions derive it too. A fault says which of these conditions fails. A text has at most one reading. If it has
/// one, `read_stream` fails only for lack of memory. If `read_stream` fails for another reason, the text has none. Each
/// text with a reading has a formatting in each style. The formatting has a reading too, keeps content and comments, is
/// its own formatting, and has no fixable finding.
///
/// Each reading of a text has trees. Its comments and its offsets are in the order of the text, and its scalars can be
/// spelled in their styles.
#[inline(always)]
pub fn texts_are_read_and_formatted()
    ensures standard { StandardTextsAreRead }
    ensures meant { StandardStreamsMeanOne }
    ensures letter { ReadTextsAreStandard }
    ensures told { FaultsTellOfTheStandard }
    ensures derived { WellFormedTextsHaveReadings }
    ensures one { ReadingsAreOne }
    ensures textual { ReadingsAreOfTexts }
    ensures accepted { ReadTextsHaveNoFault }
    ensures refused { RefusedTextsHaveNoReading }
    ensures formatted { StandardTextsAreFormatted }
{}

/// A formatted text has no fixable finding.
#[inline(always)]
pub fn rules_are_mended()
    ensures { RulesAreMended }
{}

/// A text that has a formatting is accepted by the standard's productions and rules, and has one reading. Both hold
/// for its formatting too, which has no fixable finding.
#[inline(always)]
pub fn formattings_hold()
    ensures { FormattingsHold }
{}

/// What the settings promise about the readings of a text and of its formatting. Each document of the formatting begins
/// with a `---`, except that `document_start` may leave it out for the first one. Each quoted scalar is, from quote to
/// quote, spelled as the house style spells it. Under `invisible = "escaped"` no quoted scalar holds a hidden character
/// unescaped, so the rule hidden-character finds each one that is left, except for byte order marks. Under `comments =
/// "block"` a comment on its own line at the column of an open collection stays at the column of that collection,
/// unless the next row decides its column (`IsKeptAt`).
#[inline(always)]
pub fn settings_are_kept()
    ensures starts { StartsAreKept }
    ensures spelled { QuotesAreSpelled }
    ensures escaped { HiddenAreEscaped }
    ensures found { HiddenAreFound }
    ensures blocks { CommentsStayInBlocks }
{}
