//! The laws of every text and every style.
ghost use Rattle.yf_rules.specs.AllRules.{AllAreAsked, RulesAreListed};
ghost use Rattle.yf_laws.specs.Formattings.{RefusedTextsHaveNoReading, StandardTextsAreFormatted};
ghost use Rattle.yf_laws.specs.Laws.{ReadingsAreOfTexts};
ghost use Rattle.yf_laws.specs.Settings.CommentBlocks.{CommentsStayInBlocks};
ghost use Rattle.yf_laws.specs.Settings.DocumentStarts.{StartsAreKept};
ghost use Rattle.yf_laws.specs.Settings.HiddenCharacters.{HiddenAreEscaped, HiddenAreFound, QuotesAreSpelled};
ghost use Rattle.yf_rules.specs.CheckAfterFormat.{FormattedTextsAreClean};
ghost use Rattle.yf_rules.specs.TreeSets.{SetsOfTextsAreExact};
ghost use Rattle.yf_rules.specs.UniqueFindings.{FindingsAreOne};
ghost use Rattle.yf_standard.specs.Acceptance.{FaultsTellOfTheStandard, StandardStreamsMeanOne, StandardTextsAreRead};
ghost use Rattle.yf_standard.specs.Laws.{ReadTextsAreStandard};
ghost use Rattle.yf_standard.specs.StreamLaws.{ReadingsAreSaid, StreamTokens};
ghost use Rattle.yf_stream.specs.HasReading.{WellFormedTextsHaveReadings};
ghost use Rattle.yf_stream.specs.Laws.{ReadTextsHaveNoFault, ReadingsAreOne};

use yf_laws::every_text::{rules_are_mended, settings_are_kept, texts_are_read_and_formatted};
use yf_standard::laws::meaning_laws;

/// The laws of reading and formatting, for every text and every style. The function does nothing; its contract is the
/// laws.
///
/// A text has a reading if and only if the standard's productions (YAML 1.2.2, chapters 5 to 9), with the reading
/// rules, derive all of it as `l-yaml-stream` with at most `DEPTH` collections open at once, and its meaning, which is
/// unique, breaks none of the standard's other rules (sections 5.7, 6.8, 6.9 and 7.1). Without the reading rules the
/// productions derive it too. A fault says which of these conditions fails. A text has at most one reading. If it has
/// one, `read_stream` fails only for lack of memory. If `read_stream` fails for another reason, the text has none.
///
/// The tokens of each derivation of a text state its documents, and so the reading: directives, events with their
/// anchors and tags, and comments (`streams`, `readings`). So all derivations state one reading.
///
/// Each such text has a formatting in each style. The formatting is such a text too, keeps content and comments, is its
/// own formatting, and has no fixable finding. It begins its documents as `document_start` says, spells quoted scalars
/// as `invisible` says, and keeps comments in their blocks if `comments` says so.
///
/// Each reading of a text has trees, its comments and its offsets are in the order of the text, and its scalars can be
/// spelled in their styles. In such a reading each rule finds exactly its set, and a check has only one list of
/// findings.
pub fn headline()
    ensures standard { StandardTextsAreRead }
    ensures meant { StandardStreamsMeanOne }
    ensures letter { ReadTextsAreStandard }
    ensures told { FaultsTellOfTheStandard }
    ensures derived { WellFormedTextsHaveReadings }
    ensures one { ReadingsAreOne }
    ensures textual { ReadingsAreOfTexts }
    ensures accepted { ReadTextsHaveNoFault }
    ensures refused { RefusedTextsHaveNoReading }
    ensures streams { StreamTokens }
    ensures readings { ReadingsAreSaid }
    ensures formatted { StandardTextsAreFormatted }
    ensures starts { StartsAreKept }
    ensures spelled { QuotesAreSpelled }
    ensures escaped { HiddenAreEscaped }
    ensures found { HiddenAreFound }
    ensures blocks { CommentsStayInBlocks }
    ensures clean { FormattedTextsAreClean }
    ensures exact { SetsOfTextsAreExact }
    ensures unique { FindingsAreOne }
    ensures listed { RulesAreListed }
    ensures asked { AllAreAsked }
{
    texts_are_read_and_formatted();
    rules_are_mended();
    settings_are_kept();
    meaning_laws();
}
