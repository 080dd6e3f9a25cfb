//! The passes compute what the definitions state.
ghost use Rattle.yf_laws.specs.PassLaws.{FormattingsAreKept, LayoutsArePrinted, NormalFormsAreMade, TrailsAreFound};

/// The text printed for the normal form of a text's reading, from what the passes measured and decided for the reading,
/// is the formatting of the text, with all its promises.
#[inline(always)]
pub fn formattings_are_kept()
    ensures { FormattingsAreKept }
{}

/// The events made from what the passes measured and decided for a reading are those of its normal form.
#[inline(always)]
pub fn normal_forms_are_made()
    ensures { NormalFormsAreMade }
{}

/// The text printed for a normal form, from what the passes measured and decided for it, is its layout.
#[inline(always)]
pub fn layouts_are_printed()
    ensures { LayoutsArePrinted }
{}

/// The comments that the pass marks as ending a line are those that end a line of the layout.
#[inline(always)]
pub fn trails_are_found()
    ensures { TrailsAreFound }
{}
