//! Characters that are shown as they are, and their widths in columns.
ghost use Rattle.std.specs.Prelude.{◌≡◌, ◌≤◌};
ghost use Rattle.yf_explain.specs.Shown as Shown;

/// Returns whether the character takes one column and is shown as it is.
pub(crate) fn is_narrow(c: char) -> bool
    ensures { result ≡ Shown.is_narrow c }
{
    matches!(c, ' '..='~' | '\u{A1}'..='\u{AC}' | '\u{AE}'..='\u{2FF}' | '\u{391}'..='\u{3A1}' | '\u{3A3}'..='\u{482}'
        | '\u{48A}'..='\u{52F}' | '\u{2010}'..='\u{2027}' | '\u{2030}'..='\u{205E}')
}

/// Returns whether the character takes two columns and is shown as it is.
pub(crate) fn is_wide(c: char) -> bool
    ensures { result ≡ Shown.is_wide c }
{
    matches!(c, '\u{3041}'..='\u{3096}' | '\u{30A1}'..='\u{30FA}' | '\u{4E00}'..='\u{9FFF}' | '\u{AC00}'..='\u{D7A3}')
}

/// Returns whether the character is shown as it is.
pub(crate) fn is_visible(c: char) -> bool
    ensures { result ≡ Shown.is_visible c }
{
    is_narrow(c) || is_wide(c)
}

/// Returns the number of columns of the character as it is shown.
#[tactic(auto, unfolding(crate::specs::Shown::columns_of))]
pub fn columns_of(c: char) -> usize
    ensures value { result ≡ Shown.columns_of c }
    ensures bound { result ≤ 10 }
{
    if is_wide(c) {
        return 2;
    }
    if is_narrow(c) {
        return 1;
    }
    if c < '\u{100}' {
        return 4;
    }
    if c < '\u{10000}' {
        return 6;
    }
    10
}
