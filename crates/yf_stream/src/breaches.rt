//! The rules for each document besides its grammar: the handles of its tags are declared (YAML 1.2.2, section 6.9.1),
//! each alias names an anchor before it (section 7.1), no YAML directive and no TAG directive for one handle is
//! repeated and the major version is 1 (section 6.8), and each escape is a character (section 5.7). Only the first
//! breach is reported.
ghost use Rattle.std.specs.Prelude.{◌≡◌, [], ◌∷◌, MatchBool};
ghost use Rattle.yf_stream.specs.TagPass.{FirstOfBoth};
ghost use Rattle.yf_stream.specs.WellFormed.{IsEarlierBreach, breach_if, escape_breaches, rank};

/// The rule that is broken.
#[derive(Clone, Copy)]
pub(crate) enum BreachKind {
    UnknownHandle,
    UnknownAlias,
    RepeatedDirective,
    BadVersion,
    EscapeValue,
}

/// The byte offset of a tag, an alias, a directive or an escape, and the rule that it breaks.
#[derive(Clone, Copy)]
pub(crate) struct Breach {
    pub(crate) offset: usize,
    pub(crate) kind: BreachKind,
}

/// Keeps a breach if the test holds and the breach is the first so far: by its offset, and at one offset by its kind.
pub(crate) fn keep_if(first: &mut Option<Breach>, test: bool, kind: BreachKind, offset: usize)
    ensures { FirstOfBoth first.old first.new (breach_if test kind offset) }
{
    if test {
        *first = Some(earlier(*first, Breach { offset, kind }));
    }
}

/// Keeps the first of the escapes that are no character.
pub(crate) fn keep_escapes(first: &mut Option<Breach>, escapes: &[usize])
    ensures { FirstOfBoth first.old first.new (escape_breaches escapes.now) }
{
    for offset in escapes {
        keep_if(first, true, BreachKind::EscapeValue, *offset);
    }
}

// Returns the earlier one of the first breach so far and another one.
fn earlier(first: Option<Breach>, found: Breach) -> Breach
    ensures { FirstOfBoth first (Some result) (found ∷ []) }
{
    match first {
        Some(breach) => {
            if precedes(breach, found) {
                return breach;
            }
            found
        }
        None => found,
    }
}

// Returns whether the breach `a` comes before `b`, or both have one offset and one kind.
fn precedes(a: Breach, b: Breach) -> bool
    ensures { MatchBool result (IsEarlierBreach a b) (IsEarlierBreach b a) }
{
    if a.offset < b.offset {
        return true;
    }
    if b.offset < a.offset {
        return false;
    }
    order_of(a.kind) <= order_of(b.kind)
}

// Returns the rank of a breach among those at its offset; the lowest comes first.
fn order_of(kind: BreachKind) -> u8
    ensures { result ≡ rank kind }
{
    match kind {
        BreachKind::UnknownHandle => 4,
        BreachKind::UnknownAlias => 5,
        BreachKind::RepeatedDirective => 6,
        BreachKind::BadVersion => 7,
        BreachKind::EscapeValue => 8,
    }
}
