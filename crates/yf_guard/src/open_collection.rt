//! An open collection, with the facts that decide whether it is a template.
ghost use Rattle.std.specs.Prelude.{◌≡◌};
ghost use Rattle.yf_guard.specs.Collections as Collections;

/// The facts about a node that the collection around it needs.
#[derive(Clone, Copy)]
pub enum NodeKind {
    /// An empty node without properties.
    Empty,
    Mapping {
        flow: bool,
        /// Whether each value is an empty node without properties.
        has_no_values: bool,
    },
    Other,
}

/// The nodes of a collection that have been read.
#[derive(Clone, Copy)]
pub enum Seen {
    Nothing,
    /// The first one. As a key it may make its mapping a template.
    First { doubles: bool },
    /// The first two. As a pair they may make their mapping a template.
    Pair { is_template: bool },
    More,
}

/// A collection that has not ended yet.
#[derive(Clone, Copy)]
pub struct OpenCollection {
    /// The byte offset at which it begins.
    pub offset: usize,
    pub flow: bool,
    /// Whether a value comes next, in a mapping.
    pub at_value: bool,
    /// Whether each value so far is an empty node without properties, in a mapping.
    pub has_no_values: bool,
    pub seen: Seen,
}

/// Returns a collection without nodes so far.
pub fn opened(flow: bool, offset: usize) -> OpenCollection
    ensures { result ≡ Collections.opened flow offset }
{
    OpenCollection {
        offset,
        flow,
        at_value: false,
        has_no_values: true,
        seen: Seen::Nothing,
    }
}

fn is_empty(kind: NodeKind) -> bool
    ensures { result ≡ Collections.is_empty_kind kind }
{
    match kind {
        NodeKind::Empty => true,
        NodeKind::Mapping { .. } | NodeKind::Other => false,
    }
}

/// Returns whether such a node, as the first key of a mapping, makes the mapping a template if the value is empty.
fn doubles(flow: bool, kind: NodeKind) -> bool
    ensures { result ≡ Collections.doubles_kind flow kind }
{
    match kind {
        NodeKind::Mapping {
            flow: inner,
            has_no_values,
        } => {
            if flow {
                return inner;
            }
            if inner {
                return false;
            }
            has_no_values
        }
        NodeKind::Empty | NodeKind::Other => false,
    }
}

fn seen_after(flow: bool, kind: NodeKind, seen: Seen) -> Seen
    ensures { result ≡ Collections.seen_after flow kind seen }
{
    match seen {
        Seen::Nothing => Seen::First {
            doubles: doubles(flow, kind),
        },
        Seen::First { doubles } => {
            if doubles {
                return Seen::Pair {
                    is_template: is_empty(kind),
                };
            }
            Seen::Pair { is_template: false }
        }
        Seen::Pair { .. } => Seen::More,
        Seen::More => Seen::More,
    }
}

fn no_values_after(collection: OpenCollection, kind: NodeKind) -> bool
    ensures { result ≡ Collections.no_values_after collection kind }
{
    if collection.at_value {
        if collection.has_no_values {
            return is_empty(kind);
        }
        return false;
    }
    collection.has_no_values
}

/// Returns the collection after one more node directly in it.
pub fn with_node(kind: NodeKind, collection: OpenCollection) -> OpenCollection
    ensures { result ≡ Collections.with_node kind collection }
{
    OpenCollection {
        offset: collection.offset,
        flow: collection.flow,
        at_value: !collection.at_value,
        has_no_values: no_values_after(collection, kind),
        seen: seen_after(collection.flow, kind, collection.seen),
    }
}

/// Returns the kind of the collection, as a node of the collection around it.
pub fn end_kind(is_map: bool, collection: OpenCollection) -> NodeKind
    ensures { result ≡ Collections.end_kind is_map collection }
{
    if is_map {
        return NodeKind::Mapping {
            flow: collection.flow,
            has_no_values: collection.has_no_values,
        };
    }
    NodeKind::Other
}

/// Returns whether the collection is a template, if it is a mapping and ends here.
pub fn is_template(collection: OpenCollection) -> bool
    ensures { result ≡ Collections.is_template_seen collection.seen }
{
    match collection.seen {
        Seen::Pair { is_template } => is_template,
        Seen::Nothing => false,
        Seen::First { .. } => false,
        Seen::More => false,
    }
}
