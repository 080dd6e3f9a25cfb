//! Parts of lists and texts.
ghost use Rattle.std.specs.Prelude.{◌≡◌, ◌+◌, ◌<◌, ◌≤◌, IfSome, drop, length, position, take};
ghost use Rattle.yf_excludes.specs.Segments.{is_slash};

/// Returns the elements from an index on.
pub fn from_index<T>(list: &[T], index: usize) -> &[T]
    requires { index ≤ length list.now }
    ensures { result.now ≡ drop index list.now }
{
    &list[index..]
}

/// Returns the elements after an index.
pub fn after_index<T>(list: &[T], index: usize) -> &[T]
    requires { index < length list.now }
    ensures { result.now ≡ drop (index + 1) list.now }
{
    &list[index + 1..]
}

/// Returns the first `count` elements.
pub fn up_to<T>(list: &[T], count: usize) -> &[T]
    requires { count ≤ length list.now }
    ensures { result.now ≡ take count list.now }
{
    &list[..count]
}

/// Returns the offset of the first slash of a text.
pub fn slash_at(text: &[u8]) -> Option<usize>
    ensures value { result ≡ position is_slash text.now }
    ensures bound { IfSome result (λ k. k < length text.now) }
{
    text.iter().position(|b| *b == b'/')
}
