//! The forms of plain scalars.

/// A set of texts with one type, and for `True` and `False` one value.
#[derive(Clone, Copy)]
pub enum Form {
    Null,
    True,
    False,
    /// Digits after `0b`, in YAML 1.1.
    Binary,
    /// Digits after `0`, in YAML 1.1.
    Octal,
    /// Digits after `0o`, in YAML 1.2.
    PrefixedOctal,
    Decimal,
    /// Digits after `0x`.
    Hexadecimal,
    /// An integer in base 60 with colons, in YAML 1.1.
    Sixties,
    Number,
    /// A number in base 60 with colons and a point, in YAML 1.1.
    SixtiesNumber,
    Infinity,
    NotANumber,
    /// A date or a time, in YAML 1.1.
    Timestamp,
    /// `<<`, in YAML 1.1.
    Merge,
    /// `=`, in YAML 1.1.
    Default,
    /// A string.
    Text,
}
