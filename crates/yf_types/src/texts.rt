//! Tests by patterns: each one tests whether a text begins with a match, and whether its rest passes another test.

use crate::classes::ByteClass;
use std::marker::PhantomData;

/// A test of a text.
pub trait Test {
    ghost use Rattle.std.specs.Prelude.{ℕ, Bool, List, ◌≡◌};

    ghost test: { List ℕ → Bool };

    fn passes(bytes: &[u8]) -> bool
        ensures { result ≡ test bytes.now };
}

/// The text is empty.
pub struct End;

impl Test for End {
    ghost use Rattle.yf_types.specs.Tests.{is_end};

    ghost test = { is_end };

    fn passes(bytes: &[u8]) -> bool {
        match bytes {
            [] => true,
            [_, ..] => false,
        }
    }
}

/// The text begins with a byte of the class, and its rest passes.
pub struct One<C, K>(PhantomData<C>, PhantomData<K>);

impl<C: ByteClass, K: Test> Test for One<C, K> {
    ghost use Rattle.yf_types.specs.Tests.{after_match};
    ghost use Rattle.yf_lines.specs.CoreSchema.{byte_of};

    ghost test = { after_match (byte_of C.members) K.test };

    fn passes(bytes: &[u8]) -> bool {
        match bytes {
            [] => false,
            [first, rest @ ..] => C::has(*first) && K::passes(rest),
        }
    }
}

/// The text passes, maybe after a byte of the class.
pub struct Maybe<C, K>(PhantomData<C>, PhantomData<K>);

impl<C: ByteClass, K: Test> Test for Maybe<C, K> {
    ghost use Rattle.yf_types.specs.Tests.{after_match};
    ghost use Rattle.yf_lines.specs.CoreSchema.{byte_of, optional};

    ghost test = { after_match (optional (byte_of C.members)) K.test };

    fn passes(bytes: &[u8]) -> bool {
        One::<C, K>::passes(bytes) || K::passes(bytes)
    }
}

/// The text passes after any number of bytes of the class.
pub struct Many<C, K>(PhantomData<C>, PhantomData<K>);

impl<C: ByteClass, K: Test> Test for Many<C, K> {
    ghost use Rattle.yf_types.specs.Tests.{after_match};
    ghost use Rattle.yf_lines.specs.CoreSchema.{byte_of, repeated};

    ghost test = { after_match (repeated (byte_of C.members)) K.test };

    fn passes(bytes: &[u8]) -> bool {
        let mut rest = bytes;
        'bytes: loop {
            if K::passes(rest) {
                return true;
            }
            match rest {
                [] => return false,
                [first, others @ ..] => {
                    if !C::has(*first) {
                        return false;
                    }
                    rest = others;
                }
            }
        }
    }
}

/// The text passes one of two tests.
pub struct Either<A, B>(PhantomData<A>, PhantomData<B>);

impl<A: Test, B: Test> Test for Either<A, B> {
    ghost use Rattle.std.specs.Prelude.{◌||◌};

    ghost test = { λ t. A.test t || B.test t };

    fn passes(bytes: &[u8]) -> bool {
        A::passes(bytes) || B::passes(bytes)
    }
}
