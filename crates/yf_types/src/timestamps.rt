//! Dates and times in YAML 1.1.
ghost use Rattle.std.specs.Prelude.{◌≡◌};
ghost use Rattle.yf_types.specs.OlderSchema as Schema;
ghost use Rattle.yf_types.specs.Tests.{is_match};

use crate::classes::{Blank, Colon, Dash, Digit, LetterT, LetterZ, Point, Sign};
use crate::texts::{Either, End, Many, Maybe, One, Test};

type TwoDigits<K> = One<Digit, One<Digit, K>>;

type OneOrTwoDigits<K> = One<Digit, Maybe<Digit, K>>;

type Year<K> = TwoDigits<TwoDigits<One<Dash, K>>>;

type Zone<K> = Either<
    One<LetterZ, K>,
    One<Sign, OneOrTwoDigits<Either<One<Colon, TwoDigits<K>>, K>>>,
>;

type MaybeZone<K> = Either<Many<Blank, Zone<K>>, K>;

type MaybeFraction<K> = Either<One<Point, Many<Digit, K>>, K>;

type Seconds<K> = One<Colon, TwoDigits<MaybeFraction<MaybeZone<K>>>>;

type Clock<K> = OneOrTwoDigits<One<Colon, TwoDigits<Seconds<K>>>>;

type Time<K> = Either<One<LetterT, Clock<K>>, One<Blank, Many<Blank, Clock<K>>>>;

/// Returns whether the text is a date.
pub fn is_date(text: &[u8]) -> bool
    ensures { result ≡ is_match Schema.date_pattern text.now }
{
    Year::<TwoDigits<One<Dash, TwoDigits<End>>>>::passes(text)
}

/// Returns whether the text is a date with a time.
pub fn is_date_time(text: &[u8]) -> bool
    ensures { result ≡ is_match Schema.date_time_pattern text.now }
{
    Year::<OneOrTwoDigits<One<Dash, OneOrTwoDigits<Time<End>>>>>::passes(text)
}
