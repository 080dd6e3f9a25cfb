//! Files that the program skips, since their text is no data.
ghost use Rattle.std.specs.Prelude.{◌≡◌};
ghost use Rattle.yf_host.specs.LeftAlone.{left_line, left_status};
ghost use Rattle.yf_rules.specs.Runs.ByteStream.{WrittenOrFailed, stream_of};

use crate::report::{FINDINGS, GOOD};
use yf_guard::guarded::Guarded;
use yf_lines::output::write_text;
use yf_lines::watched::Sink;

/// Writes the line of a file that the program skips, and returns the status: 0 if its text is encrypted, or else 1.
pub fn report_left<E: Sink>(why: Guarded, error_stream: &mut E) -> u8
    ensures status { result ≡ left_status why }
    ensures line { WrittenOrFailed (stream_of E.contents E.has_failed error_stream.old)
        (stream_of E.contents E.has_failed error_stream.new) (left_line why) }
{
    let _ = write_text(error_stream, line_of(why).as_bytes());
    status_of(why)
}

/// Returns the line of a file that the program skips.
pub fn line_of(why: Guarded) -> &'static str
    ensures { result.now ≡ left_line why }
{
    match why {
        Guarded::Vault => "left alone: encrypted\n",
        Guarded::NoData { .. } => "left alone: no data\n",
        Guarded::Template { .. } => "left alone: template\n",
    }
}

fn status_of(why: Guarded) -> u8
    ensures { result ≡ left_status why }
{
    match why {
        Guarded::Vault => GOOD,
        Guarded::NoData { .. } => FINDINGS,
        Guarded::Template { .. } => FINDINGS,
    }
}
