//! Settings for other versions of the program.
ghost use Rattle.std.specs.Prelude.{◌≡◌, false};
ghost use Rattle.yf_program.specs.Settings.{RefusesVersion, version_line};
ghost use Rattle.yf_rules.specs.Runs.ByteStream.{WriteEnds, stream_of};
ghost use Rattle.yf_settings.specs.Texts.{allows};

use yf_command_line::build::VERSION;
use yf_lines::fault::Fault;
use yf_lines::output::write_texts;
use yf_lines::watched::Sink;
use yf_settings::texts::Required;

/// The status if the settings require another version.
const OTHER_VERSION: u8 = 3;

/// Writes which versions the settings require. Returns the status.
pub fn report_version<E: Sink>(required: &Required, error_stream: &mut E) -> u8
    requires { allows required.now VERSION.now ≡ false }
    ensures { RefusesVersion required.now result (stream_of E.contents E.has_failed error_stream.old)
        (stream_of E.contents E.has_failed error_stream.new) }
{
    match required {
        Required::Any => unreachable!(),
        Required::Versions(requirement) => {
            let _ = write_version_line(requirement.text.as_str(), error_stream);
            OTHER_VERSION
        }
    }
}

// Writes the line of a settings file that requires another version.
fn write_version_line<E: Sink>(required: &str, stream: &mut E) -> Result<(), Fault>
    ensures { WriteEnds (stream_of E.contents E.has_failed stream.old) (stream_of E.contents E.has_failed stream.new)
        (version_line required.now) result }
{
    write_texts(
        stream,
        &[
            "required_version: the settings require yamlfmt ",
            required,
            ", and this is ",
            VERSION,
            "\n",
        ],
    )
}
