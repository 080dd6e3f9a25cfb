//! Members of JSON objects, a token at a time.
ghost use Rattle.std.specs.Prelude.{◌∷◌, [], decimal, OnOk};
ghost use Rattle.json.specs.Json.{boolean, null, string};
ghost use Rattle.json.specs.Token.{key, number};
ghost use Rattle.yf_report.specs.Members.{Adds, member_tokens};

use json::Writer;
use std::alloc::AllocError;

/// Adds a member that is a text.
pub fn write_text(out: &mut Writer, name: &str, text: &str) -> Result<(), AllocError>
    ensures { OnOk result (Adds out.old out.new (member_tokens name.now (string text.now))) }
{
    out.key(name)?;
    out.string(text)?;
    Ok(())
}

/// Adds a member that is `true` or `false`.
pub fn write_flag(out: &mut Writer, name: &str, flag: bool) -> Result<(), AllocError>
    ensures { OnOk result (Adds out.old out.new (member_tokens name.now (boolean flag))) }
{
    out.key(name)?;
    out.boolean(flag)?;
    Ok(())
}

/// Adds a member that is a number.
pub fn write_number(out: &mut Writer, name: &str, value: usize) -> Result<(), AllocError>
    ensures { OnOk result (Adds out.old out.new (key name.now ∷ number (decimal value) ∷ [])) }
{
    out.key(name)?;
    out.u64(value as u64)?;
    Ok(())
}

/// Adds a member that is `null`.
pub fn write_null(out: &mut Writer, name: &str) -> Result<(), AllocError>
    ensures { OnOk result (Adds out.old out.new (member_tokens name.now null)) }
{
    out.key(name)?;
    out.null()?;
    Ok(())
}
