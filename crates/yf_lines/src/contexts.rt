//! The contexts of the productions, for scalars (YAML 1.2.2, section 7.3).
ghost use Rattle.std.specs.Prelude.{◌≡◌};
ghost use Rattle.yf_lines.specs.Basic.{is_block, is_key};

use yf_chars::context::Ctx;

/// Returns whether the context holds no scalar in flow style.
pub fn is_block(ctx: Ctx) -> bool
    ensures { result ≡ is_block ctx }
{
    matches!(ctx, Ctx::BlockOut | Ctx::BlockIn)
}

/// Returns whether a scalar in that context is on one line.
pub fn is_key(ctx: Ctx) -> bool
    ensures { result ≡ is_key ctx }
{
    matches!(ctx, Ctx::BlockKey | Ctx::FlowKey)
}
