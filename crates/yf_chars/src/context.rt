//! The contexts of the productions (YAML 1.2.2, section 4.1 "Production Syntax", parameter c).

/// The context of a production: outside or inside a block sequence, outside or inside a flow collection, or an implicit
/// key of a block or of a flow mapping.
#[derive(Clone, Copy)]
pub enum Ctx {
    BlockOut,
    BlockIn,
    FlowOut,
    FlowIn,
    BlockKey,
    FlowKey,
}
