//! Who is told of connections that broke.

/// Why a connection broke.
#[derive(Clone, Copy, Debug, PartialEq, Eq)]
pub enum Broke {
    /// A read failed, or its client was too long in sending.
    Read,
    /// A write failed, or its client was too long in taking a reply.
    Write,
    /// Memory was refused.
    Memory,
}

/// Who is told of connections that broke.
pub trait Told: Drop {
    /// Tells why a connection broke, right before it is ended.
    fn broke(&mut self, why: Broke);
}
