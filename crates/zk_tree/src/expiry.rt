use zk_base::Span;

/// When the entries of a table expire (Zeek manual, Attributes, `&create_expire`, `&read_expire` and
/// `&write_expire`).
#[derive(Clone, Copy, Debug, PartialEq, Eq)]
pub enum Expiry {
    /// So long after they were inserted.
    Create(Span),
    /// So long after they were inserted, assigned or found last.
    Read(Span),
    /// So long after they were inserted or assigned last.
    Write(Span),
}
