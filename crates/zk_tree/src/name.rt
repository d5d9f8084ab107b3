use zk_base::Bytes;

/// A name that a script gives or uses, with the place of its first byte.
#[derive(Debug, Drop)]
pub struct Name {
    pub place: u64,
    pub text: Bytes,
}
