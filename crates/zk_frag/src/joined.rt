ghost use Rattle.std.specs.Prelude.{◌≡◌};
ghost use Rattle.zk_frag.specs.Histories.{without_tag};

/// What a fragment did.
#[derive(Clone, Copy, Debug, PartialEq, Eq)]
pub enum Joined {
    /// It is kept, and its datagram is not yet whole.
    Held,
    /// It is cut, or its place and its payload together pass 65,535 bytes, and does nothing.
    Ignored,
    /// Its datagram is whole.
    Whole,
}

/// What a fragment did, with the tag of the datagram that it made whole.
#[derive(Clone, Copy, Debug, PartialEq, Eq)]
pub enum Added<T> {
    /// It is kept, and its datagram is not yet whole.
    Held,
    /// It is cut, or its place and its payload together pass 65,535 bytes, and does nothing.
    Ignored,
    /// Its datagram is whole. The tag is that of the fragment whose byte 0 stands in it, and there is
    /// none where the datagram has no bytes.
    Whole(Option<T>),
}

impl<T> Added<T> {
    /// The same, whatever the tag.
    pub fn without_tag(&self) -> Joined
        ensures { result ≡ without_tag self.now }
    {
        match self {
            Added::Held => Joined::Held,
            Added::Ignored => Joined::Ignored,
            Added::Whole(_) => Joined::Whole,
        }
    }
}
