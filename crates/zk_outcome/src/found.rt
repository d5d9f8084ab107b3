use zk_base::Ending;

/// What a run finds in an input that it asked for.
#[derive(Debug, Drop)]
pub enum Found<T> {
    /// What the input holds.
    Accepted(T),
    /// The input is absent or refused, and the run ends so.
    Refused(Ending),
}
