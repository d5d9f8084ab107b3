/// A rule of names and types that a script can break. Of several that are broken at one place the one that
/// stands first here is told.
#[derive(Clone, Copy, Debug, PartialEq, Eq)]
pub enum Rule {
    /// A name means something that is visible at its place.
    Unknown,
    /// A name, a field, a local of one body, a function body or an enum word is declared once; two streams or
    /// filters share a path only where they have the same columns; no path is `reporter`.
    Twice,
    /// A value has the type that its place asks.
    WrongType,
    /// A record has the field, and a constructor gives each field that has to be given.
    Field,
    /// No record type reaches itself, and no type nests more than 200 deep.
    Recursive,
    /// The value of `&priority`, `&default` or an expiry is a literal or an empty container.
    NotConst,
    /// A constant isn't assigned, and only what is marked `&redef` is given a value anew.
    FixedGlobal,
    /// A call or a body has as many arguments or parameters as its declaration, of the same types.
    Arguments,
    /// `return` has a value exactly where a result is declared.
    Return,
    /// `break` stands in a loop or a hook, and `next` in a loop.
    Break,
    /// An attribute stands where it may, once.
    Attribute,
    /// A text of `fmt` fits its arguments, and paths and names of filters are literals that file names can hold.
    Format,
}
