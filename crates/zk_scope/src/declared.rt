use crate::home::Home;
use zk_tree::{Attr, Init, Lasting, Param, Type};
use zk_typed::script::{BuiltIn, ValueType};

/// The parameters and the result of an event, a hook or a function.
#[derive(Drop)]
pub enum Signature<'a> {
    /// Those of a predefined event.
    Known {
        params: Vec<ValueType>,
    },
    /// As a declaration or a body writes them.
    Written {
        home: Home<'a>,
        params: &'a [Param],
        result: Option<&'a Type>,
    },
}

/// A function of the log framework.
#[derive(Clone, Copy, PartialEq, Eq)]
pub enum LogFunction {
    CreateStream,
    AddFilter,
    RemoveFilter,
    RemoveDefaultFilter,
    Write,
}

/// What a name means.
#[derive(Drop)]
pub enum Meant<'a> {
    /// A predefined type.
    KnownType {
        known: ValueType,
    },
    /// The type of a declaration.
    WrittenType {
        home: Home<'a>,
        tree: &'a Type,
    },
    /// A word of the enum of this number.
    Word {
        number: u32,
    },
    /// A global or a constant.
    Variable {
        home: Home<'a>,
        lasting: Lasting,
        tree: &'a Option<Type>,
        init: &'a Option<Init>,
        attrs: &'a [Attr],
    },
    Event {
        signature: Signature<'a>,
    },
    Hook {
        signature: Signature<'a>,
    },
    Function {
        signature: Signature<'a>,
    },
    BuiltInFunction {
        function: BuiltIn,
    },
    Log {
        function: LogFunction,
    },
}

/// A name that is declared: the whole name, whether it is seen outside its module, and what it means.
#[derive(Drop)]
pub struct Declared<'a> {
    pub name: Vec<u8>,
    pub exported: bool,
    pub meant: Meant<'a>,
}
