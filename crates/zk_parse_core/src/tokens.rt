ghost use Rattle.std.specs.Prelude.{◌≡◌, ◌≤◌, length, IfOk, OnOk, MatchOption, Some, None};
ghost use Rattle.std.specs.Option.{is_some, option_map};
ghost use Rattle.zk_tree.specs.Rules.{place_of, Of, OneOf};
ghost use Rattle.zk_tree.specs.declared.keyword.Mark.TheVariants as mark;
ghost use Rattle.zk_tree.specs.Classes.{ANAME, ANUMBER, AUNIT, ALITERAL, ANATTRIBUTE, ALOAD};
ghost use Rattle.zk_tree.specs.declared.token.Sign.TheVariants as sign;
ghost use Rattle.zk_tree.specs.Classes.{name_in, literal_in, truth_in, container_in, prefix_in, comparing_in, assigning_in, operator_in, atomic_in, lasting_in, body_in, redefining_in, unit_of};
ghost use Rattle.zk_tree.specs.Grammar as grammar;
ghost use Rattle.zk_parse_core.specs.Reading.{Gives, read, unread, is_mark, IsValue, begins, behind, mark_at, mark_in, first_mark, meant_at, value_at, goes_past, ends_at};

use crate::fault::FormFault;
use std::alloc::Global;
use std::marker::Model;
use zk_base::Bytes;
use zk_tree::{
    Assigning, Atomic, BodyKind, Comparing, Container, Decl, Expr, Keyword, Lasting, Level,
    Literal, Mark, Name, Operator, Prefix, Redefining, Sign, TimeUnit, Token, TokenKind, Type,
};

/// The tokens that are not read yet.
#[derive(Drop)]
pub struct Tokens<'a> {
    rest: &'a [Token],
}

impl<'a> Model for Tokens<'a> {
    ghost use Rattle.std.specs.Prelude.{List};
    ghost use Rattle.zk_tree.specs.declared.token.Token.{Token as SyntaxToken};

    ghost Value = { List SyntaxToken };

    ghost view = { λ t. t.rest.now };
}

impl<'a> Tokens<'a> {
    /// All of them.
    pub fn new(tokens: &'a [Token]) -> Tokens<'a>
        ensures { result ≡ tokens.now }
    {
        Tokens { rest: tokens }
    }

    /// How many are left.
    pub fn left(&self) -> usize
        ensures { result ≡ length self.now }
    {
        self.rest.len()
    }

    /// The place of the first.
    pub fn place(&self) -> u64
        ensures { result ≡ place_of self.now }
    {
        match self.rest {
            [] => 0,
            [first, ..] => first.place,
        }
    }

    /// Whether a sign begins them.
    pub fn begins(&self, wanted: Sign) -> bool
        ensures { result ≡ begins (mark.Sign wanted) self.now }
    {
        match self.rest {
            [] => false,
            [first, ..] => is_sign(wanted, &first.kind),
        }
    }

    /// Whether a reserved word begins them.
    pub fn begins_word(&self, wanted: Keyword) -> bool
        ensures { result ≡ begins (mark.Word wanted) self.now }
    {
        match self.rest {
            [] => false,
            [first, ..] => is_word(wanted, &first.kind),
        }
    }

    /// Goes on behind the first.
    pub fn step(&mut self)
        ensures { self.new ≡ behind self.old }
    {
        if let [_, rest @ ..] = self.rest {
            self.rest = rest;
        }
    }

    /// A name that is no reserved word.
    pub fn name(&mut self, alloc: Global) -> Result<Name, FormFault>
        ensures { Gives (read unread grammar.name self.old) result self.new }
    {
        let [first, rest @ ..] = self.rest else {
            return Err(FormFault::NoForm);
        };
        let Some(text) = name_in(&first.kind) else {
            return Err(FormFault::NoForm);
        };
        let text = Bytes::copy_of(alloc, text)?;
        self.rest = rest;
        Ok(Name {
            place: first.place,
            text,
        })
    }

    /// Goes on behind a sign.
    #[tactic(auto, unfolding(crate::specs::Reading::mark_at))]
    pub fn sign(&mut self, wanted: Sign) -> Result<(), FormFault>
        ensures { Gives (mark_at (mark.Sign wanted) self.old) result self.new }
    {
        if !self.begins(wanted) {
            return Err(FormFault::NoForm);
        }
        self.step();
        Ok(())
    }

    /// Goes on behind a reserved word.
    #[tactic(auto, unfolding(crate::specs::Reading::mark_at))]
    pub fn word(&mut self, wanted: Keyword) -> Result<(), FormFault>
        ensures { Gives (mark_at (mark.Word wanted) self.old) result self.new }
    {
        if !self.begins_word(wanted) {
            return Err(FormFault::NoForm);
        }
        self.step();
        Ok(())
    }
}

/// The name that is no reserved word.
fn name_in(kind: &TokenKind) -> Option<&[u8]>
    ensures { option_map (λ name. name.now) result ≡ name_in kind.now }
{
    match kind {
        TokenKind::Name(name) if Keyword::of(name.as_slice()).is_none() => Some(name.as_slice()),
        _ => None,
    }
}

fn is_sign(wanted: Sign, kind: &TokenKind) -> bool
    ensures { result ≡ is_mark (mark.Sign wanted) kind.now }
{
    match kind {
        TokenKind::Sign(found) => *found == wanted,
        _ => false,
    }
}

fn is_word(wanted: Keyword, kind: &TokenKind) -> bool
    ensures { result ≡ is_mark (mark.Word wanted) kind.now }
{
    match kind {
        TokenKind::Name(name) => name.as_slice() == wanted.text(),
        _ => false,
    }
}

impl<'a> Tokens<'a> {
    /// Whether a comma begins them that no closing brace follows.
    pub fn goes_past_comma(&self) -> bool
        ensures { result ≡ goes_past (mark.Sign sign.Comma) (mark.Sign sign.CloseBrace) self.now }
    {
        match self.rest {
            [first, second, ..] => {
                is_sign(Sign::Comma, &first.kind) && !is_sign(Sign::CloseBrace, &second.kind)
            }
            [first] => is_sign(Sign::Comma, &first.kind),
            [] => false,
        }
    }

    /// Goes on behind a closing brace, and says whether a comma stands before it.
    pub fn ending(&mut self) -> Result<bool, FormFault>
        ensures { Gives (ends_at (mark.Sign sign.Comma) (mark.Sign sign.CloseBrace) self.old) result self.new }
    {
        if self.begins(Sign::Comma) {
            self.sign(Sign::Comma)?;
            self.sign(Sign::CloseBrace)?;
            Ok(true)
        } else {
            self.sign(Sign::CloseBrace)?;
            Ok(false)
        }
    }

    /// The sign or the reserved word that begins them.
    pub fn mark(&self) -> Option<Mark>
        ensures { result ≡ first_mark self.now }
    {
        match self.rest {
            [] => None,
            [first, ..] => mark_in(&first.kind),
        }
    }

    /// `T` or `F`.
    pub fn truth(&self) -> Option<bool>
        ensures { result ≡ meant_at truth_in self.now }
    {
        match self.mark()? {
            Mark::Word(Keyword::True) => Some(true),
            Mark::Word(Keyword::False) => Some(false),
            _ => None,
        }
    }

    /// `table`, `set` or `vector`.
    pub fn container(&self) -> Option<Container>
        ensures { result ≡ meant_at container_in self.now }
    {
        match self.mark()? {
            Mark::Word(Keyword::Table) => Some(Container::Table),
            Mark::Word(Keyword::Set) => Some(Container::Set),
            Mark::Word(Keyword::Vector) => Some(Container::Vector),
            _ => None,
        }
    }

    /// Whether a number begins them.
    pub fn begins_number(&self) -> bool
        ensures { result ≡ is_some (value_at ANUMBER self.now) }
    {
        matches!(
            self.rest,
            [
                Token {
                    kind: TokenKind::Number(_),
                    ..
                },
                ..
            ]
        )
    }

    /// Whether a string, a port, an address or a subnet begins them.
    pub fn begins_literal(&self) -> bool
        ensures { result ≡ is_some (value_at ALITERAL self.now) }
    {
        match self.rest {
            [] => false,
            [first, ..] => matches!(
                first.kind,
                TokenKind::String(_)
                    | TokenKind::Port { .. }
                    | TokenKind::Address(_)
                    | TokenKind::Subnet { .. }
            ),
        }
    }

    /// Whether a name begins them that is no reserved word.
    pub fn begins_name(&self) -> bool
        ensures { result ≡ is_some (value_at ANAME self.now) }
    {
        match self.rest {
            [] => false,
            [first, ..] => name_in(&first.kind).is_some(),
        }
    }

    /// The value of a number.
    fn number_here(&self) -> Option<u64>
        ensures { result ≡ value_at ANUMBER self.now }
    {
        match self.rest {
            [first, ..] => match &first.kind {
                TokenKind::Number(number) => Some(*number),
                _ => None,
            },
            [] => None,
        }
    }

    /// A unit of time, and whether it is written in the plural.
    fn unit_here(&self) -> Option<(TimeUnit, bool)>
        ensures { result ≡ value_at AUNIT self.now }
    {
        match self.rest {
            [first, ..] => match &first.kind {
                TokenKind::Name(name) => unit_of(name.as_slice()),
                _ => None,
            },
            [] => None,
        }
    }

    /// `5`, `5 min`
    pub fn number(&mut self) -> Result<Expr, FormFault>
        ensures { Gives (read unread grammar.number self.old) result self.new }
    {
        let place = self.place();
        let Some(number) = self.number_here() else {
            return Err(FormFault::NoForm);
        };
        self.step();
        let Some((unit, plural)) = self.unit_here() else {
            return Ok(Expr::Number { place, number });
        };
        self.step();
        Ok(Expr::Interval {
            place,
            number,
            unit,
            plural,
        })
    }

    /// A string, a port, an address or a subnet.
    pub fn literal(&mut self, alloc: Global) -> Result<Expr, FormFault>
        ensures { Gives (read unread grammar.literal self.old) result self.new }
    {
        let [first, rest @ ..] = self.rest else {
            return Err(FormFault::NoForm);
        };
        let literal = literal_in(alloc, &first.kind)?;
        self.rest = rest;
        Ok(Expr::Literal {
            place: first.place,
            literal,
        })
    }

    /// `T` or `F`.
    pub fn truth_value(&mut self) -> Result<Expr, FormFault>
        ensures { Gives (read unread grammar.truth self.old) result self.new }
    {
        let place = self.place();
        let Some(truth) = self.truth() else {
            return Err(FormFault::NoForm);
        };
        self.step();
        Ok(Expr::Truth { place, truth })
    }

    /// A name as an expression.
    pub fn name_value(&mut self, alloc: Global) -> Result<Expr, FormFault>
        ensures { Gives (read unread grammar.name_expr self.old) result self.new }
    {
        let name = self.name(alloc)?;
        Ok(Expr::Name { name })
    }
}

impl Tokens<'_> {
    /// An operator before its operand.
    pub fn prefix(&self) -> Option<Prefix>
        ensures { result ≡ meant_at prefix_in self.now }
    {
        match self.mark()? {
            Mark::Sign(Sign::Not) => Some(Prefix::Not),
            Mark::Sign(Sign::Minus) => Some(Prefix::Negate),
            Mark::Sign(Sign::PlusPlus) => Some(Prefix::Increment),
            Mark::Sign(Sign::MinusMinus) => Some(Prefix::Decrement),
            _ => None,
        }
    }

    /// An operator that compares.
    pub fn comparing(&self) -> Option<Comparing>
        ensures { result ≡ meant_at comparing_in self.now }
    {
        match self.mark()? {
            Mark::Sign(Sign::EqualEqual) => Some(Comparing::Equal),
            Mark::Sign(Sign::NotEqual) => Some(Comparing::NotEqual),
            Mark::Sign(Sign::Less) => Some(Comparing::Less),
            Mark::Sign(Sign::LessEqual) => Some(Comparing::LessEqual),
            Mark::Sign(Sign::Greater) => Some(Comparing::Greater),
            Mark::Sign(Sign::GreaterEqual) => Some(Comparing::GreaterEqual),
            Mark::Word(Keyword::In) => Some(Comparing::In),
            Mark::Sign(Sign::NotIn) => Some(Comparing::NotIn),
            _ => None,
        }
    }

    /// An operator that assigns.
    pub fn assigning(&self) -> Option<Assigning>
        ensures { result ≡ meant_at assigning_in self.now }
    {
        match self.mark()? {
            Mark::Sign(Sign::Equal) => Some(Assigning::Set),
            Mark::Sign(Sign::PlusEqual) => Some(Assigning::Add),
            Mark::Sign(Sign::MinusEqual) => Some(Assigning::Subtract),
            _ => None,
        }
    }

    /// An operator of a level.
    pub fn operator(&self, level: Level) -> Option<Operator>
        ensures { result ≡ meant_at (operator_in level) self.now }
    {
        match (level, self.mark()?) {
            (Level::Or, Mark::Sign(Sign::Or)) => Some(Operator::Or),
            (Level::And, Mark::Sign(Sign::And)) => Some(Operator::And),
            (Level::Sum, Mark::Sign(Sign::Plus)) => Some(Operator::Plus),
            (Level::Sum, Mark::Sign(Sign::Minus)) => Some(Operator::Minus),
            (Level::Term, Mark::Sign(Sign::Star)) => Some(Operator::Times),
            (Level::Term, Mark::Sign(Sign::Slash)) => Some(Operator::Over),
            (Level::Term, Mark::Sign(Sign::Percent)) => Some(Operator::Modulo),
            _ => None,
        }
    }
}

impl Tokens<'_> {
    /// Whether an attribute begins them.
    pub fn begins_attribute(&self) -> bool
        ensures { result ≡ is_some (value_at ANATTRIBUTE self.now) }
    {
        match self.rest {
            [] => false,
            [first, ..] => matches!(first.kind, TokenKind::Attribute(_)),
        }
    }

    /// Whether the name of a file to load begins them.
    pub fn begins_load(&self) -> bool
        ensures { result ≡ is_some (value_at ALOAD self.now) }
    {
        match self.rest {
            [] => false,
            [first, ..] => matches!(first.kind, TokenKind::Load(_)),
        }
    }

    /// The name of an attribute.
    pub fn attribute(&mut self, alloc: Global) -> Result<Bytes, FormFault>
        ensures { Gives (read unread (Of ANATTRIBUTE) self.old) result self.new }
    {
        let [first, rest @ ..] = self.rest else {
            return Err(FormFault::NoForm);
        };
        let TokenKind::Attribute(name) = &first.kind else {
            return Err(FormFault::NoForm);
        };
        let name = Bytes::copy_of(alloc, name.as_slice())?;
        self.rest = rest;
        Ok(name)
    }

    /// The name of a file to load.
    pub fn load(&mut self, alloc: Global) -> Result<Decl, FormFault>
        ensures { Gives (read unread grammar.load_decl self.old) result self.new }
    {
        let [first, rest @ ..] = self.rest else {
            return Err(FormFault::NoForm);
        };
        let TokenKind::Load(file) = &first.kind else {
            return Err(FormFault::NoForm);
        };
        let file = Bytes::copy_of(alloc, file.as_slice())?;
        self.rest = rest;
        Ok(Decl::Load {
            place: first.place,
            file,
        })
    }

    /// `bool`, `count` and the like.
    pub fn atomic_type(&mut self) -> Result<Type, FormFault>
        ensures { Gives (read unread grammar.atomic_type self.old) result self.new }
    {
        let place = self.place();
        let Some(atomic) = self.atomic() else {
            return Err(FormFault::NoForm);
        };
        self.step();
        Ok(Type::Atomic { place, atomic })
    }

    /// A name as a type.
    pub fn named_type(&mut self, alloc: Global) -> Result<Type, FormFault>
        ensures { Gives (read unread grammar.named_type self.old) result self.new }
    {
        let name = self.name(alloc)?;
        Ok(Type::Named { name })
    }

    /// A type whose values have no parts.
    pub fn atomic(&self) -> Option<Atomic>
        ensures { result ≡ meant_at atomic_in self.now }
    {
        match self.mark()? {
            Mark::Word(Keyword::Bool) => Some(Atomic::Bool),
            Mark::Word(Keyword::Count) => Some(Atomic::Count),
            Mark::Word(Keyword::Int) => Some(Atomic::Int),
            Mark::Word(Keyword::String) => Some(Atomic::String),
            Mark::Word(Keyword::Time) => Some(Atomic::Time),
            Mark::Word(Keyword::Interval) => Some(Atomic::Interval),
            Mark::Word(Keyword::Addr) => Some(Atomic::Addr),
            Mark::Word(Keyword::Port) => Some(Atomic::Port),
            Mark::Word(Keyword::Subnet) => Some(Atomic::Subnet),
            _ => None,
        }
    }

    /// `global` or `const`.
    pub fn lasting(&self) -> Option<Lasting>
        ensures { result ≡ meant_at lasting_in self.now }
    {
        match self.mark()? {
            Mark::Word(Keyword::Global) => Some(Lasting::Global),
            Mark::Word(Keyword::Const) => Some(Lasting::Const),
            _ => None,
        }
    }

    /// `event` or `hook`.
    pub fn body_kind(&self) -> Option<BodyKind>
        ensures { result ≡ meant_at body_in self.now }
    {
        match self.mark()? {
            Mark::Word(Keyword::Event) => Some(BodyKind::Event),
            Mark::Word(Keyword::Hook) => Some(BodyKind::Hook),
            _ => None,
        }
    }

    /// `=` or `+=`.
    pub fn redefining(&self) -> Option<Redefining>
        ensures { result ≡ meant_at redefining_in self.now }
    {
        match self.mark()? {
            Mark::Sign(Sign::Equal) => Some(Redefining::Set),
            Mark::Sign(Sign::PlusEqual) => Some(Redefining::Add),
            _ => None,
        }
    }
}

impl Tokens<'_> {
    /// Goes on behind `global` or `const`.
    pub fn take_lasting(&mut self) -> Result<Lasting, FormFault>
        ensures { Gives (read unread (OneOf lasting_in) self.old) result self.new }
    {
        let Some(lasting) = self.lasting() else {
            return Err(FormFault::NoForm);
        };
        self.step();
        Ok(lasting)
    }

    /// Goes on behind `event` or `hook`.
    pub fn take_body_kind(&mut self) -> Result<BodyKind, FormFault>
        ensures { Gives (read unread (OneOf body_in) self.old) result self.new }
    {
        let Some(kind) = self.body_kind() else {
            return Err(FormFault::NoForm);
        };
        self.step();
        Ok(kind)
    }

    /// Goes on behind `=` or `+=`.
    pub fn take_redefining(&mut self) -> Result<Redefining, FormFault>
        ensures { Gives (read unread (OneOf redefining_in) self.old) result self.new }
    {
        let Some(operator) = self.redefining() else {
            return Err(FormFault::NoForm);
        };
        self.step();
        Ok(operator)
    }
}

/// What a token is worth that writes a value.
fn literal_in(alloc: Global, kind: &TokenKind) -> Result<Literal, FormFault>
    ensures { IsValue (literal_in kind.now) result }
{
    Ok(match kind {
        TokenKind::String(bytes) => Literal::String(Bytes::copy_of(alloc, bytes.as_slice())?),
        TokenKind::Port { port, proto } => Literal::Port {
            port: *port,
            proto: *proto,
        },
        TokenKind::Address(address) => Literal::Address(*address),
        TokenKind::Subnet { prefix, width } => Literal::Subnet {
            prefix: *prefix,
            width: *width,
        },
        _ => return Err(FormFault::NoForm),
    })
}

/// The sign or the reserved word that a token is.
fn mark_in(kind: &TokenKind) -> Option<Mark>
    ensures { result ≡ mark_in kind.now }
{
    match kind {
        TokenKind::Sign(sign) => Some(Mark::Sign(*sign)),
        TokenKind::Name(name) => match Keyword::of(name.as_slice()) {
            Some(word) => Some(Mark::Word(word)),
            None => None,
        },
        _ => None,
    }
}

/// The unit of time of this name, and whether it is written in the plural.
#[tactic(auto, unfolding(zk_tree::specs::Classes::unit_of))]
fn unit_of(name: &[u8]) -> Option<(TimeUnit, bool)>
    ensures { result ≡ unit_of name.now }
{
    if name == b"usec".as_slice() {
        Some((TimeUnit::Microsecond, false))
    } else if name == b"usecs".as_slice() {
        Some((TimeUnit::Microsecond, true))
    } else if name == b"msec".as_slice() {
        Some((TimeUnit::Millisecond, false))
    } else if name == b"msecs".as_slice() {
        Some((TimeUnit::Millisecond, true))
    } else if name == b"sec".as_slice() {
        Some((TimeUnit::Second, false))
    } else if name == b"secs".as_slice() {
        Some((TimeUnit::Second, true))
    } else if name == b"min".as_slice() {
        Some((TimeUnit::Minute, false))
    } else if name == b"mins".as_slice() {
        Some((TimeUnit::Minute, true))
    } else if name == b"hr".as_slice() {
        Some((TimeUnit::Hour, false))
    } else if name == b"hrs".as_slice() {
        Some((TimeUnit::Hour, true))
    } else if name == b"day".as_slice() {
        Some((TimeUnit::Day, false))
    } else if name == b"days".as_slice() {
        Some((TimeUnit::Day, true))
    } else {
        None
    }
}
