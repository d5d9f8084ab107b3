ghost use Rattle.std.specs.Prelude.{◌≡◌, not, List, Bool, Option};
ghost use Rattle.zk_tree.specs.declared.token.Token.{Token as SyntaxToken};
ghost use Rattle.zk_tree.specs.declared.keyword.Mark.TheVariants as mark;
ghost use Rattle.zk_tree.specs.declared.token.Sign.TheVariants as sign;
ghost use Rattle.zk_parse_core.specs.Reading.{Gives, begins, goes_past, separated};

use crate::fault::FormFault;
use crate::lists::Element;
use crate::tokens::Tokens;
use zk_tree::Sign;

/// How one is read after another.
pub trait Turns<T> {
    ghost ready: { Self → Type 0 };

    ghost goes: { Self → List SyntaxToken → Bool };

    ghost at: { Self → List SyntaxToken → Option (T × List SyntaxToken) };

    /// Whether another follows.
    fn goes_on(&self, tokens: &Tokens<'_>) -> bool
        ensures { result ≡ goes self.now tokens.now };

    /// Reads another.
    fn turn(&self, tokens: &mut Tokens<'_>) -> Result<T, FormFault>
        requires { ready self.now }
        ensures { Gives (at self.now tokens.old) result tokens.new };
}

/// Each behind a comma.
#[derive(Drop)]
pub struct BehindCommas<'c, C> {
    pub context: &'c C,
}

impl<C, T: Element<C>> Turns<T> for BehindCommas<'_, C> {
    ghost ready = { λ t. T.ready t.context.now };

    ghost goes = { λ t tokens. begins (mark.Sign sign.Comma) tokens };

    ghost at = { λ t tokens. separated (mark.Sign sign.Comma) (T.at t.context.now) tokens };

    fn goes_on(&self, tokens: &Tokens<'_>) -> bool {
        tokens.begins(Sign::Comma)
    }

    fn turn(&self, tokens: &mut Tokens<'_>) -> Result<T, FormFault> {
        tokens.sign(Sign::Comma)?;
        T::read(self.context, tokens)
    }
}

/// Each behind a comma that no closing brace follows.
#[derive(Drop)]
pub struct PastCommas<'c, C> {
    pub context: &'c C,
}

impl<C, T: Element<C>> Turns<T> for PastCommas<'_, C> {
    ghost ready = { λ t. T.ready t.context.now };

    ghost goes = { λ t tokens. goes_past (mark.Sign sign.Comma) (mark.Sign sign.CloseBrace) tokens };

    ghost at = { λ t tokens. separated (mark.Sign sign.Comma) (T.at t.context.now) tokens };

    fn goes_on(&self, tokens: &Tokens<'_>) -> bool {
        tokens.goes_past_comma()
    }

    fn turn(&self, tokens: &mut Tokens<'_>) -> Result<T, FormFault> {
        tokens.sign(Sign::Comma)?;
        T::read(self.context, tokens)
    }
}

/// Each where no closing brace stands.
#[derive(Drop)]
pub struct BeforeBrace<'c, C> {
    pub context: &'c C,
}

impl<C, T: Element<C>> Turns<T> for BeforeBrace<'_, C> {
    ghost ready = { λ t. T.ready t.context.now };

    ghost goes = { λ t tokens. not (begins (mark.Sign sign.CloseBrace) tokens) };

    ghost at = { λ t tokens. T.at t.context.now tokens };

    fn goes_on(&self, tokens: &Tokens<'_>) -> bool {
        !tokens.begins(Sign::CloseBrace)
    }

    fn turn(&self, tokens: &mut Tokens<'_>) -> Result<T, FormFault> {
        T::read(self.context, tokens)
    }
}
