//! The token at an intake: taken, held and passed on.

ghost use Rattle.std.specs.Prelude.{◌≡◌};
ghost use Rattle.rubis_model.specs.Site.{took, passed};
ghost use Rattle.rubis_release.specs.Release.{token_held};

use super::Intake;
use rubis_message::{Taken, Token};
use rubis_schema::Refusal;

/// The last turn of a token.
const TURN_MAX: u32 = 1_000_000_000;

/// The token, where the site holds it.
#[derive(Clone, Copy)]
pub struct Held {
    /// The turn that the site took it in, 0 where it held it from the start.
    pub turn: u32,
    /// How many red numbers were issued.
    pub issued: u32,
}

impl Intake {
    /// The token, if the site holds it.
    pub fn token(&self) -> Option<Held>
        ensures { result ≡ token_held self.now.state }
    {
        let turn = self.last;
        self.held.map(|issued| Held { turn, issued })
    }

    /// The greatest turn that the site took, 0 before it took any.
    pub fn last_turn(&self) -> u32
        ensures { result ≡ self.now.state.last }
    {
        self.last
    }

    /// Takes a token that arrived, where it is for this site and its turn is a later one than all that the site took.
    pub fn take_token(&mut self, token: Token) -> Result<Taken, Refusal>
        ensures place { self.new.place ≡ self.old.place }
        ensures step { (self.new.state, result) ≡ took self.old.place self.old.state token }
    {
        if token.to != self.site {
            return Err(Refusal::NotForMe);
        }
        if token.turn <= self.last {
            return Ok(Taken::Repeat);
        }
        self.held = Some(token.issued);
        self.last = token.turn;
        Ok(Taken::Holding)
    }

    /// Hands the token on to another site, for its next turn.
    pub fn pass_token(&mut self, to: u8) -> Result<Token, Refusal>
        ensures place { self.new.place ≡ self.old.place }
        ensures step { (self.new.state, result) ≡ passed self.old.place self.old.state to }
    {
        let Some(issued) = self.held else {
            return Err(Refusal::NoToken);
        };
        if to >= self.sites || to == self.site {
            return Err(Refusal::BadTarget);
        }
        if self.last >= TURN_MAX {
            return Err(Refusal::LastTurn);
        }
        self.held = None;
        Ok(Token {
            turn: self.last + 1,
            to,
            issued,
        })
    }
}
