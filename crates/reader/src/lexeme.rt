ghost use Rattle.std.specs.Prelude.{◌≡◌, MatchOption};
ghost use Rattle.reader.specs.Symbols.{number, register};
ghost use Rattle.reader.specs.Lexing.{meant};
ghost use Rattle.reader.specs.Expecting.{IsRegister, IsNumber, Sign, IsSign};

use crate::types::{Kind, Lexeme};

impl Lexeme {
    // The register, if it is one.
    pub(crate) fn register(self) -> Option<usize>
        ensures { MatchOption result (IsRegister (meant self) → ⊥) (λ i. meant self ≡ register i) }
    {
        match self {
            Lexeme::Register(i) => Some(i),
            _ => None,
        }
    }

    // The number, if it is one.
    pub(crate) fn number(self) -> Option<u32>
        ensures { MatchOption result (IsNumber (meant self) → ⊥) (λ n. meant self ≡ number n) }
    {
        match self {
            Lexeme::Number(n) => Some(n),
            _ => None,
        }
    }

    // The kind of the assignments that have this sign, if it is one.
    pub(crate) fn sign(self) -> Option<Kind>
        ensures { MatchOption result (IsSign (meant self) → ⊥) (λ k. Sign k (meant self)) }
    {
        match self {
            Lexeme::Plus => Some(Kind::Plus),
            Lexeme::Minus => Some(Kind::Minus),
            _ => None,
        }
    }
}
