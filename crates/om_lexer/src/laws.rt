//! Laws of sources and of their tokens, over the definitions alone.

ghost use Rattle.std.specs.Prelude.{◌≡◌, ◌≢◌, ◌++◌, ◌<◌, ◌≤◌, ℕ, List, [], ◌∷◌, false};
ghost use Rattle.om_lexer.specs.declared.fault.FaultCode.{FaultCode};
ghost use Rattle.om_lexer.specs.declared.token.Token.{Token};
ghost use Rattle.om_lexer.specs.declared.token.TokenKind.TheVariants.{DirectiveEnd, End};
ghost use Rattle.om_lexer.specs.Order.{AreInOrder, AreWhole, StandsBefore};
ghost use Rattle.om_lexer.specs.Sources.{IsTokens, IsFault};

/// A source has at most one list of tokens and at most one fault, and not both.
pub fn one_reading()
    ensures one_token_list { (source : List ℕ) (ts us : List Token) → IsTokens source ts →
        IsTokens source us → ts ≡ us }
    ensures tokens_no_fault { (source : List ℕ) (ts : List Token) (code : FaultCode) (at : ℕ) →
        IsTokens source ts → IsFault source code at → ⊥ }
    ensures one_fault { (source : List ℕ) (c d : FaultCode) (a b : ℕ) →
        IsFault source c a → IsFault source d b → (c ≡ d) × (a ≡ b) }
{}

/// The tokens of a source stand in its order, each where its text is. Directives are whole, and
/// the end of the source is the last token.
pub fn tokens_in_order()
    ensures in_order { (source : List ℕ) (ts : List Token) → IsTokens source ts →
        AreInOrder source 0 ts }
    ensures whole { (source : List ℕ) (ts : List Token) → IsTokens source ts → AreWhole false ts }
    ensures ends_last { (source : List ℕ) (front : List Token) (t : Token) (back : List Token) →
        IsTokens source (front ++ t ∷ back) → t.kind ≡ End → back ≡ [] }
{}

/// Two tokens of a source have no byte in common. Each starts before those behind it; only the end
/// of a directive, which has no width, may start where the next token does.
pub fn tokens_apart()
    ensures apart { (source : List ℕ) (ts : List Token) (t u : Token) →
        IsTokens source ts → StandsBefore ts t u → t.span.end ≤ u.span.start }
    ensures starts_rise { (source : List ℕ) (ts : List Token) (t u : Token) →
        IsTokens source ts → StandsBefore ts t u → t.kind ≢ DirectiveEnd →
        t.span.start < u.span.start }
{}
