//! Laws of the rules and of resolution, for every tree and every source, whoever asks them and whoever
//! resolves.

ghost use Rattle.om_scope_rules.specs.PlaceLaws.{CopiesStandBehind, NamesStandBehind};
ghost use Rattle.om_scope_rules.specs.PlaceLaws.{PlacesHaveTokens, PlacesRise, PlacesStandThere, SourcesHaveCopiesBehind};
ghost use Rattle.om_scope_rules.specs.WeightLaws.{SourcesHaveSmallWeight};
ghost use Rattle.om_scope_rules.specs.WholeLaws.{AtomicsAssign, NumbersNameGlobals, UnbrokenExpressionsAreWhole};
ghost use Rattle.om_scope_rules.specs.WholeLaws.{UnbrokenStatementsAreWhole, UnbrokenTreesAreResolved};
ghost use Rattle.om_scope_rules.specs.WholeLaws.{UnbrokenTreesAreWhole, UnbrokenTreesResolve};

use om_lexer::tokens_in_order;

/// A name that means a variable is the name of that very global among those declared before.
pub fn numbers_name_globals()
    ensures { NumbersNameGlobals }
{}

/// A well-formed source that has the forms of `atomic` and breaks no rule has a resolution. It has only
/// one, which is a function of the tree.
pub fn unbroken_trees_resolve()
    ensures { UnbrokenTreesResolve }
{}

/// The resolution of a source that breaks no rule knows each global by the number of one, and has a
/// `main`.
pub fn unbroken_trees_are_resolved()
    ensures { UnbrokenTreesAreResolved }
{}

/// An expression that breaks no rule resolves to one that is whole, where the names in scope are what
/// stands round it.
pub fn unbroken_expressions_are_whole()
    ensures { UnbrokenExpressionsAreWhole }
{}

/// So do the well-formed statements of a block whose `atomic`s have their forms.
pub fn unbroken_statements_are_whole()
    ensures { UnbrokenStatementsAreWhole }
{}

/// A well-formed source that breaks no rule, and whose `atomic`s have their forms, resolves to a whole
/// tree.
pub fn unbroken_trees_are_whole()
    ensures { UnbrokenTreesAreWhole }
{}

/// An `atomic` that reads or writes is about an assignment, where the source has the forms of `atomic`.
pub fn atomics_assign()
    ensures { AtomicsAssign }
{}

/// Each name that a clause lists stands no earlier than its directive begins, as a source's tokens
/// stand in order.
pub fn names_stand_behind()
    ensures { NamesStandBehind }
{
    tokens_in_order();
}

/// Resolving keeps these places: a copy is known by the byte of the name that its clause lists.
pub fn copies_stand_behind()
    ensures { CopiesStandBehind }
{}

/// In the resolution of a source each copy stands behind where its region begins.
pub fn sources_have_copies_behind()
    ensures { SourcesHaveCopiesBehind }
{
    names_stand_behind();
    copies_stand_behind();
}

/// In the resolution of a source each byte is one variable of its functions at most, and bytes are
/// in the order of the text: those of parameters, of what blocks and `for` declare, and of the copies
/// that clauses and canonical loops ask for. So are those at which each `parallel` and `task` begins,
/// between them. So a variable is declared before one of these exactly where its byte stands before
/// that one's.
pub fn places_stand_in_order()
    ensures rise { PlacesRise }
    ensures stand { PlacesStandThere }
    ensures at_tokens { PlacesHaveTokens }
{
    tokens_in_order();
}

/// In the resolution of a source so few parts get a number when it is lowered that 32 bits are enough
/// for it: each of them has a token of its own.
pub fn sources_have_small_weight()
    ensures { SourcesHaveSmallWeight }
{
    tokens_in_order();
}
