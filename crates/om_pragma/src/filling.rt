//! The expression of a directive, put in place of its tokens.

ghost use Rattle.std.specs.Prelude.{map, IfOk};
ghost use Rattle.std.specs.List.{flat_map};
ghost use Rattle.om_pragma.specs.Expressions.{expressions, clause_expressions, map_item, map_directive, IsValue, CanFill, IsLeftBehind, IsFilled};

use crate::clause::{Clause, ClauseItem, Value};
use crate::tree::Directive;
use om_seq::{AllocResult, Seq};
use std::alloc::Global;

impl<E: Drop> Directive<E> {
    /// The directive with this expression in place of its own, which is at most one. The value
    /// is there exactly where the directive has an expression.
    pub fn with_expression<F: Drop>(
        self,
        alloc: Global,
        value: Option<F>,
    ) -> AllocResult<Directive<F>>
        requires { CanFill value (expressions self) }
        ensures { IfOk result (IsFilled map_directive value self) }
    {
        let Directive {
            hash,
            pragma,
            omp,
            name,
            clauses,
            end,
        } = self;
        let clauses = filled(alloc, clauses.into_vec(), value)?;
        Ok(Directive {
            hash,
            pragma,
            omp,
            name,
            clauses,
            end,
        })
    }
}

// These clauses with this expression in place of their own.
fn filled<E: Drop, F: Drop>(
    alloc: Global,
    items: Vec<ClauseItem<E>>,
    value: Option<F>,
) -> AllocResult<Seq<ClauseItem<F>>>
    requires { CanFill value (flat_map (λ i. clause_expressions i.clause) items.items) }
    ensures { IfOk result (IsFilled (λ f. map (map_item f)) value items.items) }
{
    let mut left = value;
    let mut made = Seq::new(alloc);
    let mut source = items.into_iter();
    'items: loop {
        let Some(item) = source.next() else {
            return Ok(made);
        };
        let (next, rest) = filled_item(item, left);
        made.push(next)?;
        left = rest;
    }
}

// A clause with this expression in place of its own, and what is left of the expression.
fn filled_item<E: Drop, F: Drop>(
    item: ClauseItem<E>,
    value: Option<F>,
) -> (ClauseItem<F>, Option<F>)
    requires { CanFill value (clause_expressions item.clause) }
    ensures made { IsFilled map_item value item result.0 }
    ensures still { (f : E → F) → IsValue f value → IsValue f result.1 }
    ensures left { IsLeftBehind value (clause_expressions item.clause) result.1 }
{
    let ClauseItem { comma, clause } = item;
    let (clause, left) = match clause {
        Clause::Value(kind, word, old) => match value {
            Some(expression) => {
                let new = Value {
                    open_paren: old.open_paren,
                    expression,
                    close_paren: old.close_paren,
                };
                (Clause::Value(kind, word, new), None)
            }
            None => unreachable!(),
        },
        Clause::Default(word, argument) => (Clause::Default(word, argument), value),
        Clause::Data(kind, word, list) => (Clause::Data(kind, word, list), value),
        Clause::Reduction(word, reduction) => (Clause::Reduction(word, reduction), value),
        Clause::Schedule(word, schedule) => (Clause::Schedule(word, schedule), value),
        Clause::Plain(kind, word) => (Clause::Plain(kind, word), value),
    };
    (ClauseItem { comma, clause }, left)
}
