//! The heads and the ends of `if`, `while`, `do` and `for`.

ghost use Rattle.std.specs.Prelude.{◌≡◌, ◌<◌, IfOk, IfSome, None, OnOk, Some, option_map, slice_get};
ghost use Rattle.om_lower_emit.specs.Words.{BeginsElse, BeginsFor, BeginsIf, BeginsTurn, BeginsWhile, EffectHasCode};
ghost use Rattle.om_lower_emit.specs.Words.{EndsDo, EndsFor, EndsLoop, FreshTurn, ScopesFor, StartHasCode};
ghost use Rattle.om_lower_emit.specs.Words.{ValueHasCode, do_begin};
ghost use Rattle.om_scope_tree.specs.ResolvedView as view;

use crate::declaration::{perhaps_effect, perhaps_test, start, test};
use crate::draft::{Draft, Jump};
use crate::spot::{Here, LoopLabels, TurnLabels};
use crate::writing::Writing;
use om_scope_tree::{ResolvedExpression, ResolvedStart};
use om_seq::AllocResult;

/// Writes the head of a `while` (C17 6.8.5.1).
pub fn begin_while(
    draft: &mut Draft,
    here: &Here<'_>,
    condition: &ResolvedExpression,
) -> AllocResult<LoopLabels>
    requires { ValueHasCode (view.expression condition.now) }
    ensures { BeginsWhile result here.now condition.now draft.old draft.new }
{
    let again = draft.fresh()?;
    let over = draft.fresh()?;
    draft.define(again);
    test(draft, here, condition, over)?;
    Ok(LoopLabels { again, over })
}

/// Writes the end of a loop: it begins again.
pub fn end_loop(draft: &mut Draft, line: u32, labels: LoopLabels) -> AllocResult<()>
    requires { slice_get draft.old.places labels.over ≡ Some None }
    ensures { OnOk result (EndsLoop line labels draft.old draft.new) }
{
    draft.put_jump(line, Jump::Always, labels.again)?;
    draft.define(labels.over);
    Ok(())
}

// Makes the labels of a loop in which `continue` does not go to its begin.
fn turn_labels(draft: &mut Draft) -> AllocResult<TurnLabels>
    ensures { IfOk result (λ labels. FreshTurn labels draft.old draft.new) }
{
    let again = draft.fresh()?;
    let next = draft.fresh()?;
    let over = draft.fresh()?;
    Ok(TurnLabels { again, next, over })
}

/// Writes the head of a `do` (C17 6.8.5.2).
pub fn begin_do(draft: &mut Draft) -> AllocResult<TurnLabels>
    ensures { IfOk result (λ labels. BeginsTurn labels (do_begin labels) draft.old draft.new) }
{
    let labels = turn_labels(draft)?;
    draft.define(labels.again);
    Ok(labels)
}

/// Writes the end of a `do`: its condition is tested, and it begins again.
pub fn end_do(
    draft: &mut Draft,
    here: &Here<'_>,
    labels: TurnLabels,
    condition: &ResolvedExpression,
) -> AllocResult<()>
    requires condition { ValueHasCode (view.expression condition.now) }
    requires next { slice_get draft.old.places labels.next ≡ Some None }
    requires over { slice_get draft.old.places labels.over ≡ Some None }
    requires apart { labels.next < labels.over }
    ensures { EndsDo result here.now labels condition.now draft.old draft.new }
{
    let TurnLabels { again, next, over } = labels;
    draft.define(next);
    test(draft, here, condition, over)?;
    end_loop(draft, here.at.line, LoopLabels { again, over })?;
    Ok(())
}

/// Writes the head of a `for` (C17 6.8.5.3): without a condition nothing is tested.
pub fn begin_for(
    writing: &mut Writing,
    here: &Here<'_>,
    begin: &ResolvedStart,
    condition: &Option<ResolvedExpression>,
) -> AllocResult<TurnLabels>
    requires start { StartHasCode (view.start begin.now) }
    requires condition { IfSome (option_map view.expression condition.now) ValueHasCode }
    ensures code { BeginsFor result here.now begin.now condition.now writing.old writing.new }
    ensures scopes { ScopesFor result here.now begin.now condition.now writing.old writing.new }
{
    let labels = turn_labels(&mut writing.draft)?;
    start(writing, here, begin)?;
    writing.draft.define(labels.again);
    perhaps_test(&mut writing.draft, here, condition, labels.over)?;
    Ok(labels)
}

/// Writes the end of a `for`: its step is taken, and it begins again.
pub fn end_for(
    draft: &mut Draft,
    here: &Here<'_>,
    labels: TurnLabels,
    step: &Option<ResolvedExpression>,
) -> AllocResult<()>
    requires step { IfSome (option_map view.expression step.now) EffectHasCode }
    requires next { slice_get draft.old.places labels.next ≡ Some None }
    requires over { slice_get draft.old.places labels.over ≡ Some None }
    requires apart { labels.next < labels.over }
    ensures { EndsFor result here.now labels step.now draft.old draft.new }
{
    let TurnLabels { again, next, over } = labels;
    draft.define(next);
    perhaps_effect(draft, here, step)?;
    end_loop(draft, here.at.line, LoopLabels { again, over })?;
    Ok(())
}

/// Writes the head of an `if` (C17 6.8.4.1). The label is to be placed behind what it guards.
pub fn begin_if(
    draft: &mut Draft,
    here: &Here<'_>,
    condition: &ResolvedExpression,
) -> AllocResult<usize>
    requires { ValueHasCode (view.expression condition.now) }
    ensures { BeginsIf result here.now condition.now draft.old draft.new }
{
    let label = draft.fresh()?;
    test(draft, here, condition, label)?;
    Ok(label)
}

/// Writes what stands between the two statements of an `if` with `else`: the first goes on behind the
/// second, which begins at the head's label. The new label is to be placed behind the second.
pub fn begin_else(draft: &mut Draft, line: u32, head: usize) -> AllocResult<usize>
    requires { slice_get draft.old.places head ≡ Some None }
    ensures { BeginsElse result line head draft.old draft.new }
{
    let label = draft.fresh()?;
    draft.put_jump(line, Jump::Always, label)?;
    draft.define(head);
    Ok(label)
}
