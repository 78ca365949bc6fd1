//! The code of what no expression stands in.

ghost use Rattle.std.specs.Prelude.{◌≡◌, ◌<◌, OnOk, slice_get};
ghost use Rattle.om_lower_emit.specs.Rests as rows;
ghost use Rattle.om_lower_emit.specs.Words.{Adds, Appends, AppendsBy, AppendsElementStep, AppendsStep, AppendsTruth};
ghost use Rattle.om_lower_emit.specs.Words.{PutsAll, inverse_step_of, one_unless_zero, place_at, stepped_back, value};
ghost use Rattle.om_scope_tree.specs.ResolvedTree as trees;

use crate::draft::{Draft, Jump};
use crate::operator::{inverse_step_of, step_of};
use crate::spot::Here;
use om_code::{Instr, Serial, instruction};
use om_parser_tree::PostfixOperator;
use om_scope_tree::{UnaryOperator, Variable};
use om_seq::AllocResult;

/// Loads a variable.
pub(crate) fn load(draft: &mut Draft, here: &Here<'_>, variable: Variable) -> AllocResult<()>
    ensures { Adds result here.now (Instr.Serial (Serial.Load (place_at here.now variable))) draft.old draft.new }
{
    let place = here.tables.place(variable);
    draft.put(here.at.line, Instr::Serial(Serial::Load(place)))
}

/// Loads the element of an array whose index is on top.
pub(crate) fn load_element(draft: &mut Draft, here: &Here<'_>, array: Variable) -> AllocResult<()>
    ensures { Adds result here.now (Instr.Serial (Serial.LoadElement (place_at here.now array))) draft.old draft.new }
{
    let place = here.tables.place(array);
    draft.put(here.at.line, Instr::Serial(Serial::LoadElement(place)))
}

/// Stores the value on top in a variable; `keeps` says whether it is left.
pub(crate) fn store(
    draft: &mut Draft,
    here: &Here<'_>,
    variable: Variable,
    keeps: bool,
) -> AllocResult<()>
    ensures { Adds result here.now (Instr.Serial (Serial.Store (place_at here.now variable) keeps)) draft.old draft.new }
{
    let place = here.tables.place(variable);
    draft.put(here.at.line, Instr::Serial(Serial::Store { place, keeps }))
}

/// What stands behind the operand of a unary operator (C17 6.5.3.3).
pub(crate) fn unary_end(
    draft: &mut Draft,
    here: &Here<'_>,
    operator: UnaryOperator,
) -> AllocResult<()>
    ensures { Appends result here.now rows.unary_rest operator draft.old draft.new }
{
    let operator = match operator {
        UnaryOperator::Plus => return Ok(()),
        UnaryOperator::Negate => instruction::UnaryOperator::Negate,
        UnaryOperator::Not => instruction::UnaryOperator::Not,
    };
    draft.put(here.at.line, Instr::Serial(Serial::Unary(operator)))
}

/// Jumps to `otherwise` where the value on top is 0, and pushes 1 and jumps to `over` where it is not.
pub(crate) fn one_unless_zero(
    draft: &mut Draft,
    line: u32,
    otherwise: usize,
    over: usize,
) -> AllocResult<()>
    ensures { OnOk result (PutsAll line (one_unless_zero otherwise over) draft.old draft.new) }
{
    draft.put_jump(line, Jump::IfZero, otherwise)?;
    draft.put(line, Instr::Serial(Serial::Constant(1)))?;
    draft.put_jump(line, Jump::Always, over)
}

/// Writes 1 where the value on top is not 0, and 0 where it is. What jumped to `otherwise` gets the
/// 0, and what jumped to `over` goes on behind it. So `&&` and `||` end (C17 6.5.13p3, 6.5.14p3).
pub(crate) fn truth(draft: &mut Draft, line: u32, otherwise: usize, over: usize) -> AllocResult<()>
    requires otherwise { slice_get draft.old.places otherwise ≡ Some None }
    requires over { slice_get draft.old.places over ≡ Some None }
    requires apart { otherwise < over }
    ensures { AppendsTruth result line otherwise over draft.old draft.new }
{
    one_unless_zero(draft, line, otherwise, over)?;
    draft.define(otherwise);
    draft.put(line, Instr::Serial(Serial::Constant(0)))?;
    draft.define(over);
    Ok(())
}

/// `x++` or `x--`, as `x += 1` or `x -= 1` (C17 6.5.2.4); `keeps` says whether the new value is left.
pub(crate) fn step(
    draft: &mut Draft,
    here: &Here<'_>,
    variable: Variable,
    operator: PostfixOperator,
    keeps: bool,
) -> AllocResult<()>
    ensures { AppendsStep result here.now keeps variable operator draft.old draft.new }
{
    let place = here.tables.place(variable);
    let stepped = [
        Instr::Serial(Serial::Load(place)),
        Instr::Serial(Serial::Constant(1)),
        Instr::Serial(Serial::Binary(step_of(operator))),
        Instr::Serial(Serial::Store { place, keeps }),
    ];
    draft.put_all(here.at.line, &stepped)
}

/// `a[j]++` or `a[j]--`, as `a[j] += 1` or `a[j] -= 1`, behind the index; `keeps` says whether the new
/// value is left.
pub(crate) fn step_element(
    draft: &mut Draft,
    here: &Here<'_>,
    array: Variable,
    operator: PostfixOperator,
    keeps: bool,
) -> AllocResult<()>
    ensures { AppendsElementStep result here.now keeps array operator draft.old draft.new }
{
    let place = here.tables.place(array);
    let stepped = [
        Instr::Serial(Serial::Duplicate),
        Instr::Serial(Serial::LoadElement(place)),
        Instr::Serial(Serial::Constant(1)),
        Instr::Serial(Serial::Binary(step_of(operator))),
        Instr::Serial(Serial::StoreElement { place, keeps }),
    ];
    draft.put_all(here.at.line, &stepped)
}

// The old value of what was stepped, from the new one on top.
fn step_back(draft: &mut Draft, here: &Here<'_>, operator: PostfixOperator) -> AllocResult<()>
    ensures { Appends result here.now stepped_back (inverse_step_of operator) draft.old draft.new }
{
    let back = [
        Instr::Serial(Serial::Constant(1)),
        Instr::Serial(Serial::Binary(inverse_step_of(operator))),
    ];
    draft.put_all(here.at.line, &back)
}

/// `x++` or `x--`, whose value is the old one.
pub(crate) fn postfix(
    draft: &mut Draft,
    here: &Here<'_>,
    variable: Variable,
    operator: PostfixOperator,
) -> AllocResult<()>
    ensures { Appends result here.now value (trees.Postfix variable operator) draft.old draft.new }
{
    step(draft, here, variable, operator, true)?;
    step_back(draft, here, operator)
}

/// `a[j]++` or `a[j]--` behind the index; its value is the old one.
pub(crate) fn postfix_element(
    draft: &mut Draft,
    here: &Here<'_>,
    array: Variable,
    operator: PostfixOperator,
) -> AllocResult<()>
    ensures { AppendsBy result here.now rows.postfix_rest array operator draft.old draft.new }
{
    step_element(draft, here, array, operator, true)?;
    step_back(draft, here, operator)
}
