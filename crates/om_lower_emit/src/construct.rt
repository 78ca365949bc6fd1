//! The begins and the ends of constructs round a statement.

ghost use Rattle.std.specs.Prelude.{◌≡◌, IfSome, None, Some, map, slice_get};
ghost use Rattle.om_lower_emit.specs.Words.{Appends, BeginHasCode, BeginsConstruct, EndsConstruct, IsNoAtomic};
ghost use Rattle.om_lower_emit.specs.Words.{ScopesConstruct, ValueHasCode, value_in};
ghost use Rattle.om_scope_tree.specs.ResolvedView as view;
ghost use Rattle.om_lower_rules.specs.Statements as rows;

use crate::alone::worksharing_end;
use crate::clause::{clause_value, starts};
use crate::draft::{Draft, Jump};
use crate::expression::value;
use crate::spot::Here;
use crate::writing::Writing;
use om_code::{Instr, Region, Serial, Task};
use om_scope_tree::{ConstructKind, ResolvedClause};
use om_seq::AllocResult;

// Writes the thread number that a `masked` asks for: 0 where no clause says another (OpenMP API 5.2,
// section 10.5.1).
fn filter(draft: &mut Draft, here: &Here<'_>, clauses: &[ResolvedClause]) -> AllocResult<()>
    requires { IfSome (value_in clauses.now) ValueHasCode }
    ensures { Appends result here.now rows.filter_row (value_in clauses.now) draft.old draft.new }
{
    match clause_value(clauses) {
        None => {
            draft.put(here.at.line, Instr::Serial(Serial::Constant(0)))?;
            Ok(())
        }
        Some(number) => value(draft, here, number),
    }
}

/// Writes the begin of a construct that is no `atomic`. The label is for the place behind what only
/// some threads run; `critical` and `taskgroup` have no such place.
pub fn begin_construct(
    writing: &mut Writing,
    here: &Here<'_>,
    kind: &ConstructKind,
    clauses: &[ResolvedClause],
) -> AllocResult<usize>
    requires { BeginHasCode kind.now (map view.clause clauses.now) }
    ensures code { BeginsConstruct result here.now kind.now clauses.now writing.old writing.new }
    ensures scopes { ScopesConstruct result here.now kind.now clauses.now writing.old writing.new }
{
    let line = here.at.line;
    let label = writing.draft.fresh()?;
    match kind {
        ConstructKind::Single { .. } => {
            writing.draft.put_jump(line, Jump::Single, label)?;
            starts(writing, here, clauses)?;
        }
        ConstructKind::Masked => {
            filter(&mut writing.draft, here, clauses)?;
            writing.draft.put_jump(line, Jump::Masked, label)?;
        }
        ConstructKind::Critical { name } => {
            let lock = here.tables.lock_number(name);
            writing
                .draft
                .put(line, Instr::Region(Region::AskCritical(lock)))?;
            writing
                .draft
                .put(line, Instr::Region(Region::EnterCritical(lock)))?;
        }
        ConstructKind::Atomic { .. } => unreachable!(),
        ConstructKind::Taskgroup => writing.draft.put(line, Instr::Task(Task::GroupBegin))?,
    }
    Ok(label)
}

/// Writes the end of a construct that is no `atomic`.
pub fn end_construct(
    draft: &mut Draft,
    here: &Here<'_>,
    kind: &ConstructKind,
    label: usize,
) -> AllocResult<()>
    requires free { slice_get draft.old.places label ≡ Some None }
    requires kind { IsNoAtomic kind.now }
    ensures { EndsConstruct result here.now kind.now label draft.old draft.new }
{
    let line = here.at.line;
    match kind {
        ConstructKind::Single { nowait } => {
            draft.define(label);
            worksharing_end(draft, line, *nowait)?;
            Ok(())
        }
        ConstructKind::Masked => {
            draft.put(line, Instr::Region(Region::EndMasked))?;
            draft.define(label);
            Ok(())
        }
        ConstructKind::Critical { name } => {
            let lock = here.tables.lock_number(name);
            draft.put(line, Instr::Region(Region::LeaveCritical(lock)))?;
            Ok(())
        }
        ConstructKind::Atomic { .. } => unreachable!(),
        ConstructKind::Taskgroup => {
            draft.put(line, Instr::Task(Task::GroupEnd))?;
            Ok(())
        }
    }
}
