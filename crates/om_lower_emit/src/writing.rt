//! A body that is being written: its code, and the scopes of names in it.

ghost use Rattle.std.specs.Prelude.{◌≡◌, ◌<◌, [], OnOk, length};
ghost use Rattle.om_lower_emit.specs.Words.{BeginsOneScope, EndsAbove, EndsLast, closed_at, nothing};

use crate::draft::Draft;
use om_lower_rules::VariableScope;
use om_scope_tree::LocalVariable;
use om_seq::{AllocResult, Seq};
use std::alloc::Global;

/// A body, as far as it is written.
#[derive(Drop)]
pub struct Writing {
    pub draft: Draft,
    pub scopes: ScopeStack,
}

impl Writing {
    /// A body of which nothing is written.
    pub fn new(alloc: Global) -> Writing
        ensures draft { result.draft ≡ nothing }
        ensures opened { result.scopes.opened.items ≡ [] }
        ensures closed { result.scopes.closed.items ≡ [] }
    {
        Writing {
            draft: Draft::new(alloc),
            scopes: ScopeStack {
                alloc,
                opened: Vec::new(alloc),
                closed: Vec::new(alloc),
            },
        }
    }
}

/// The scopes of names in a body, as far as it is written (C17 6.2.1p4).
#[derive(Drop)]
pub struct ScopeStack {
    pub alloc: Global,
    /// Those that have begun and not ended, the last one last.
    pub opened: Vec<VariableScope>,
    /// Those that have ended, the innermost first.
    pub closed: Vec<VariableScope>,
}

impl ScopeStack {
    /// How many scopes have begun and not ended.
    pub fn height(&self) -> usize
        ensures { result ≡ length self.now.opened.items }
    {
        self.opened.len()
    }

    /// Begins the scope of a variable at this place. Its only error is out of memory.
    pub fn begin(
        &mut self,
        from: usize,
        length: Option<u32>,
        variable: &LocalVariable,
    ) -> AllocResult<()>
        ensures { OnOk result (BeginsOneScope from length variable.now self.old self.new) }
    {
        let name = Seq::of(Vec::from_slice(self.alloc, variable.name.as_slice())?);
        self.opened.push(VariableScope {
            name,
            variable: variable.at,
            length,
            from,
            to: from,
        })?;
        Ok(())
    }

    /// Ends all scopes but the first `height` of those that have begun, the last one first, at this
    /// place. Its only error is out of memory.
    pub fn end(&mut self, height: usize, to: usize) -> AllocResult<()>
        ensures { OnOk result (EndsAbove height to self.old self.new) }
    {
        for _turn in height..self.opened.len() {
            self.end_last(to)?;
        }
        Ok(())
    }

    // Ends the last scope that has begun, if there is one.
    fn end_last(&mut self, to: usize) -> AllocResult<()>
        ensures { OnOk result (0 < length self.old.opened.items → EndsLast to self.old self.new) }
    {
        let Some(opened) = self.opened.pop() else {
            return Ok(());
        };
        self.closed.push(closed_at(opened, to))?;
        Ok(())
    }
}

// A scope that ends at this place.
fn closed_at(opened: VariableScope, to: usize) -> VariableScope
    ensures { result ≡ closed_at to opened }
{
    VariableScope { to, ..opened }
}
