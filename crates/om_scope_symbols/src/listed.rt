//! What the clauses of a directive say of variables.

ghost use Rattle.std.specs.Prelude.{◌≡◌, ◌++◌, [], ◌∷◌, false, OnOk, is_some};
ghost use Rattle.om_scope_rules.specs.DirectiveRules.{after_name, is_listed, nothing_listed, with_default};
ghost use Rattle.om_scope_symbols.specs.Nesting.{region_listing};
ghost use Rattle.std.specs.Map.{keys_of, lookup};
ghost use Rattle.std.specs.Str.{bytes_eq};

use crate::table::Table;
use om_parser_tree::Name;
use om_pragma::{DataSharing, Sharing};
use om_scope_rules::{Meaning, Names, Region, SharingKind};
use om_scope_tree::{Shape, Variable};
use om_seq::AllocResult;
use std::alloc::Global;
use std::marker::Model;

/// What the clauses of a directive say of variables.
pub struct Listed {
    default: Option<Sharing>,
    shared: Names,
    // The variables of which the construct has copies.
    copies: Table,
    // Their names.
    copied: Names,
}

// By hand: other crates call this, and do not open the tables.
impl Drop for Listed {
    fn drop(self) {
        let Listed {
            default: _,
            shared: _shared,
            copies: _copies,
            copied: _copied,
        } = self;
    }
}

impl Model for Listed {
    ghost use Rattle.std.specs.Prelude.{◌≡◌};
    ghost use Rattle.std.specs.Map.{keys_of};
    ghost use Rattle.om_scope_rules.specs.DirectiveRules as rules;

    ghost Value = { rules.Listed };

    ghost view = { λ s. record { default = s.default; shared = s.shared; copies = s.copies } };

    ghost invariant = { λ s. s.copied ≡ keys_of s.copies };
}

// Adds a copy to the copies of a construct, and its name to theirs.
fn add_copy(
    copies: &mut Table,
    copied: &mut Names,
    alloc: Global,
    name: &[u8],
    copy: Meaning,
) -> AllocResult<()>
    requires is_new { is_some (lookup (bytes_eq name.now) copies.old) ≡ false }
    requires named { copied.old ≡ keys_of copies.old }
    ensures added { OnOk result (copies.new ≡ copies.old ++ (name.now, copy) ∷ []) }
    ensures named { copied.new ≡ keys_of copies.new }
{
    copies.put(alloc, name, copy)?;
    match copied.add(alloc, name) {
        Ok(()) => Ok(()),
        Err(error) => {
            let _name = copies.pop();
            Err(error)
        }
    }
}

impl Listed {
    /// Nothing is said.
    pub fn new(alloc: Global) -> Listed
        ensures { result ≡ nothing_listed }
    {
        Listed {
            default: None,
            shared: Names::new(alloc),
            copies: Table::new(alloc),
            copied: Names::new(alloc),
        }
    }

    /// Whether a clause lists a name.
    pub fn contains(&self, name: &[u8]) -> bool
        ensures { result ≡ is_listed self.now name.now }
    {
        self.shared.contains(name) || self.copied.contains(name)
    }

    /// Notes a `default`.
    pub fn set_default(&mut self, sharing: Sharing)
        ensures { self.new ≡ with_default self.old sharing }
    {
        self.default = Some(sharing);
    }

    /// Notes a name that stands in the list of a clause. One of a `reduction` comes as `Firstprivate`: the
    /// construct has a copy of it.
    pub fn add(&mut self, alloc: Global, sharing: DataSharing, name: &Name) -> AllocResult<()>
        requires is_new { is_listed self.old name.now.text ≡ false }
        ensures { OnOk result (self.new ≡ after_name sharing self.old name.now) }
    {
        let text = name.text.as_slice();
        let copy = Meaning::Variable(Variable::Local(name.span.start), Shape::Scalar);
        match sharing {
            DataSharing::Shared => self.shared.add(alloc, text),
            DataSharing::Private | DataSharing::Firstprivate => {
                add_copy(&mut self.copies, &mut self.copied, alloc, text, copy)
            }
        }
    }

    /// The copies, and what else a construct of this kind says of the variables round it.
    pub fn into_region(self, kind: SharingKind) -> (Table, Region)
        ensures copies { result.0 ≡ self.copies }
        ensures region { result.1 ≡ region_listing kind self }
    {
        let Listed {
            default,
            shared,
            copies,
            copied,
        } = self;
        drop(copied);
        (
            copies,
            Region {
                kind,
                default,
                shared,
            },
        )
    }
}
