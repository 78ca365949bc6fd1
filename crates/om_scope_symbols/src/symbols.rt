//! The names that are in scope at a place, where they are declared, and as what. A look-up finds the
//! innermost declaration at once, however deep a place is.

ghost use Rattle.std.specs.Prelude.{◌≡◌, ◌+◌, ◌<◌, ◌^◌, [], ◌∷◌, false, OnOk, length, position};
ghost use Rattle.std.specs.List.{list_any};
ghost use Rattle.std.specs.Str.{bytes_eq};
ghost use Rattle.om_scope_rules.specs.Sharing.{is_copied, is_unlisted};
ghost use Rattle.om_scope_rules.specs.Scopes.{predeclared, nothing_declared, file_scope, inside, within, outside};
ghost use Rattle.om_scope_rules.specs.Scopes.{meaning_of, meaning_here, is_declared, with_bindings, with_local};
ghost use Rattle.om_scope_rules.specs.Scopes.{with_global, with_function, with_defined};
ghost use Rattle.om_scope_symbols.specs.Sightings.{ForgetsScope, depth_of, meaning_at};

use crate::nesting::Nesting;
use crate::stacks::Stacks;
use crate::table::{Table, enter_scope};
use om_parser_tree::Name;
use om_scope_rules::{Meaning, Names, Region, Signature};
use om_scope_tree::{Shape, Variable};
use om_seq::AllocResult;
use std::alloc::Global;
use std::marker::Model;
use std::mem;

/// The names in scope at a place. Contracts see the scopes round that place.
pub struct Symbols {
    // The names of the innermost scope, in the order of their declarations.
    inner: Table,
    // Those of the scopes round it, the file scope first.
    outer: Vec<Table>,
    // The constructs that stand in the outer scopes.
    nesting: Nesting,
    // The declarations of each name in all of these scopes.
    sightings: Stacks<Sighting>,
    // How many globals there are.
    globals: u32,
    // How many cells they have: each has one or more.
    cells: u32,
    // The functions that the whole source defines.
    definitions: Names,
    // Those that it defines before this place.
    defined: Names,
}

// By hand: other crates call this, and do not prove anew how each part is dropped.
impl Drop for Symbols {
    fn drop(self) {
        let Symbols {
            inner,
            outer,
            nesting,
            sightings,
            globals: _,
            cells: _,
            definitions,
            defined,
        } = self;
        drop(inner);
        drop(outer);
        drop(nesting);
        drop(sightings);
        drop(definitions);
        drop(defined);
    }
}

impl Model for Symbols {
    ghost use Rattle.std.specs.Prelude.{◌≤◌, ◌∷◌, length};
    ghost use Rattle.om_scope_rules.specs.Scopes.{Scopes};
    ghost use Rattle.om_scope_symbols.specs.Nesting.{AreNested, enclosing_of};
    ghost use Rattle.om_scope_symbols.specs.Sightings.{Shows, scopes_of};

    ghost Value = { Scopes };

    ghost view = { λ s. record {
      inner = s.inner;
      outer = enclosing_of (scopes_of s.outer.items) s.nesting;
      globals = s.globals;
      cells = s.cells;
      definitions = s.definitions;
      defined = s.defined;
    } };

    ghost invariant = { λ s. (s.globals ≤ s.cells) × AreNested s.nesting (length s.outer.items) × Shows s.sightings (s.inner ∷ scopes_of s.outer.items) };
}

/// Adds the functions that are declared before any source to no names.
pub fn add_predeclared(alloc: Global, names: &mut Names) -> AllocResult<()>
    requires is_empty { names.old ≡ [] }
    ensures { OnOk result (names.new ≡ predeclared) }
{
    names.add(alloc, b"printf")?;
    names.add(alloc, b"omp_get_thread_num")?;
    names.add(alloc, b"omp_get_num_threads")
}

impl Symbols {
    /// No name is declared yet, in a source that defines these functions.
    pub fn new(alloc: Global, definitions: Names) -> Symbols
        ensures { result ≡ nothing_declared definitions }
    {
        Symbols {
            inner: Table::new(alloc),
            outer: Vec::new(alloc),
            nesting: Nesting::new(alloc),
            sightings: Stacks::new(alloc),
            globals: 0,
            cells: 0,
            definitions,
            defined: Names::new(alloc),
        }
    }

    /// Declares what is there before any source.
    pub fn begin_file(&mut self, alloc: Global) -> AllocResult<()>
        requires is_empty { self.old ≡ nothing_declared self.old.definitions }
        ensures { OnOk result (self.new ≡ file_scope self.old.definitions) }
    {
        let asks = Meaning::Function(Signature {
            returns: true,
            parameters: 0,
        });
        add_predeclared(alloc, &mut self.defined)?;
        self.declare(alloc, b"printf", Meaning::Printf)?;
        self.declare(alloc, b"omp_get_thread_num", asks)?;
        self.declare(alloc, b"omp_get_num_threads", asks)
    }

    // Declares a name. When out of memory, nothing changes.
    fn declare(&mut self, alloc: Global, name: &[u8], meaning: Meaning) -> AllocResult<()>
        requires is_new { is_declared self.old name.now ≡ false }
        ensures { OnOk result (self.new ≡ with_bindings self.old ((name.now, meaning) ∷ [])) }
    {
        let depth = self.outer.len();
        self.sightings
            .note(alloc, name, Sighting { depth, meaning })?;
        match self.inner.put(alloc, name, meaning) {
            Ok(()) => Ok(()),
            Err(error) => {
                self.sightings.forget(name);
                Err(error)
            }
        }
    }

    /// What a name means here: its innermost declaration.
    pub fn meaning_of(&self, name: &[u8]) -> Option<Meaning>
        ensures { result ≡ meaning_of self.now name.now }
    {
        let sighting = self.sightings.innermost(name)?;
        Some(sighting.meaning)
    }

    /// What the innermost scope declares a name as.
    pub fn meaning_here(&self, name: &[u8]) -> Option<Meaning>
        ensures { result ≡ meaning_here self.now name.now }
    {
        meaning_at(self.sightings.innermost(name), self.outer.len())
    }

    /// Whether a name is declared in the innermost scope.
    pub fn is_declared(&self, name: &[u8]) -> bool
        ensures { result ≡ is_declared self.now name.now }
    {
        self.meaning_here(name).is_some()
    }

    /// The place of a function among those that the source defines anywhere and those that are
    /// there before it; nothing where none has this name.
    pub fn definition_of(&self, name: &[u8]) -> Option<usize>
        ensures { result ≡ position (bytes_eq name.now) self.now.definitions }
    {
        self.definitions.position(name)
    }

    /// Whether a function of this name is defined before this place.
    pub fn is_defined(&self, name: &[u8]) -> bool
        ensures { result ≡ list_any (bytes_eq name.now) self.now.defined }
    {
        self.defined.contains(name)
    }

    /// How many functions are defined before this place, those before any source among them.
    pub fn defined_count(&self) -> usize
        ensures { result ≡ length self.now.defined }
    {
        self.defined.len()
    }

    /// How many cells the globals have.
    pub fn cells(&self) -> u32
        ensures { result ≡ self.now.cells }
    {
        self.cells
    }

    /// Whether a construct round this place asks for a clause that lists a name, and has none.
    pub fn is_unlisted(&self, name: &[u8]) -> bool
        ensures { result ≡ is_unlisted self.now name.now }
    {
        let depth = depth_of(self.sightings.innermost(name));
        self.nesting.is_unlisted_since(depth, name)
    }

    /// Whether a `task` round this place makes a copy of a name's variable.
    pub fn is_copied(&self, name: &[u8]) -> bool
        ensures { result ≡ is_copied self.now name.now }
    {
        let depth = depth_of(self.sightings.innermost(name));
        0 < depth && self.nesting.is_copied_since(depth, name)
    }

    /// Enters a block, in which nothing is declared yet.
    pub fn enter(&mut self, alloc: Global) -> AllocResult<()>
        ensures { OnOk result (self.new ≡ inside self.old) }
    {
        self.outer.reserve(1)?;
        enter_scope(alloc, &mut self.inner, &mut self.outer);
        Ok(())
    }

    // Enters a construct, in which nothing is declared yet.
    fn begin(&mut self, alloc: Global, region: Region) -> AllocResult<()>
        ensures { OnOk result (self.new ≡ within [] region self.old) }
    {
        let depth = self.outer.len();
        self.outer.reserve(1)?;
        enter_scope(alloc, &mut self.inner, &mut self.outer);
        self.nesting.enter(alloc, depth, self.outer.len(), region)
    }

    /// Enters a construct in which these names are declared. When out of memory, it is not said what is in
    /// scope.
    pub fn enter_region(&mut self, alloc: Global, copies: &Table, region: Region) -> AllocResult<()>
        ensures { OnOk result (self.new ≡ within copies.now region self.old) }
    {
        self.begin(alloc, region)?;
        for binding in copies.as_slice() {
            self.declare(alloc, binding.0.as_slice(), binding.1)?;
        }
        Ok(())
    }

    /// Leaves a block: what it declares is forgotten.
    pub fn leave(&mut self)
        ensures { self.new ≡ outside self.old }
    {
        if let Some(outer) = self.outer.pop() {
            forget_scope(&mut self.sightings, mem::replace(&mut self.inner, outer));
            self.nesting.leave(self.outer.len());
        }
    }

    /// Declares a name as a variable of a function.
    pub fn declare_local(&mut self, alloc: Global, name: &Name, shape: Shape) -> AllocResult<()>
        requires is_new { is_declared self.old name.now.text ≡ false }
        ensures { OnOk result (self.new ≡ with_local self.old name.now shape) }
    {
        let meaning = Meaning::Variable(Variable::Local(name.span.start), shape);
        self.declare(alloc, name.text.as_slice(), meaning)
    }

    /// Declares a name as a function.
    pub fn declare_function(
        &mut self,
        alloc: Global,
        name: &[u8],
        signature: Signature,
    ) -> AllocResult<()>
        requires is_new { is_declared self.old name.now ≡ false }
        ensures { OnOk result (self.new ≡ with_function self.old name.now signature) }
    {
        self.declare(alloc, name, Meaning::Function(signature))
    }

    /// Declares a name as the next global, of so many cells.
    pub fn declare_global(
        &mut self,
        alloc: Global,
        name: &[u8],
        shape: Shape,
        cells: u32,
    ) -> AllocResult<()>
        requires is_new { is_declared self.old name.now ≡ false }
        requires has_cells { 0 < cells }
        requires has_room { self.old.cells + cells < 2 ^ 32 }
        ensures { OnOk result (self.new ≡ with_global self.old name.now shape cells) }
    {
        let meaning = Meaning::Variable(Variable::Global(self.globals), shape);
        self.declare(alloc, name, meaning)?;
        self.globals += 1;
        self.cells += cells;
        Ok(())
    }

    /// Notes that a function is defined.
    pub fn define(&mut self, alloc: Global, name: &[u8]) -> AllocResult<()>
        ensures { OnOk result (self.new ≡ with_defined self.old name.now) }
    {
        self.defined.add(alloc, name)
    }
}

/// A declaration of a name.
#[derive(Clone, Copy)]
pub struct Sighting {
    /// How many scopes stand round the one that has it.
    pub depth: usize,
    /// What it declares the name as.
    pub meaning: Meaning,
}

/// How deep the scope is that declares a name; nothing is declared round the file scope.
pub fn depth_of(sighting: Option<Sighting>) -> usize
    ensures { result ≡ depth_of sighting }
{
    match sighting {
        Some(sighting) => sighting.depth,
        None => 0,
    }
}

/// What the scope of this depth declares a name as, where no deeper one declares it. This is its
/// innermost declaration.
pub fn meaning_at(sighting: Option<Sighting>, depth: usize) -> Option<Meaning>
    ensures { result ≡ meaning_at sighting depth }
{
    let sighting = sighting?;
    if sighting.depth == depth {
        Some(sighting.meaning)
    } else {
        None
    }
}

/// Forgets the declarations of the innermost scope.
pub fn forget_scope(sightings: &mut Stacks<Sighting>, mut table: Table)
    ensures { ForgetsScope table sightings.old sightings.new }
{
    while let Some(name) = table.pop() {
        sightings.forget(name.as_slice());
    }
}
