//! Code that is being written, with labels in place of the targets of jumps.

ghost use Rattle.std.specs.Prelude.{◌≡◌, ◌<◌, ◌^◌, IfOk, OnOk, length, slice_get};
ghost use Rattle.om_lower_emit.specs.Drafts.{AreShort, Defines, Fresh, FreshLabels, FreshList, HasNoTarget, HaveNoTarget, IsPlain, Puts, PutsAll, jump_to, line_in, nothing, place_in, settled, settled_code};
ghost use Rattle.om_lower_emit.specs.Settled.{settled_list, settled_lists};

use om_code::raw::Line;
use om_code::{Instr, Region, Serial, Sharing};
use om_seq::{AllocResult, Seq};
use std::alloc::Global;
use std::marker::Model;

/// The labels at which the parts of a `sections` begin.
#[derive(Drop)]
pub struct Pick {
    /// The number of its list in the program.
    pub number: u32,
    /// A label for each part, in the order of the text.
    pub labels: Seq<usize>,
}

/// The list of a PICK: where the parts of a `sections` begin in the code of their body.
#[derive(Drop)]
pub struct PickList {
    /// The number of the list in the program.
    pub number: u32,
    /// The place of each part, in the order of the text.
    pub places: Seq<u32>,
}

/// An instruction that has a target, without it.
#[derive(Clone, Copy)]
pub enum Jump {
    /// JMP
    Always,
    /// JZ
    IfZero,
    /// GRAB
    Grab,
    /// ITER
    Iterate { slot: u32 },
    /// SINGLE
    Single,
    /// MASKED
    Masked,
}

/// An instruction with its line. A label stands for the target of a jump.
#[derive(Clone, Copy)]
pub enum DraftLine {
    Plain(Line),
    Jump { line: u32, jump: Jump, label: usize },
}

/// The code of one body, as far as it is written.
///
/// Contracts see the target of each jump in it as a label, and `settle` gives the code with places
/// in their stead. A label is the place of its entry in `places`.
#[derive(Drop)]
pub struct Draft {
    code: Vec<DraftLine>,
    places: Vec<Option<usize>>,
    picks: Vec<Pick>,
}

impl Model for Draft {
    ghost use Rattle.std.specs.Prelude.{map};
    ghost use Rattle.om_lower_emit.specs.Drafts.{IsDraft, Written, line_in};

    ghost Value = { Written };

    ghost view = { λ d. record { code = map line_in d.code.items; places = d.places.items; picks = d.picks.items } };

    ghost invariant = { λ d. IsDraft d.code.items d.places.items };
}

impl Draft {
    /// A draft in which nothing is written. It takes no memory.
    pub fn new(alloc: Global) -> Draft
        ensures { result ≡ nothing }
    {
        Draft {
            code: Vec::new(alloc),
            places: Vec::new(alloc),
            picks: Vec::new(alloc),
        }
    }

    /// The place of the next instruction.
    pub fn place(&self) -> usize
        ensures { result ≡ length self.now.code }
    {
        self.code.len()
    }

    /// Adds an instruction that has no target, with its line.
    pub fn put(&mut self, line: u32, instruction: Instr) -> AllocResult<()>
        requires { HasNoTarget instruction }
        ensures { OnOk result (Puts line instruction self.old self.new) }
    {
        self.code
            .push(DraftLine::Plain(Line { instruction, line }))?;
        Ok(())
    }

    /// Adds instructions of one line that have no targets, one behind the other.
    pub fn put_all(&mut self, line: u32, instructions: &[Instr]) -> AllocResult<()>
        requires { HaveNoTarget instructions.now }
        ensures { OnOk result (PutsAll line instructions.now self.old self.new) }
    {
        for instruction in instructions {
            self.put(line, *instruction)?;
        }
        Ok(())
    }

    /// Adds an instruction whose target is a label, with its line.
    pub fn put_jump(&mut self, line: u32, jump: Jump, label: usize) -> AllocResult<()>
        ensures { OnOk result (Puts line (jump_to jump label) self.old self.new) }
    {
        self.code.push(DraftLine::Jump { line, jump, label })?;
        Ok(())
    }

    /// A new label, which has no place yet.
    pub fn fresh(&mut self) -> AllocResult<usize>
        ensures { IfOk result (λ label. Fresh label self.old self.new) }
    {
        let label = self.places.len();
        self.places.push(None)?;
        Ok(label)
    }

    /// Gives a label that has no place the one of the next instruction.
    pub fn define(&mut self, label: usize)
        requires { slice_get self.old.places label ≡ Some None }
        ensures { Defines label self.old self.new }
    {
        self.places[label] = Some(self.code.len());
    }

    /// A new label for each part of a `sections`, one behind the other, and the list of its PICK with
    /// this number in the program. The first label is answered; none has a place yet.
    pub fn fresh_list(&mut self, alloc: Global, number: u32, count: u32) -> AllocResult<usize>
        ensures { IfOk result (λ first. FreshList number first count self.old self.new) }
    {
        let first = self.places.len();
        let labels = Seq::of(self.fresh_labels(alloc, count)?);
        self.picks.push(Pick { number, labels })?;
        Ok(first)
    }

    // So many new labels, one behind the other, which have no place yet.
    fn fresh_labels(&mut self, alloc: Global, count: u32) -> AllocResult<Vec<usize>>
        ensures { IfOk result (λ labels. FreshLabels labels.items count self.old self.new) }
    {
        let mut labels = Vec::new(alloc);
        for _ in 0..count {
            let label = self.fresh()?;
            labels.push(label)?;
        }
        Ok(labels)
    }

    /// The code, with the place of each label in its stead. A place has 32 bits there, so the code has
    /// fewer than 2^32 instructions. The only error is out of memory.
    pub fn settle(&self, alloc: Global) -> AllocResult<Seq<Line>>
        requires { length self.now.code < 2 ^ 32 }
        ensures { IfOk result (λ code. code ≡ settled_code self.now) }
    {
        let places = self.places.as_slice();
        let mut code = Vec::new(alloc);
        for line in self.code.as_slice() {
            code.push(settled(places, *line))?;
        }
        Ok(Seq::of(code))
    }

    /// The lists of the PICKs in the code, with the place of each label in its stead. The only error is
    /// out of memory.
    pub fn lists(&self, alloc: Global) -> AllocResult<Vec<PickList>>
        requires { length self.now.code < 2 ^ 32 }
        ensures { IfOk result (λ lists. lists.items ≡ settled_lists self.now) }
    {
        let places = self.places.as_slice();
        let mut lists = Vec::new(alloc);
        for pick in self.picks.as_slice() {
            lists.push(settled_list(alloc, places, pick)?)?;
        }
        Ok(lists)
    }
}

// Where a label stands; the begin of the body until that is known.
fn place_in(places: &[Option<usize>], label: usize) -> u32
    requires { AreShort places.now }
    ensures { result ≡ place_in places.now label }
{
    match places.get(label) {
        Some(Some(place)) => *place as u32,
        _ => 0,
    }
}

// A jump to a place.
fn jump_to(jump: Jump, target: u32) -> Instr
    ensures { result ≡ jump_to jump target }
{
    match jump {
        Jump::Always => Instr::Serial(Serial::Jump(target)),
        Jump::IfZero => Instr::Serial(Serial::JumpIfZero(target)),
        Jump::Grab => Instr::Sharing(Sharing::Grab(target)),
        Jump::Iterate { slot } => Instr::Sharing(Sharing::Iterate {
            slot,
            otherwise: target,
        }),
        Jump::Single => Instr::Sharing(Sharing::Single(target)),
        Jump::Masked => Instr::Region(Region::Masked(target)),
    }
}

// A line, with the place of its jump's target.
fn settled(places: &[Option<usize>], line: DraftLine) -> Line
    requires places { AreShort places.now }
    requires plain { IsPlain line }
    ensures { result ≡ settled (place_in places.now) (line_in line) }
{
    match line {
        DraftLine::Plain(line) => line,
        DraftLine::Jump { line, jump, label } => Line {
            instruction: jump_to(jump, place_in(places, label)),
            line,
        },
    }
}

// The list of a PICK, with the place of each label.
fn settled_list(alloc: Global, places: &[Option<usize>], pick: &Pick) -> AllocResult<PickList>
    requires { AreShort places.now }
    ensures { IfOk result (λ list. list ≡ settled_list (place_in places.now) pick.now) }
{
    let mut targets = Vec::new(alloc);
    for label in pick.labels.as_slice() {
        targets.push(place_in(places, *label))?;
    }
    Ok(PickList {
        number: pick.number,
        places: Seq::of(targets),
    })
}
