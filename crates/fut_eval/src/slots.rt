// The table of names: what each name stands for, as long as something may read it.
ghost use Rattle.std.specs.Prelude.{◌≡◌, IfSome};
ghost use Rattle.fut_meaning.specs.Outcomes.{Val};
ghost use Rattle.fut_meaning.specs.Places.{size_of};
ghost use Rattle.fut_value.specs.Data.{shape_of};
ghost use Rattle.array_data.specs.Answers.{Tells};
ghost use Rattle.array_data.specs.Held.{held};
ghost use Rattle.array_data.specs.declared.data.Data.TheVariants as hold;
ghost use Rattle.form_parts.specs.Met.{as_shape};
ghost use Rattle.fut_eval.specs.Slots.{Knows_length, shown};

use array_data::{Data, Form, Stop, Trace, form_of};
use form_parts::{array_form, data_length};
use fut_blocks::{Act, Atom, Step};
use fut_scalar::{List, Scalar, ScalarType, Shared};
use std::alloc::Global;
use std::marker::Model;

/// One of the branches of an `if`. What has none is in the first.
#[derive(Clone, Copy)]
pub enum Branch {
    First,
    Second,
}

/// How a name gets its value from another one, which may be given up then, since nothing names it later.
#[derive(Clone, Copy)]
pub struct Moves {
    /// From an atom, or from the result of the first branch of an `if`.
    first: bool,
    /// From the result of the second branch.
    second: bool,
}

impl Moves {
    pub fn none() -> Moves {
        Moves {
            first: false,
            second: false,
        }
    }

    /// In a branch too.
    pub fn with(self, branch: Branch) -> Moves {
        match branch {
            Branch::First => Moves {
                first: true,
                second: self.second,
            },
            Branch::Second => Moves {
                first: self.first,
                second: true,
            },
        }
    }

    fn is_in(self, branch: Branch) -> bool {
        match branch {
            Branch::First => self.first,
            Branch::Second => self.second,
        }
    }
}

/// What the table has of a value. How an array looks like that was given up stays known, since rows and sizes may ask for it.
#[derive(Drop)]
pub enum Content {
    Here(Data),
    /// Of an array of scalars that was given up, with its length.
    Words(ScalarType, u64, Trace<List<u64>>),
    /// Of an array of rows that was given up, with what these look like and how many there were.
    Rows(u32, Shared<Form>, u64, Trace<List<Data>>),
}

/// The place of a name in the table. Contracts see the value that the name got last, also where it was given up.
#[derive(Drop)]
pub struct Slot {
    content: Content,
    moves: Moves,
}

impl Model for Slot {
    ghost use Rattle.std.specs.Coded.{codes};
    ghost use Rattle.array_data.specs.declared.data.Data.{Data};
    ghost use Rattle.array_data.specs.contracts.data.Data as data_type;

    ghost Value = { Data };

    ghost coded = { Prim.hlevel (codes, data_type.the_row.coded) };

    ghost use Rattle.fut_eval.specs.Slots.{Knows_length, shown};

    ghost view = { λ slot. shown slot.content };

    ghost invariant = { λ slot. Knows_length slot.content };
}

impl Slot {
    pub fn new(value: Data, moves: Moves) -> Slot
        ensures { result ≡ value }
    {
        Slot {
            content: Content::Here(value),
            moves,
        }
    }

    /// The value, where it was not given up.
    pub fn get(&self) -> Option<&Data>
        ensures { IfSome result (λ value. value.now ≡ self.now) }
    {
        match &self.content {
            Content::Here(value) => Some(value),
            Content::Words(_, _, _) => None,
            Content::Rows(_, _, _, _) => None,
        }
    }

    /// The form of the value, also where that was given up.
    #[tactic(auto, using(crate::proofs::Slotting::slot_forms))]
    pub fn form(&self, alloc: Global) -> Result<Form, Stop>
        ensures { Tells (Val (shape_of (held self.now))) (as_shape result) }
    {
        match &self.content {
            Content::Here(value) => {
                let form = form_of(alloc, value)?;
                Ok(form)
            }
            Content::Words(ty, many, _) => array_form(alloc, *many, Form::Scalar(*ty)),
            Content::Rows(_, row, many, _) => {
                let row = row.share()?;
                Ok(Form::Array(*many, row))
            }
        }
    }

    /// How many rows the value has, also where that was given up: 0 where it is no array.
    #[tactic(auto, using(crate::proofs::Slotting::slot_lengths))]
    pub fn length(&self) -> u64
        ensures { result ≡ size_of (shape_of (held self.now)) }
    {
        match &self.content {
            Content::Here(value) => data_length(value),
            Content::Words(_, many, _) => *many,
            Content::Rows(_, _, many, _) => *many,
        }
    }

    /// The value, where it is a scalar.
    pub fn scalar(&self) -> Option<Scalar>
        ensures { IfSome result (λ scalar. self.now ≡ hold.Scalar scalar) }
    {
        match &self.content {
            Content::Here(Data::Scalar(scalar)) => Some(*scalar),
            _ => None,
        }
    }

    pub fn set(&mut self, value: Data)
        ensures { self.new ≡ value }
    {
        self.content = Content::Here(value);
    }

    /// Sets a scalar. Over another one, as mostly, it is written where that stands.
    pub fn set_scalar(&mut self, scalar: Scalar)
        ensures { self.new ≡ hold.Scalar scalar }
    {
        if let Content::Here(Data::Scalar(held)) = &mut self.content {
            *held = scalar;
        } else {
            self.content = Content::Here(Data::Scalar(scalar));
        }
    }

    /// Whether the name gets its value from one that may be given up then.
    fn moves_in(&self, branch: Branch) -> bool {
        self.moves.is_in(branch)
    }

    /// Gives up an array. Others who have it are one less.
    fn give_up(&mut self)
        ensures { self.new ≡ self.old }
    {
        if let Some(rest) = rest_of(&self.content) {
            self.content = rest;
        }
    }
}

/// What is left of an array that is given up. Of other values nothing is gained, so they stay.
#[tactic(auto, using(crate::proofs::Slotting::rests))]
fn rest_of(content: &Content) -> Option<Content>
    ensures same { IfSome result (λ rest. shown rest ≡ shown content.now) }
    ensures long { IfSome result Knows_length }
{
    match content {
        Content::Here(Data::Words(ty, words)) => match words.trace() {
            Ok(trace) => Some(Content::Words(*ty, words.get().len() as u64, trace)),
            Err(_) => None,
        },
        Content::Here(Data::Rows(depth, form, rows)) => match (form.share(), rows.trace()) {
            (Ok(form), Ok(trace)) => {
                let many = rows.get().len() as u64;
                Some(Content::Rows(*depth, form, many, trace))
            }
            _ => None,
        },
        _ => None,
    }
}

/// Gives up the array of a name.
fn give_up(name: u32, table: &mut [Slot])
    ensures { table.new ≡ table.old }
{
    let at = name as usize;
    if at < table.len() {
        table[at].give_up();
    }
}

/// Gives up the arrays of names.
pub fn give_up_all(names: &[u32], table: &mut [Slot])
    ensures { table.new ≡ table.old }
{
    for name in names {
        give_up(*name, table);
    }
}

/// Whether a name gets its value from one that may be given up then.
fn moves_in(name: u32, branch: Branch, table: &[Slot]) -> bool {
    let at = name as usize;
    at < table.len() && table[at].moves_in(branch)
}

/// Gives up what names get their values from, one from each atom, where nothing names it later.
pub fn give_up_moved(names: &[u32], atoms: &[Atom], branch: Branch, table: &mut [Slot])
    ensures { table.new ≡ table.old }
{
    for i in 0..names.len().min(atoms.len()) {
        if let Atom::Name(name) = atoms[i]
            && moves_in(names[i], branch, table)
        {
            give_up(name, table);
        }
    }
}

/// Gives up what a block's steps have bound.
pub fn give_up_bound(steps: &[Step], table: &mut [Slot])
    ensures { table.new ≡ table.old }
{
    for step in steps {
        give_up_all(step.names, table);
    }
}

/// Gives up what nothing names after a step: the parameters of its loop or function, and what the results of its branches
/// come from.
pub fn give_up_used(step: &Step, table: &mut [Slot])
    ensures { table.new ≡ table.old }
{
    match &step.act {
        Act::If(_, yes, no) => {
            give_up_moved(step.names, yes.results, Branch::First, table);
            give_up_moved(step.names, no.results, Branch::Second, table);
        }
        Act::For { params, .. } => give_up_all(params, table),
        Act::ForEach { params, .. } => give_up_all(params, table),
        Act::While { params, .. } => give_up_all(params, table),
        Act::Primitive { params, .. } => give_up_all(params, table),
        Act::Operate(_) => {}
        Act::Make(_, _, _) => {}
        Act::Size(_) => {}
        Act::Coerce(_, _, _) => {}
    }
}
