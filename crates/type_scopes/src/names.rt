// The table of names.
ghost use Rattle.std.specs.Prelude.{◌≡◌, ◌<◌, ◌++◌, List, length, true, OnOk, IfErr};
ghost use Rattle.type_graph.specs.Graph.{Tells};
ghost use Rattle.type_scopes.specs.Table.{IsSeated, known_at, seat_at, with_known, entered, seated, undone};
ghost use Rattle.type_scopes.specs.declared.names.Known.TheVariants as stands_for;
ghost use Rattle.type_scopes.specs.declared.names.Past.{Past as Before};

use crate::Inference;
use type_graph::{FAR, UnifyErr};

/// What a name stands for.
#[derive(Clone, Copy)]
pub enum Known {
    /// It is not in scope.
    Nothing,
    /// A value of the type of a number of the program.
    Number(u32),
    /// A size.
    Size,
    /// A written type parameter: the type of a node.
    Type(u32),
    /// A generalised definition: its template stands in the store from a part on, as many parts as counted.
    Definition(u32, u32),
}

/// A name, and what it stood for before.
#[derive(Clone, Copy)]
pub struct Past {
    pub name: u32,
    pub known: Known,
}

/// Where a type parameter was met: its node, and the depth of the definition that writes it. Before, the node is `FAR`.
#[derive(Clone, Copy)]
pub struct Seat {
    pub node: u32,
    pub depth: u32,
}

/// What a name stands for.
#[tactic(auto, unfolding(crate::specs::Table::known_at))]
pub fn known_of(inference: &Inference, name: u32) -> Known
    requires { name < length inference.now.names }
    ensures { result ≡ known_at inference.now.names name }
{
    inference.names.as_slice()[name as usize]
}

/// How many names were entered and not taken back.
pub fn mark_of(inference: &Inference) -> usize
    ensures { result ≡ length inference.now.past }
{
    inference.past.len()
}

// Whether a name is not in scope.
fn is_nothing(known: Known) -> bool
    ensures { result ≡ true → known ≡ stands_for.Nothing }
{
    match known {
        Known::Nothing => true,
        Known::Number(_) => false,
        Known::Size => false,
        Known::Type(_) => false,
        Known::Definition(_, _) => false,
    }
}

/// Lets a name stand for something, until it is taken back. Each name has a number of its own, so it is not in scope before.
#[tactic(auto, unfolding(crate::specs::Table::with_known))]
pub fn enter(inference: &mut Inference, name: u32, known: Known) -> Result<(), UnifyErr>
    ensures within { OnOk result (name < length inference.old.names) }
    ensures fresh { OnOk result (known_at inference.old.names name ≡ stands_for.Nothing) }
    ensures ok { OnOk result (inference.new ≡ entered inference.old name known) }
    ensures err { IfErr result (Tells ⊥) }
{
    if name as usize >= inference.names.len() {
        return Err(UnifyErr::Memory);
    }
    let before = known_of(inference, name);
    if !is_nothing(before) {
        return Err(UnifyErr::Memory);
    }
    match inference.past.push(Past {
        name,
        known: before,
    }) {
        Ok(()) => {}
        Err(_) => return Err(UnifyErr::Memory),
    }
    inference.names.set(name as usize, known);
    Ok(())
}

// Gives a name back what it stood for.
#[tactic(auto, using(crate::proofs::Table::set_none), unfolding(crate::specs::Table::with_known))]
fn put_back(inference: &mut Inference, past: Past)
    ensures { inference.new ≡ record inference.old { names = with_known inference.old.names past.name past.known } }
{
    if (past.name as usize) < inference.names.len() {
        inference.names.set(past.name as usize, past.known);
    }
}

/// Takes back all names that were entered since a mark.
pub fn take_back(inference: &mut Inference, mark: usize)
    ensures { (before added : List Before) → inference.old.past ≡ before ++ added → length before ≡ mark → inference.new ≡ record inference.old { names = undone added inference.old.names; past = before } }
{
    while inference.past.len() > mark {
        match inference.past.pop() {
            Some(past) => put_back(inference, past),
            None => return,
        }
    }
}

/// Where a type parameter was met.
#[tactic(auto, unfolding(crate::specs::Table::seat_at))]
pub fn seat_of(inference: &Inference, parameter: u32) -> Seat
    ensures { result ≡ seat_at inference.now.seats parameter }
{
    if parameter as usize >= inference.seats.len() {
        return Seat {
            node: FAR,
            depth: 0,
        };
    }
    inference.seats.as_slice()[parameter as usize]
}

/// Notes where a type parameter is met. Each is written once, so it was not met before.
#[tactic(auto, unfolding(crate::specs::Table::with_seat))]
pub fn note_seat(inference: &mut Inference, parameter: u32, place: Seat) -> Result<(), UnifyErr>
    ensures within { OnOk result (parameter < length inference.old.seats) }
    ensures fresh { OnOk result (IsSeated inference.old.seats parameter → ⊥) }
    ensures ok { OnOk result (inference.new ≡ seated inference.old parameter place) }
    ensures err { IfErr result (Tells ⊥) }
{
    if parameter as usize >= inference.seats.len() {
        return Err(UnifyErr::Memory);
    }
    if seat_of(inference, parameter).node < FAR {
        return Err(UnifyErr::Memory);
    }
    inference.seats.set(parameter as usize, place);
    Ok(())
}
