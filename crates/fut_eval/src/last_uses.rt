// Which names are given up where they are used, since nothing names them later.
//
// One walk over a program of blocks, from its end to its begin, tells. Of the branches of an `if` the second is walked first,
// and its uses do not count while the first is walked. The body of a loop or of a function is run again and again, so it
// gives up names of its own alone: those from its first parameter on, since names rise. What a row or a size looks at is no use:
// how an array that was given up looked like stays known (`slots`).
use crate::slots::{Branch, Moves};
use fut_blocks::{Act, Atom, Block, Making, Operation, Program, Step};
use fut_flat::Primitive;
use fut_scalar::NoMemory;
use std::alloc::Global;

/// What the walk has met.
#[derive(Drop)]
struct Uses {
    /// When a use of each name was met, by the name's number: 0 where none was.
    met: Vec<u64>,
    /// How each name gets its value.
    moves: Vec<Moves>,
    /// From when to when the walk was in branches whose uses do not count now, in order.
    hidden: Vec<(u64, u64)>,
    now: u64,
}

impl Uses {
    /// Whether uses that were met at a time do not count.
    fn is_hidden(&self, time: u64) -> bool {
        let hidden = self.hidden.as_slice();
        let mut low = 0;
        let mut high = hidden.len();
        while low < high {
            let middle = low + (high - low) / 2;
            let (begin, end) = hidden[middle];
            if time < begin {
                high = middle;
            } else if time >= end {
                low = middle + 1;
            } else {
                return true;
            }
        }
        false
    }

    /// Whether something names it later.
    fn is_used(&self, name: u32) -> bool {
        let name = name as usize;
        if name >= self.met.len() {
            return true;
        }
        let time = self.met[name];
        time != 0 && !self.is_hidden(time)
    }

    /// An atom is used.
    fn meet(&mut self, atom: Atom) {
        let Atom::Name(name) = atom else {
            return;
        };
        if !self.is_used(name) && (name as usize) < self.met.len() {
            self.met[name as usize] = self.now;
        }
    }

    fn meet_all(&mut self, atoms: &[Atom]) {
        for atom in atoms {
            self.meet(*atom);
        }
    }

    /// Whether an atom is a name from the first that may be given up on, and nothing names it later.
    fn is_last(&self, atom: Atom, first: u32) -> bool {
        match atom {
            Atom::Name(name) => name >= first && !self.is_used(name),
            Atom::Constant(_) => false,
        }
    }

    /// Names get their values from atoms, one from each.
    fn mark(&mut self, names: &[u32], atoms: &[Atom], first: u32, branch: Branch) {
        for i in 0..names.len().min(atoms.len()) {
            let name = names[i] as usize;
            if name < self.moves.len() && self.is_last(atoms[i], first) {
                let moves = self.moves[name];
                self.moves[name] = moves.with(branch);
            }
        }
    }

    /// From now on, uses from a time on do not count.
    fn hide_from(&mut self, begin: u64) -> Result<(), NoMemory> {
        self.tick();
        self.hidden.push((begin, self.now))?;
        Ok(())
    }

    fn tick(&mut self) {
        self.now = self.now.saturating_add(1);
    }
}

/// The number of the first name that a loop or a function binds.
fn first_bound(params: &[u32], otherwise: u32) -> u32 {
    if params.len() == 0 {
        otherwise
    } else {
        params[0]
    }
}

/// Walks a block whose names from a first one on may be given up.
#[cycle(walk)]
fn walk_block(block: &Block, first: u32, uses: &mut Uses) -> Result<(), NoMemory> {
    uses.meet_all(block.results);
    let many = block.steps.len();
    for i in 0..many {
        walk_step(&block.steps[many - 1 - i], first, uses)?;
    }
    Ok(())
}

#[cycle(walk)]
fn walk_step(step: &Step, first: u32, uses: &mut Uses) -> Result<(), NoMemory> {
    walk_act(&step.act, step.names, first, uses)
}

/// Walks an act, whose results are for names of its own.
#[cycle(walk)]
fn walk_act(act: &Act, own: &[u32], first: u32, uses: &mut Uses) -> Result<(), NoMemory> {
    match act {
        Act::Operate(operation) => meet_operation(*operation, uses),
        Act::Make(making, _, atoms) => {
            if let Making::Update = making {
                uses.mark(own, atoms, first, Branch::First);
            }
            uses.meet_all(atoms);
        }
        Act::Primitive {
            primitive,
            place: _,
            row: _,
            data,
            params,
            body,
        } => {
            walk_block(body, first_bound(params, u32::MAX), uses)?;
            if let Primitive::Scatter | Primitive::ReduceByIndex = primitive {
                uses.mark(own, data, first, Branch::First);
            }
            uses.meet_all(data);
        }
        Act::Size(_) | Act::Coerce(_, _, _) => {}
        Act::If(condition, yes, no) => {
            uses.mark(own, yes.results, first, Branch::First);
            uses.mark(own, no.results, first, Branch::Second);
            walk_branches(yes, no, first, uses)?;
            uses.meet(*condition);
        }
        Act::For {
            params,
            first: values,
            index,
            count,
            body,
        } => {
            walk_block(body, first_bound(params, *index), uses)?;
            uses.meet(*count);
            meet_first(params, values, first, uses);
        }
        Act::ForEach {
            params,
            first: values,
            row,
            rows,
            body,
        } => {
            walk_block(body, first_bound(params, *row), uses)?;
            uses.meet(*rows);
            meet_first(params, values, first, uses);
        }
        Act::While {
            place: _,
            params,
            first: values,
            test,
            body,
        } => {
            let inner = first_bound(params, u32::MAX);
            walk_block(body, inner, uses)?;
            walk_block(test, inner, uses)?;
            meet_first(params, values, first, uses);
        }
    }
    Ok(())
}

/// Walks the branches of an `if`, the second one first.
#[cycle(walk)]
fn walk_branches(yes: &Block, no: &Block, first: u32, uses: &mut Uses) -> Result<(), NoMemory> {
    uses.tick();
    let begin = uses.now;
    walk_block(no, first, uses)?;
    uses.hide_from(begin)?;
    walk_block(yes, first, uses)?;
    uses.hidden.pop();
    Ok(())
}

/// The first values of a loop's parameters are used.
fn meet_first(params: &[u32], values: &[Atom], first: u32, uses: &mut Uses) {
    uses.mark(params, values, first, Branch::First);
    uses.meet_all(values);
}

/// The operands of an operation are used.
fn meet_operation(operation: Operation, uses: &mut Uses) {
    match operation {
        Operation::Binary(_, _, a, b) => {
            uses.meet(a);
            uses.meet(b);
        }
        Operation::Unary(_, a) => uses.meet(a),
        Operation::Convert(_, a) => uses.meet(a),
        Operation::Assert(_, a) => uses.meet(a),
        Operation::Parts(a) => uses.meet(a),
    }
}

/// How each name of a program gets its value, by its number.
pub fn moves_of(alloc: Global, program: &Program) -> Result<Vec<Moves>, NoMemory> {
    let mut uses = Uses {
        met: Vec::new(alloc),
        moves: Vec::new(alloc),
        hidden: Vec::new(alloc),
        now: 1,
    };
    for _ in 0..program.names {
        uses.met.push(0)?;
        uses.moves.push(Moves::none())?;
    }
    walk_block(&program.body, 0, &mut uses)?;
    let Uses { moves, .. } = uses;
    Ok(moves)
}
