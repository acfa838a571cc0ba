// What is added to the tasks.
ghost use Rattle.std.specs.Prelude.{◌≡◌, ◌<◌, ◌+◌, ◌^◌, ◌++◌, ◌∷◌, [], length, OnOk, IfErr};
ghost use Rattle.type_graph.specs.declared.UnifyErr.TheVariants as err;
ghost use Rattle.type_graph.specs.Graph.{Tables, Listed, Closed, entry_at, numbers, children, pairs, all_have, chain_tasks};

use crate::{Entry, Task, UnifyErr};
use fut_scalar::{List, NoMemory};
use fut_types::Kind;

/// The entry with this number.
#[tactic(auto, unfolding(crate::specs::Graph::entry_at))]
pub fn entry_of(entries: &List<Entry>, number: u32) -> Entry
    requires { number < length entries.now }
    ensures { result ≡ entry_at entries.now number }
{
    entries.as_slice()[number as usize]
}

// Makes two rows equal.
pub fn push_pairs(tasks: &mut List<Task>, left: u32, right: u32, count: u32) -> Result<(), NoMemory>
    requires left { left + count < 2 ^ 32 }
    requires right { right + count < 2 ^ 32 }
    ensures { OnOk result (tasks.new ≡ tasks.old ++ pairs left right count) }
{
    let mut x = left;
    let mut y = right;
    let mut rest = count;
    while rest > 0 {
        tasks.push(Task::Same(x, y))?;
        x += 1;
        y += 1;
        rest -= 1;
    }
    Ok(())
}

// Gives a row a kind and a level.
pub fn push_row(
    tasks: &mut List<Task>,
    first: u32,
    count: u32,
    kind: Kind,
    depth: u32,
) -> Result<(), NoMemory>
    requires { first + count < 2 ^ 32 }
    ensures { OnOk result (tasks.new ≡ tasks.old ++ all_have (numbers first count) kind depth) }
{
    let mut x = first;
    let mut rest = count;
    while rest > 0 {
        tasks.push(Task::Has(x, kind, depth))?;
        x += 1;
        rest -= 1;
    }
    Ok(())
}

// Gives the children of a chain a kind and a level.
pub fn push_children(
    entries: &List<Entry>,
    tasks: &mut List<Task>,
    start: u32,
    count: u32,
    kind: Kind,
    depth: u32,
) -> Result<(), NoMemory>
    requires closed { Closed entries.now }
    requires start { start < length entries.now }
    ensures { OnOk result ((T : Tables) → Listed entries.now T → tasks.new ≡ tasks.old ++ all_have (children T start count) kind depth) }
{
    let mut at = start;
    let mut rest = count;
    while rest > 0 {
        let entry = entry_of(entries, at);
        tasks.push(Task::Has(entry.child, kind, depth))?;
        at = entry.next;
        rest -= 1;
    }
    Ok(())
}

// Asks the parts of a chain of a node.
pub fn push_parts(
    entries: &List<Entry>,
    tasks: &mut List<Task>,
    of: u32,
    start: u32,
    count: u32,
) -> Result<(), NoMemory>
    requires closed { Closed entries.now }
    requires start { start < length entries.now }
    ensures { OnOk result ((T : Tables) → Listed entries.now T → tasks.new ≡ tasks.old ++ chain_tasks T of start count) }
{
    let mut at = start;
    let mut rest = count;
    while rest > 0 {
        let entry = entry_of(entries, at);
        tasks.push(Task::Part(of, entry.label, entry.child))?;
        at = entry.next;
        rest -= 1;
    }
    Ok(())
}

// One task more.
pub fn push(tasks: &mut List<Task>, task: Task) -> Result<(), UnifyErr>
    ensures ok { OnOk result (tasks.new ≡ tasks.old ++ task ∷ []) }
    ensures err { IfErr result (λ e. e ≡ err.Memory) }
{
    tasks.push(task)?;
    Ok(())
}
