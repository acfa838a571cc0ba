// What sized types name as sizes.
ghost use Rattle.std.specs.Prelude.{ℕ, ◌-◌};
ghost use Rattle.size_arena.specs.Trees.{dim_of, free_of, size_of, sizes_of};
ghost use Rattle.told_rows.specs.Tables.{noted};
ghost use Rattle.unfold_reach.specs.Reach.{Noted, dim_uses, free_uses, nodes_use, parts_use, size_uses, told_uses};

use crate::spans::Span;
use crate::table::name;
use fut_scalar::BindId;
use size_arena::{Dim, Free, SizeTree};
use told_rows::Sizes;

fn note_free(named: &mut [bool], size: Free)
    ensures { Noted (free_uses (free_of size)) named.old named.new }
{
    match size {
        Free::Name(number) => name(named, BindId(number)),
        Free::Const(_) => (),
        Free::Own(_, _) => (),
        Free::Unknown(_, _) => (),
        Free::Slot(_) => (),
    }
}

fn note_dim(named: &mut [bool], size: Dim)
    ensures { Noted (dim_uses (dim_of size)) named.old named.new }
{
    match size {
        Dim::At(free) => note_free(named, free),
        Dim::Bound(_, _) => (),
    }
}

// Notes the numbers that a sized type names.
#[cycle(tree)]
fn note_tree(named: &mut [bool], tree: &SizeTree<'_>)
    ensures { Noted (size_uses (size_of tree.now)) named.old named.new }
{
    match tree {
        SizeTree::Hole(_) => (),
        SizeTree::Open { .. } => (),
        SizeTree::Level { size, row, .. } => {
            note_dim(named, *size);
            note_tree(named, row);
        }
        SizeTree::Built { parts, .. } => note_trees(named, parts),
        SizeTree::Fun { from, to, .. } => {
            note_tree(named, from);
            note_tree(named, to);
        }
    }
}

#[cycle(tree)]
fn note_trees(named: &mut [bool], trees: &[SizeTree<'_>])
    ensures { Noted (parts_use (sizes_of trees.now)) named.old named.new }
{
    for tree in trees {
        note_tree(named, tree);
    }
}

// A node without a sized type names nothing.
fn note_node(named: &mut [bool], node: Option<&SizeTree<'_>>)
    ensures { (n : ℕ) → Noted (size_uses (noted n node.entry)) named.old named.new }
{
    match node {
        Some(tree) => note_tree(named, tree),
        None => (),
    }
}

// Notes the numbers that the sized types of some nodes name.
fn note_nodes(named: &mut [bool], nodes: &[Option<&SizeTree<'_>>], span: Span)
    ensures { Noted (nodes_use nodes.now span.first (span.end - span.first)) named.old named.new }
{
    let end = nodes.len().min(span.end as usize);
    let mut at = span.first as usize;
    while at < end {
        note_node(named, nodes[at]);
        at += 1;
    }
}

/// Notes the numbers that the sized types of some nodes name, where there is a sizing.
pub fn note_told(named: &mut [bool], sizes: Option<&Sizes<'_>>, span: Span)
    ensures { Noted (told_uses sizes.entry span.first (span.end - span.first)) named.old named.new }
{
    match sizes {
        Some(tables) => note_nodes(named, tables.nodes, span),
        None => (),
    }
}
