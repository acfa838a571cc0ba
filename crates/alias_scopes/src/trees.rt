// Scopes as trees.
use alias_values::ValueTree;

/// What names stand for, by their numbers. At a fork stands the value of the name 0; an odd number is looked up by its half in the
/// first part, another by one less than its half in the second.
#[derive(Clone, Copy)]
pub enum ScopeTree<'a> {
    Empty,
    Fork(Option<&'a ValueTree<'a>>, &'a ScopeTree<'a>, &'a ScopeTree<'a>),
}
