// The items of a list in a production.

/// Items of a list, each read by what reads the expressions in it. The type of an item tells its sort.
#[derive(Clone, Copy)]
pub struct Items<R> {
    pub read: R,
}
