// Laws of stores and views, each carried by a call.
ghost use Rattle.block_store.specs.Laws.{BlocksAreApart, ViewsArePlaced, ViewsOfViews};

/// The law that a view of a view reads what the other shows.
pub fn views_show_what_they_are_of()
    ensures { ViewsOfViews }
{}

/// The law that rows and slices may be taken of a view that lies in its block.
pub fn views_are_placed()
    ensures { ViewsArePlaced }
{}

/// The law that what is done to one block leaves all others, and what is read there.
pub fn blocks_are_apart()
    ensures { BlocksAreApart }
{}
