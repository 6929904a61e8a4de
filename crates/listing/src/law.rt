ghost use Rattle.listing.specs.Laws.{OneListing};

/// An input has one listing at most, but for the choice among paths of one kind.
pub fn one_listing()
    ensures { OneListing }
{}
