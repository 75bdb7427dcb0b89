// Laws of pages and maps, stated as contracts so that the check asks for their proofs.
ghost use Rattle.pages.specs.PageType.{NumbersKept, TypesKept};
ghost use Rattle.pages.specs.Entry.{EntryDecodes, EntryEncodes};
ghost use Rattle.pages.specs.Map.{MapsByRule};

// Does nothing: its contract states that MAP entries go into their bytes and come out again, and types into numbers.
pub fn entries_stand()
    ensures types { (NumbersKept) × (TypesKept) }
    ensures decodes { EntryDecodes }
    ensures encodes { EntryEncodes }
{}

// Does nothing: its contract states that a map is found exactly where the rule of maps holds.
pub fn maps_stand()
    ensures { MapsByRule }
{}
