// Laws of the block, stated as contracts so that the check asks for their proofs.
ghost use Rattle.block.specs.BlockType.{NumbersKept, TypesKept};
ghost use Rattle.block.specs.Control.{Control1Decodes, Control1Encodes, Control2Decodes, Control2Encodes};
ghost use Rattle.block.specs.Laws.{DataBlocksMade, CheckBlocksMade, EndBlocksMade};

// Does nothing: its contract states that control fields go into their bytes and come out again, and types into numbers.
pub fn controls_stand()
    ensures types { (NumbersKept) × (TypesKept) }
    ensures control1 { (Control1Decodes) × (Control1Encodes) }
    ensures control2 { (Control2Decodes) × (Control2Encodes) }
{}

// Does nothing: its contract states that every block that is made is sound and gives back what it was made of.
pub fn blocks_stand()
    ensures data { DataBlocksMade }
    ensures check { CheckBlocksMade }
    ensures end { EndBlocksMade }
{}
