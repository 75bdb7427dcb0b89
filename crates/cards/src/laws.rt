// The laws of what a put and a strike leave alone.
ghost use Rattle.cards.specs.Laws.{ChangesOnePlace, KeepsTheRest};

// On any card: the law of the places.
pub fn calls_stand()
    ensures { ChangesOnePlace }
{}

// In a memory: the law of the bytes.
pub fn memories_stand()
    ensures { KeepsTheRest }
{}
