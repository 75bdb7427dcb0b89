// What is proved of the two codes, as theorems only.
ghost use Rattle.codes.specs.Code.{Lawful};
ghost use Rattle.codes.specs.TwoCodes.{parity, four_check, SumsMakeRight};

// Does nothing: its contract says that both codes are lawful, and that the check words of the four-check code make its
// four sums 0, and no others do.
pub fn codes_stand()
    ensures lawful { (Lawful parity) × (Lawful four_check) }
    ensures one { SumsMakeRight 1 parity }
    ensures four { SumsMakeRight 4 four_check }
{}
