// Laws and worked examples, proved of the definitions that the contracts cite.
ghost use Rattle.std.specs.Prelude.{◌≡◌};
ghost use Rattle.words.specs.Examples.{Examples};
ghost use Rattle.words.specs.Laws.{PastTheCount, OperandsInOrder, FaultsInOrder};

// Words past the count are not read; the words after the mask are the operands of its bits, in their order; the fault
// is that of the first check that fails.
pub fn laws_stand() -> u8
    ensures past { PastTheCount }
    ensures operands { OperandsInOrder }
    ensures faults { FaultsInOrder }
    ensures value { result ≡ 0 }
{
    0
}

pub fn examples_stand() -> u8
    ensures examples { Examples }
    ensures value { result ≡ 0 }
{
    0
}
