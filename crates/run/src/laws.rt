// Laws, proved of the definitions that the contracts cite.
ghost use Rattle.std.specs.Prelude.{◌≡◌};
ghost use Rattle.run.specs.Laws.{RunAppends, RunGrows, AsksAgain, AsksAnswered, AskedAppends, AskedGrows, StoresAppend, StoreCountsAdd, StoreHaltsAppend, StoresGrow, InputsAppend, InputsGrow};

// A run over a list in two parts is one over each; longer lists change nothing that a run came to; a request made again from
// the values that a run wrote is the one that was asked.
pub fn laws_stand() -> u8
    ensures appends { RunAppends }
    ensures grows { RunGrows }
    ensures again { AsksAgain }
    ensures answered { AsksAnswered }
    ensures requests { AskedAppends }
    ensures kept { AskedGrows }
    ensures stores { StoresAppend }
    ensures counts { StoreCountsAdd }
    ensures halts { StoreHaltsAppend }
    ensures stored { StoresGrow }
    ensures inputs { InputsAppend }
    ensures fitting { InputsGrow }
    ensures value { result ≡ 0 }
{
    0
}
