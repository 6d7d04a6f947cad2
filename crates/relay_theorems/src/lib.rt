// The theorems on relay information that crate options states: proofs only. There is no code here.
#![tactic(auto)]

ghost use Rattle.options.specs.RelayClaims.{RelayReaderIsCorrect, RelayReadsTheRow, RelayRoomIsEnough, RelayWriterIsCorrect, RelayWriteRoomIsEnough, RelayNumbers, RelayComesBack, WrittenKeepsTheRow};
ghost use Rattle.relay_theorems.specs.Cases.{RelayCasesHold, OrderCases};
ghost use Rattle.relay_theorems.specs.Rowless.{RowlessCodes};
ghost use Rattle.relay_theorems.specs.OneWalk.{WalkedAlike};

// What crate options states on relay information holds, and so do the cases.
pub fn proved()
    ensures { RelayReaderIsCorrect × RelayReadsTheRow × RelayRoomIsEnough × RelayWriterIsCorrect × RelayWriteRoomIsEnough × RelayNumbers × RelayComesBack × WrittenKeepsTheRow × RelayCasesHold × OrderCases × RowlessCodes × WalkedAlike }
{}
