// The theorems on the reply profile that crate options states: proofs only. There is no code here.
#![tactic(auto)]

ghost use Rattle.options.specs.ProfileClaims.{ProfileIsCorrect, NamedPiecesRight, SameNamedSameAnswer};
ghost use Rattle.options.specs.ProfileCases.{ProfileCasesHold};

// Every statement of crate options that this crate proves holds.
pub fn proved()
    ensures { ProfileIsCorrect × NamedPiecesRight × SameNamedSameAnswer × ProfileCasesHold }
{}
