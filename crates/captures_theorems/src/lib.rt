// The theorems on captures that crate options states: proofs, and no code but a name for all of them.
#![tactic(auto)]

ghost use Rattle.options.specs.CaptureClaims.{CaptureIsCorrect, TallyIsCorrect, SumIsMessages, HoweverFilled, FedByParts, NoSumWraps, ReportIsCorrect, PrintsTheReport};
ghost use Rattle.options.specs.CaptureCases.{CaptureCasesHold};

// What crate options states on captures holds.
pub fn proved()
    ensures { CaptureIsCorrect × (TallyIsCorrect × (SumIsMessages × (HoweverFilled × (FedByParts × (NoSumWraps × (ReportIsCorrect × (PrintsTheReport × CaptureCasesHold))))))) }
{}
