// The theorems on vendor information that crate options states: proofs only. There is no code here.
#![tactic(auto)]

ghost use Rattle.options.specs.VendorClaims.{VendorReaderIsCorrect, VendorRoomIsEnough, VendorWriterIsCorrect, VendorWriteRoomIsEnough, VendorNumbers, VendorComesBack};
ghost use Rattle.options.specs.VendorCases.{VendorCasesHold};

// Every statement of crate options that this crate proves holds.
pub fn proved()
    ensures { VendorReaderIsCorrect × VendorRoomIsEnough × VendorWriterIsCorrect × VendorWriteRoomIsEnough × VendorNumbers × VendorComesBack ×
        VendorCasesHold }
{}
