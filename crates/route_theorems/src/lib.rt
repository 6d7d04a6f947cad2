// The theorems on classless routes that crate options states: proofs only. There is no code here.
#![tactic(auto)]

ghost use Rattle.options.specs.RouteClaims.{RoutesFillTheData, ClearedBits, StepsGiveTheRoutes, StepIsTheRoute, DoneWhere, WalkEnds, RouteWriterIsCorrect, RoutesRoomIsEnough, RoutesWalkBack, IgnoredAsLookedUp, IgnoredIsCorrect, RouteNumbers};
ghost use Rattle.options.specs.RouteCases.{RouteCasesHold};

// What crate options states on classless routes holds, and so do the cases.
pub fn proved()
    ensures { RoutesFillTheData × ClearedBits × StepsGiveTheRoutes × StepIsTheRoute × DoneWhere × WalkEnds × RouteWriterIsCorrect × RoutesRoomIsEnough × RoutesWalkBack × IgnoredAsLookedUp × IgnoredIsCorrect × RouteNumbers × RouteCasesHold }
{}
