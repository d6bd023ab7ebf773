//! The policy of the demo.
ghost use Rattle.std.specs.Prelude.{IsOk};
ghost use Rattle.demo_capture.specs.DemoCapture.{policy_text};
ghost use Rattle.policy_judge.specs.Judging.{judged};

/// A law: the policy of a demo has no fault, so a demo has chains to run.
pub fn the_demo_policy_has_no_fault()
    ensures { IsOk (judged policy_text) }
{}
