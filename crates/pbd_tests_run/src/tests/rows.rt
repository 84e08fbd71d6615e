//! Inputs beside what is written, of `simulate`, `marks`, `host` and `obj`, and runs that stop before the first reply.
use super::written::wrong_in;
use pbd_tests_rows::{WrongRows, all_hold};

/// Steps, frames, refusals and ledgers.
const RUNS: &str =
    "simulate * < gravity = [0, -10, 0]; [[particle]]; at = [0, 1000, 0]; %%; step 3; frame => 0 ok; frame 3 1 0 0; 0 940 0
simulate * < passes = 1; [[particle]]; at = [0, 0, 0]; [[particle]]; at = [105, 0, 0]; [[link]]; a = 0; b = 1; rest = 100; %%; step 1; frame; ledger => 0 ok; frame 1 2 1 0; 3 0 0; 102 0 0; ledger momentum 0 0 0; ledger opening 0 0 0; ledger gravity 0 0 0; ledger damping 0 0 0; ledger link 0 0 0; ledger contact 0 0 0; ledger pin 0 0 0; ledger shape 0 0 0
simulate * < passes = 1; [[particle]]; at = [0, 0, 0]; held = true; [[particle]]; at = [105, 0, 0]; [[link]]; a = 0; b = 1; rest = 100; %%; step 1; frame; ledger => 0 ok; frame 1 2 1 0; 0 0 0; 100 0 0; ledger momentum -5 0 0; ledger opening 0 0 0; ledger gravity 0 0 0; ledger damping 0 0 0; ledger link 0 0 0; ledger contact 0 0 0; ledger pin -5 0 0; ledger shape 0 0 0
simulate * < passes = 1; [[particle]]; at = [0, 0, 0]; held = true; [[particle]]; at = [105, 0, 0]; held = true; [[link]]; a = 0; b = 1; rest = 100; %%; step 1; frame; ledger => 0 ok; frame 1 2 1 0; 0 0 0; 105 0 0; ledger momentum 0 0 0; ledger opening 0 0 0; ledger gravity 0 0 0; ledger damping 0 0 0; ledger link 0 0 0; ledger contact 0 0 0; ledger pin 0 0 0; ledger shape 0 0 0
simulate * < passes = 1; [[particle]]; at = [7, 7, 7]; [[particle]]; at = [7, 7, 7]; [[link]]; a = 0; b = 1; rest = 100; %%; step 1; frame; ledger => 0 ok; frame 1 2 1 0; 7 7 7; 7 7 7; ledger momentum 0 0 0; ledger opening 0 0 0; ledger gravity 0 0 0; ledger damping 0 0 0; ledger link 0 0 0; ledger contact 0 0 0; ledger pin 0 0 0; ledger shape 0 0 0
simulate * < passes = 1; [[particle]]; at = [0, 0, 0]; [[particle]]; at = [105, 0, 0]; weight = 2; [[link]]; a = 0; b = 1; rest = 100; %%; step 1; frame; ledger => 0 ok; frame 1 2 1 0; 2 0 0; 102 0 0; ledger momentum -1 0 0; ledger opening 0 0 0; ledger gravity 0 0 0; ledger damping 0 0 0; ledger link -1 0 0; ledger contact 0 0 0; ledger pin 0 0 0; ledger shape 0 0 0
simulate * < damping = 512; [[particle]]; at = [0, 0, 0]; velocity = [3, 0, 0]; %%; step 1; frame; ledger => 0 ok; frame 1 1 0 0; 1 0 0; ledger momentum 1 0 0; ledger opening 3 0 0; ledger gravity 0 0 0; ledger damping -2 0 0; ledger link 0 0 0; ledger contact 0 0 0; ledger pin 0 0 0; ledger shape 0 0 0
simulate * < passes = 0; thickness = 100; [[particle]]; at = [0, 0, 0]; [[particle]]; at = [99, 0, 0]; [[particle]]; at = [100, 0, 0]; %%; step 1; frame => 0 ok; frame 1 3 0 2; 0 0 0; 99 0 0; 100 0 0
simulate * < passes = 1; thickness = 100; [[particle]]; at = [0, 0, 0]; [[particle]]; at = [99, 0, 0]; [[particle]]; at = [100, 0, 0]; %%; step 1; frame => 0 ok; frame 1 3 0 2; -1 0 0; 100 0 0; 100 0 0
simulate * < passes = 1; [[sphere]]; centre = [0, 0, 0]; radius = 10; [[particle]]; at = [3, 4, 0]; [[particle]]; at = [0, 0, 0]; [[particle]]; at = [10, 0, 0]; %%; step 1; frame; ledger => 0 ok; frame 1 3 0 0; 6 8 0; 0 10 0; 10 0 0; ledger momentum 3 14 0; ledger opening 0 0 0; ledger gravity 0 0 0; ledger damping 0 0 0; ledger link 0 0 0; ledger contact 0 0 0; ledger pin 0 0 0; ledger shape 3 14 0
simulate * < passes = 1; [[plane]]; normal = [1, 2, 2]; offset = 20; [[particle]]; at = [0, 0, 0]; %%; step 1; frame; ledger => 0 ok; frame 1 1 0 0; 2 4 4; ledger momentum 2 4 4; ledger opening 0 0 0; ledger gravity 0 0 0; ledger damping 0 0 0; ledger link 0 0 0; ledger contact 0 0 0; ledger pin 0 0 0; ledger shape 2 4 4
simulate * < passes = 1; friction = 128; [[sphere]]; centre = [0, 0, 0]; radius = 10; [[particle]]; at = [3, 4, 0]; [[particle]]; at = [0, 0, 0]; [[particle]]; at = [10, 0, 0]; %%; step 1; frame; ledger; step 1; frame => 0 ok; frame 1 3 0 0; 6 8 0; 0 10 0; 10 0 0; ledger momentum 1 7 0; ledger opening 0 0 0; ledger gravity 0 0 0; ledger damping 0 0 0; ledger link 0 0 0; ledger contact 0 0 0; ledger pin 0 0 0; ledger shape 1 7 0; ok; frame 2 3 0 0; 7 10 0; 0 15 0; 10 0 0
simulate * < passes = 1; friction = 256; [[sphere]]; centre = [0, 0, 0]; radius = 10; [[particle]]; at = [3, 4, 0]; [[particle]]; at = [0, 0, 0]; [[particle]]; at = [10, 0, 0]; %%; step 1; frame; ledger; step 1; frame => 0 ok; frame 1 3 0 0; 6 8 0; 0 10 0; 10 0 0; ledger momentum 0 0 0; ledger opening 0 0 0; ledger gravity 0 0 0; ledger damping 0 0 0; ledger link 0 0 0; ledger contact 0 0 0; ledger pin 0 0 0; ledger shape 0 0 0; ok; frame 2 3 0 0; 6 8 0; 0 10 0; 10 0 0
simulate * < gravity = [1, 0, 0]; [[particle]]; at = [536870912, 0, 0]; %%; step 1; frame => 11 refused 11 LeavesRange step 1 phase predict element 0; frame 0 1 0 0; 536870912 0 0
simulate * < passes = 1; [[particle]]; at = [536870912, 2, 0]; [[particle]]; at = [536870912, 0, 0]; [[plane]]; normal = [1, 1, 0]; offset = 536870914; [[plane]]; normal = [0, 1, 0]; offset = -5; [[plane]]; normal = [1, 0, 1]; offset = 536870914; %%; step 1 => 11 refused 11 LeavesRange step 1 phase shape element 0
simulate * < [[particle]]; at = [536870906, 0, 0]; velocity = [1, 0, 0]; %%; step 10; frame => 11 refused 11 LeavesRange step 7 phase predict element 0; frame 0 1 0 0; 536870906 0 0
simulate * < passes = 1; [[particle]]; at = [-536870912, 0, 0]; weight = 65535; [[particle]]; at = [536870912, 0, 0]; weight = 1; [[link]]; a = 0; b = 1; rest = 0; %%; step 1; frame; ledger => 0 ok; frame 1 2 1 0; 536854528 0 0; 536854528 0 0; ledger momentum 1073709056 0 0; ledger opening 0 0 0; ledger gravity 0 0 0; ledger damping 0 0 0; ledger link 1073709056 0 0; ledger contact 0 0 0; ledger pin 0 0 0; ledger shape 0 0 0
simulate * < passes = 1; damping = 1024; [[particle]]; at = [536870912, 0, 0]; velocity = [1073741824, 0, 0]; %%; step 1; frame; ledger => 0 ok; frame 1 1 0 0; 536870912 0 0; ledger momentum 0 0 0; ledger opening 1073741824 0 0; ledger gravity 0 0 0; ledger damping -1073741824 0 0; ledger link 0 0 0; ledger contact 0 0 0; ledger pin 0 0 0; ledger shape 0 0 0
simulate * < passes = 1; damping = 0; [[particle]]; at = [536870912, 0, 0]; velocity = [1073741824, 0, 0]; %%; step 1 => 11 refused 11 LeavesRange step 1 phase predict element 0
simulate * < passes = 1; [[particle]]; at = [536770913, 0, 0]; velocity = [1, 0, 0]; %%; step 100000; frame; step 99999; frame => 11 refused 11 LeavesRange step 100000 phase predict element 0; frame 0 1 0 0; 536770913 0 0; ok; frame 99999 1 0 0; 536870912 0 0
simulate * < passes = 1; [[particle]]; at = [536870912, 0, 0]; [[particle]]; at = [536870911, 0, 0]; [[link]]; a = 0; b = 1; rest = 100; %%; step 1 => 11 refused 11 LeavesRange step 1 phase link element 0
simulate * < passes = 1; thickness = 100; [[particle]]; at = [536870912, 0, 0]; [[particle]]; at = [536870911, 0, 0]; %%; step 1 => 11 refused 11 LeavesRange step 1 phase contact element 0
simulate * < passes = 1; [[sphere]]; centre = [0, 0, 0]; radius = 536870912; [[particle]]; at = [1, 0, 0]; %%; step 1; frame; ledger => 0 ok; frame 1 1 0 0; 536870912 0 0; ledger momentum 536870911 0 0; ledger opening 0 0 0; ledger gravity 0 0 0; ledger damping 0 0 0; ledger link 0 0 0; ledger contact 0 0 0; ledger pin 0 0 0; ledger shape 536870911 0 0
simulate * < passes = 0; thickness = 100; [[particle]]; at = [0, 0, 0]; [[particle]]; at = [50, 0, 0]; [[link]]; a = 0; b = 1; rest = 50; tear = 40; %%; step 1; frame; step 1; frame => 0 ok; frame 1 2 0 0; 0 0 0; 50 0 0; ok; frame 2 2 0 1; 0 0 0; 50 0 0
simulate * < passes = 1; [[particle]]; at = [0, 0, 0]; [[particle]]; at = [100, 0, 0]; [[particle]]; at = [0, 1000, 0]; [[particle]]; at = [101, 1000, 0]; [[particle]]; at = [0, 2000, 0]; [[particle]]; at = [102, 2000, 0]; [[link]]; a = 0; b = 1; tear = 100; [[link]]; a = 2; b = 3; tear = 100; [[link]]; a = 4; b = 5; tear = 100; %%; step 1; frame; cut 1 => 11 ok; frame 1 6 1 0; 0 0 0; 100 0 0; 0 1000 0; 101 1000 0; 0 2000 0; 102 2000 0; refused 4 LinkGone
simulate * < [[particle]]; at = [0, 0, 0]; [[particle]]; at = [1, 0, 0]; [[track]]; particle = 0; keys = [[0, 0, 0, 0], [3, 10, 0, 0]]; [[track]]; particle = 1; keys = [[2, 5, 0, 0]]; %%; frame; step 1; frame; step 1; frame; step 1; frame; step 1; frame; unpin 0 => 11 frame 0 2 0 0; 0 0 0; 1 0 0; ok; frame 1 2 0 0; 3 0 0; 5 0 0; ok; frame 2 2 0 0; 7 0 0; 5 0 0; ok; frame 3 2 0 0; 10 0 0; 5 0 0; ok; frame 4 2 0 0; 10 0 0; 5 0 0; refused 8 Tracked
simulate * < [[particle]]; at = [0, 0, 0]; velocity = [5, 0, 0]; %%; pin 0; ledger; pin 0; move 0 1 2 3; unpin 0; unpin 0; pin 9; cut 0; gravity 536870913 0 0; step 0; fly; frame => 11 ok; ledger momentum 0 0 0; ledger opening 5 0 0; ledger gravity 0 0 0; ledger damping 0 0 0; ledger link 0 0 0; ledger contact 0 0 0; ledger pin -5 0 0; ledger shape 0 0 0; refused 7 Held; ok; ok; refused 6 NotHeld; refused 2 NoParticle; refused 3 NoLink; refused 5 OutOfRange; refused 9 BadCount; refused 1 BadCommand; frame 0 1 0 0; 1 2 3
simulate * < %%; frame => 0 frame 0 0 0 0
simulate * < gravity = [1, 0, 0]; [[particle]]; at = [268435456, 0, 0]; %%; step 1 => 0 ok
simulate * < damping = 512; friction = 9; pins = [1]; [[particle]]; at = [0, 0, 0]; velocity = [3, 0, 0]; [[particle]]; at = [4, 0, 0]; %%; step 1; frame => 0 ok; frame 1 2 0 0; 1 0 0; 4 0 0
simulate * < %%\r; # nothing;  => 0
simulate * < %%; step 0; step 100001; fly; step => 11 refused 9 BadCount; refused 9 BadCount; refused 1 BadCommand; refused 1 BadCommand
simulate * < gravity = [0, -10, 0]; [[particle]]; at = [0, 5, 0]; held = true; [[particle]]; at = [0, 7, 0]; weight = 3; %%; step 2; frame => 0 ok; frame 2 2 0 0; 0 5 0; 0 -23 0
simulate * < gravity = [0, 1, 0]; [[particle]]; at = [0, 536870912, 0]; held = true; [[particle]]; at = [0, 536870911, 0]; %%; step 2 => 11 refused 11 LeavesRange step 2 phase predict element 1
simulate * < thickness = 2; passes = 0; [[particle]]; at = [-1, 0, 0]; [[particle]]; at = [0, 0, 0]; %%; step 1; frame => 0 ok; frame 1 2 0 1; -1 0 0; 0 0 0
simulate * < thickness = 2; passes = 0; [[particle]]; at = [-1, -1, -1]; [[particle]]; at = [-1, -1, 0]; [[particle]]; at = [-1, 0, -1]; [[particle]]; at = [-1, 0, 0]; [[particle]]; at = [0, -1, -1]; [[particle]]; at = [0, -1, 0]; [[particle]]; at = [0, 0, -1]; [[particle]]; at = [0, 0, 0]; %%; step 1; frame => 0 ok; frame 1 8 0 28; -1 -1 -1; -1 -1 0; -1 0 -1; -1 0 0; 0 -1 -1; 0 -1 0; 0 0 -1; 0 0 0";

/// The step count stops at 1,000,000.
const STEP_LIMIT: &str =
    "simulate 16 < [[particle]]; at = [0, 0, 0]; %%; step 100000; step 100000; step 100000; step 100000; step 100000; step 100000; step 100000; step 100000; step 100000; step 100000; step 1 => 11 ok; ok; ok; ok; ok; ok; ok; ok; ok; ok; refused 10 StepLimit";

/// A rewind brings back the step count of its mark.
const STEP_LIMIT_OF_A_MARK: &str =
    "marks 16 < %%; step 100000; step 100000; step 100000; step 100000; step 100000; step 100000; step 100000; step 100000; step 100000; mark 1; step 100000; step 1; rewind 1; step 100000; step 1 => 11 ok; ok; ok; ok; ok; ok; ok; ok; ok; ok; ok; refused 10 StepLimit; ok; ok; refused 10 StepLimit";

/// Scenes and tagged lines.
const HOSTS: &str =
    "host * < gravity = [0, -10, 0]; [[particle]]; at = [0, 1000, 0]; %%; [[particle]]; at = [5, 0, 0]; velocity = [1, 0, 0]; %%%; 0 step 3; 1 step 1; 01 frame; 0 frame; 2 frame; 0 fly => 11 session 0; ok; session 1; ok; session 1; frame 1 1 0 0; 6 0 0; session 0; frame 3 1 0 0; 0 940 0; session -; refused 15 BadTag; session 0; refused 1 BadCommand
host * < gravity = [0, -10, 0]; [[particle]]; at = [0, 1000, 0]; %%; [[particle]]; at = [5, 0, 0]; velocity = [1, 0, 0]; %%%; 0 step 3; 0 frame; 2 frame; 0 fly => 11 session 0; ok; session 0; frame 3 1 0 0; 0 940 0; session -; refused 15 BadTag; session 0; refused 1 BadCommand
host * < %%; = 1; %%% => 7 error 7 SceneNotToml in 1
host * < %%; %%; bend = 1; %%; = 1; %%%; 0 frame => 8 error 8 SceneRefused 2 UnknownKey scene 0 - in 2
host * < %%; %%; %%; %%; %%; %%; %%; %%; %%; %%; %%; %%; %%; %%; %%; %%; %%% => 15 error 15 TooManyScenes
host * < = 1; %%; %%; %%; %%; %%; %%; %%; %%; %%; %%; %%; %%; %%; %%; %%; %%; %%% => 15 error 15 TooManyScenes
host * < %%; %%; %%; %%; %%; %%; %%; %%; %%; %%; %%; %%; %%; %%; %%; %%%; 15 frame; 16 frame => 11 session 15; frame 0 0 0 0; session -; refused 15 BadTag
host * < %%% => 0
host * < %%; 0 frame => 5 error 5 NoScript
host * < passes = 2\r; %%\r; %%%\r; 000000000000000001 frame\r; # 7 frame; 0000000000000000001 frame; %%; 0\r\r; 0 => 11 session 1; frame 0 0 0 0; session -; refused 15 BadTag; session -; refused 15 BadTag; session -; refused 15 BadTag; session 0; refused 1 BadCommand
host * < %%%; 0 gravity 1 2 3; \t 0\tledger\r\r; ; \r; -0 frame => 11 session 0; ok; session 0; ledger momentum 0 0 0; ledger opening 0 0 0; ledger gravity 0 0 0; ledger damping 0 0 0; ledger link 0 0 0; ledger contact 0 0 0; ledger pin 0 0 0; ledger shape 0 0 0; session -; refused 15 BadTag";

/// Scripts that go back to their marks.
const MARKS: &str =
    "marks * < gravity = [0, -10, 0]; [[particle]]; at = [0, 1000, 0]; %%; step 3; mark 2; step 2; frame; rewind 2; frame; rewind 1; mark 8 => 11 ok; ok; ok; frame 5 1 0 0; 0 850 0; ok; frame 3 1 0 0; 0 940 0; refused 14 MarkEmpty; refused 13 BadMark
marks * < passes = 1; [[particle]]; at = [0, 0, 0]; [[particle]]; at = [100, 0, 0]; [[particle]]; at = [0, 1000, 0]; [[particle]]; at = [101, 1000, 0]; [[particle]]; at = [0, 2000, 0]; [[particle]]; at = [102, 2000, 0]; [[link]]; a = 0; b = 1; tear = 100; [[link]]; a = 2; b = 3; tear = 100; [[link]]; a = 4; b = 5; tear = 100; %%; mark 0; cut 0; frame; rewind 0; cut 0 => 0 ok; ok; frame 0 6 2 0; 0 0 0; 100 0 0; 0 1000 0; 101 1000 0; 0 2000 0; 102 2000 0; ok; ok
marks * < passes = 1; [[particle]]; at = [0, 0, 0]; [[particle]]; at = [100, 0, 0]; [[particle]]; at = [0, 1000, 0]; [[particle]]; at = [101, 1000, 0]; [[link]]; a = 0; b = 1; tear = 100; [[link]]; a = 2; b = 3; tear = 100; %%; mark 1; step 1; frame; rewind 1; frame; step 1; cut 1; cut 0; rewind 1; cut 1 => 11 ok; ok; frame 1 4 1 0; 0 0 0; 100 0 0; 0 1000 0; 101 1000 0; ok; frame 0 4 2 0; 0 0 0; 100 0 0; 0 1000 0; 101 1000 0; ok; refused 4 LinkGone; ok; ok; ok
marks * < gravity = [0, -10, 0]; [[particle]]; at = [0, 1000, 0]; %%; mark 0; pin 0; gravity 0 -1 0; step 1; frame; mark 7; rewind 0; step 3; frame; ledger; unpin 0; rewind 7; unpin 0; step 1; frame => 11 ok; ok; ok; ok; frame 1 1 0 0; 0 1000 0; ok; ok; ok; frame 3 1 0 0; 0 940 0; ledger momentum 0 -30 0; ledger opening 0 0 0; ledger gravity 0 -30 0; ledger damping 0 0 0; ledger link 0 0 0; ledger contact 0 0 0; ledger pin 0 0 0; ledger shape 0 0 0; refused 6 NotHeld; ok; ok; ok; frame 2 1 0 0; 0 999 0
marks * < [[particle]]; at = [536870906, 0, 0]; velocity = [1, 0, 0]; %%; step 2; mark 3; step 10; rewind 3; frame; step 5; rewind 3; step 4; frame => 11 ok; ok; refused 11 LeavesRange step 7 phase predict element 0; ok; frame 2 1 0 0; 536870908 0 0; refused 11 LeavesRange step 7 phase predict element 0; ok; ok; frame 6 1 0 0; 536870912 0 0
marks * < %%; rewind 7; mark 8; rewind 8; mark; mark 7 7; rewind x; # mark 7; rewind 7; mark 7; rewind 007 => 11 refused 14 MarkEmpty; refused 13 BadMark; refused 13 BadMark; refused 1 BadCommand; refused 1 BadCommand; refused 1 BadCommand; refused 14 MarkEmpty; ok; ok
marks * < %% => 0";

/// Words that are no form, and inputs that are refused whole.
const STOPS: &str = "simulate 1 <  => 5 error 5 NoScript
simulate 1 < [[particle]]; %%% => 5 error 5 NoScript
simulate 1 < = 1; %% => 7 error 7 SceneNotToml
simulate 1 < colour = 1; %% => 8 error 8 SceneRefused 2 UnknownKey scene 0 -
simulate 1 < gravity = 1; %%; pin 0 => 8 error 8 SceneRefused 4 WrongType scene 0 gravity
simulate 1 < gravity = [0, 536870913, 0]; %% => 8 error 8 SceneRefused 5 OutOfRange scene 0 gravity
simulate 1 < [[particle]]; at = [0, 0, 0]; [[particle]]; %% => 8 error 8 SceneRefused 3 MissingKey particle 1 at
simulate 1 < [[particle]]; at = [0, 0, 0]; weight = 0; %% => 8 error 8 SceneRefused 5 OutOfRange particle 0 weight
simulate 1 < [[particle]]; at = [0, 0, 0]; held = 1; %% => 8 error 8 SceneRefused 4 WrongType particle 0 held
simulate 1 < passes = 1.0; %% => 8 error 8 SceneRefused 4 WrongType scene 0 passes
simulate 1 < pins = [3]; %% => 8 error 8 SceneRefused 7 BadIndex scene 0 pins
simulate 1 < friction = 257; %% => 8 error 8 SceneRefused 5 OutOfRange scene 0 friction
simulate 1 < [[particle]]; at = [0, 0, 0]; [[cloth]]; origin = [0, 0, 0]; across = [0, 0, 0]; down = [0, 0, 0]; rows = 256; columns = 256; %% => 8 error 8 SceneRefused 6 TooMany cloth 0 -
record 2 <  => 5 error 5 NoScript
record 4 < = 1; %% => 7 error 7 SceneNotToml
record 8 < gravity = [0, 536870913, 0]; %% => 8 error 8 SceneRefused 5 OutOfRange scene 0 gravity
marks 4 <  => 5 error 5 NoScript
host 8 <  => 5 error 5 NoScript
scramble 18446744073709551615 <  => 5 error 5 NoScript
marks 16 < colour = 1; %%; mark 1 => 8 error 8 SceneRefused 2 UnknownKey scene 0 -
marks 3 <  => 1 error 1 Usage
simulate 3 <  => 1 error 1 Usage
simulate 01 <  => 1 error 1 Usage
simulate 1 1 <  => 1 error 1 Usage
Simulate 1 <  => 1 error 1 Usage
--help <  => 1 error 1 Usage
scramble 18446744073709551616 <  => 1 error 1 Usage
scramble 000000000000000000001 <  => 1 error 1 Usage
scramble +1 <  => 1 error 1 Usage
large 1 7 129 <  => 1 error 1 Usage
large 1 7 1 <  => 1 error 1 Usage
large 1 7 0002 <  => 1 error 1 Usage";

/// Meshes, scenes and scripts, and frames as meshes again.
const MESHES: &str =
    "obj * < v 0 0 0; v 1 0 0; v 1 1 0; v 0 1 0; f 1 2/7 -2//3 4; %%; %%; step 1; frame => 0 # ok; # frame 1 4 6 0; v 0 0 0; v 1 0 0; v 1 1 0; v 0 1 0; f 1 2 3 4
obj * < v 0.1 0 0; v 1e-1 0 0; v 0.00000762939453125 0 0; v -0.00000762939453125 0 0; %%; %%; frame => 0 # frame 0 4 0 0; v 0.100006103515625 0 0; v 0.100006103515625 0 0; v 0.0000152587890625 0 0; v -0.0000152587890625 0 0
obj * < v 0 0 1; v 1 0 1; v 0 1 1; f 1 2 3; %%; [[particle]]; at = [0, 0, 0]; [[particle]]; at = [65536, 0, 0]; held = true; [[link]]; a = 0; b = 1; rest = 65536; %%; frame; pin 5; cut 0; cut 4; ledger; frame => 11 # frame 0 5 4 0; v 0 0 0; v 1 0 0; v 0 0 1; v 1 0 1; v 0 1 1; f 3 4 5; # refused 2 NoParticle; # ok; # refused 3 NoLink; # ledger momentum 0 0 0; # ledger opening 0 0 0; # ledger gravity 0 0 0; # ledger damping 0 0 0; # ledger link 0 0 0; # ledger contact 0 0 0; # ledger pin 0 0 0; # ledger shape 0 0 0; # frame 0 5 3 0; v 0 0 0; v 1 0 0; v 0 0 1; v 1 0 1; v 0 1 1; f 3 4 5
obj * < # a comment; o square; v 0 0 0; v 1 0 0; v 1 1 0; vn 0 0 1; vt 0 0; s off; f 1//1 2//1 3//1; %%; gravity = [0, -65536, 0]; %%; step 1; frame => 0 # ok; # frame 1 3 3 0; v 0 -1 0; v 1 -1 0; v 1 0 0; f 1 2 3
obj * < %%; %% => 0";

/// Meshes with a fault beside scenes with and without one, and meshes that a scene has no room for.
const REFUSED: &str = "obj 2 <  => 5 error 5 NoScript
obj 2 < v 1 2; %% => 5 error 5 NoScript
obj 2 < v 1 2; %%; = 1; %% => 7 error 7 SceneNotToml
obj 2 < v 1 2; %%; colour = 1; %% => 8 error 8 SceneRefused 2 UnknownKey scene 0 -
obj 2 < v 1 2; %%; %% => 14 error 14 ObjRefused 1 BadNumber at 1
obj 2 < f 1 2 3; %%; %% => 14 error 14 ObjRefused 2 BadFace at 1
obj 2 < v 8193 0 0; %%; %% => 14 error 14 ObjRefused 3 OutOfRange at 1
obj 2 < v 0 0 0; ; # three; v 0 0 x; %%; %%; frame => 14 error 14 ObjRefused 1 BadNumber at 4
obj 2 < v 0 0 0; %%; [[cloth]]; origin = [0, 0, 0]; across = [0, 0, 0]; down = [0, 0, 0]; rows = 256; columns = 256; %% => 14 error 14 ObjRefused 4 TooMany at 0
obj 2 < v 0 0 0; v 0 0 0; v 0 0 0; v 0 0 0; v 0 0 0; v 0 0 0; v 0 0 0; v 0 0 0; v 0 0 0; v 0 0 0; v 0 0 0; v 0 0 0; v 0 0 0; v 0 0 0; v 0 0 0; v 0 0 0; v 0 0 0; v 0 0 0; v 0 0 0; v 0 0 0; v 0 0 0; v 0 0 0; v 0 0 0; v 0 0 0; v 0 0 0; v 0 0 0; v 0 0 0; v 0 0 0; v 0 0 0; v 0 0 0; v 0 0 0; v 0 0 0; v 0 0 0; v 0 0 0; v 0 0 0; f 1 2 3; f 1 4 5; f 1 6 7; f 1 8 9; f 1 10 11; f 1 12 13; f 1 14 15; f 1 16 17; f 1 18 19; f 1 20 21; f 1 22 23; f 1 24 25; f 1 26 27; f 1 28 29; f 1 30 31; f 1 32 33; f 1 34 35; %%; [[particle]]; at = [0, 0, 0]; %% => 14 error 14 ObjRefused 5 TooManyAtParticle at 1";

static TABLES: [&str; 8] = [
    RUNS,
    STEP_LIMIT,
    STEP_LIMIT_OF_A_MARK,
    HOSTS,
    MARKS,
    MESHES,
    REFUSED,
    STOPS,
];

/// How many runs of some rows are wrong.
fn wrong_rows(rt: &HostRuntime, rows: &str) -> u32 {
    let mut wrong = 0u32;
    for row in rows.split('\n') {
        wrong = wrong.saturating_add(wrong_in(rt, row));
    }
    wrong
}

/// The same of some tables.
fn wrong_tables(rt: &HostRuntime, tables: &[&str]) -> u32 {
    let mut wrong = 0u32;
    for rows in tables {
        wrong = wrong.saturating_add(wrong_rows(rt, *rows));
    }
    wrong
}

#[test]
fn runs_end_and_write_as_their_rows_say(rt: HostRuntime) -> Result<(), WrongRows> {
    all_hold(wrong_tables(&rt, &TABLES))
}
