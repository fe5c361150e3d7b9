#![tactic(auto)]

// Demand 3: the direct engine, which looks every tile up in the pack, and the theorem over every list of calls. Definitions and theorems. Each claim is the contract of a function that does nothing.

ghost use Rattle.direct.specs.Claims as Claims;
ghost use Rattle.direct.specs.Cores as Cores;
ghost use Rattle.direct.specs.Last as Last;
ghost use Rattle.direct.specs.Published as Published;
ghost use Rattle.direct.specs.Settled as Settled;
ghost use Rattle.direct.specs.Story as Story;

// With no premise, after every list: runs lie apart, what is handed out passes, one read at most, no byte but a load's is written.
pub fn all_safe()
    ensures { Claims.AllSafe }
{}

// After every list the unfinished load is no longer than a tile may be.
pub fn all_short()
    ensures { Claims.AllShort }
{}

// What the direct engine shows of each call is what the call finished. It is so whatever a lookup without an answer is taken to give: so no
// finished match or road rests on one.
pub fn all_same()
    ensures { Claims.AllSame }
{}

// The same of the direct engine itself, which looks every tile up in the pack.
pub fn all_direct()
    ensures { Claims.AllDirect }
{}

// With an arena as long as its pages no call is refused with 12, but for a matcher that the caller gives; a road inside a step ends neither by 6 nor by 10.
pub fn all_open()
    ensures { Claims.AllOpen }
{}

// Each public core that takes the cache's state does and answers what its public call does.
pub fn all_cores()
    ensures { Cores.AllCores }
{}

// With no premise, after any list: where no road is due, a step that finds its fix off the map leaves the matcher as it was or clears it, by whether it
// has a match, and whatever stands published.
pub fn all_cleared()
    ensures { Settled.AllCleared }
{}

// As long as no empty Memory answer was published the direct engine's last match is the published one.
pub fn all_last()
    ensures { Last.AllLast }
{}

// A call leaves the published road as it was, or the one that it finished, or an empty one by `lost` or `reset`, or the empty Memory answer.
pub fn all_published()
    ensures { Published.AllPublished }
{}

// After any list of calls a host reads what the list finished.
pub fn all_read()
    ensures { Published.AllRead }
{}

// On the same premises it reads what the direct engine worked out.
pub fn all_read_direct()
    ensures { Published.AllReadDirect }
{}

// As `AllStories`, of lists that settle before each fix.
pub fn all_settled()
    ensures { Settled.AllSettled }
{}

// So a host that calls `step` until it rests before it gives a fix keeps to this: after a fair list that kept to it, a step that rests leaves the engine
// settled.
pub fn all_rested()
    ensures { Settled.AllRested }
{}

// Two lists over their own arenas, of the same page count and horizon and the same pack at first, with the same story: whatever a call finishes after
// the one, it finishes equally after the other, a direct call too. Which reads failed, what was evicted or dropped, and the direct calls before it may
// differ.
pub fn all_stories()
    ensures { Story.AllStories }
{}
