#![tactic(auto)]

// Lists of calls through C: each is a list of demand 3, on the engine whose words they are. Definitions and theorems. Each claim is the contract of a function that does nothing.

ghost use Rattle.terrain_lists.specs.Claims as Claims;
ghost use Rattle.terrain_lists.specs.Hosts as Hosts;

// Every call of an engine's list leaves an engine within its types, and bytes in the arena.
pub fn typed_kept()
    ensures { Claims.TypedKept }
{}

// So does every list from a fresh engine: before each call, and after the last.
pub fn typed_always()
    ensures { Claims.TypedAlways }
{}

// Every list of calls through C is a list of calls of the engine, with no premise but that arguments, arena and horizon are of their C types.
pub fn words_list()
    ensures { Claims.WordsList }
{}

// And from any words that are accepted, whoever wrote them, the calls are those of the engine that is read from them.
pub fn words_from()
    ensures { Claims.WordsFrom }
{}

// The words that `terrain_matcher_reset` writes are a matcher's, and those that `update` leaves of a matcher's are again.
pub fn matcher_again()
    ensures { Claims.MatcherWords }
{}

// What crate direct claims of lists holds of the lists that lists of calls through C are.
pub fn host_claims()
    ensures { Hosts.HostClaims }
{}

// A refused call of a part leaves the engine's words, the arena and a matcher's words as they were.
pub fn refused_parts()
    ensures { Hosts.PartsKeep }
{}
