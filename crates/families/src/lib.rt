// The theory of chains, families and least totals. Each function carries one theorem as its contract, so that its proof is asked for.
#![tactic(auto)]

ghost use Rattle.families.specs.Theorems.{PinsOnChain, PinsOnFamily};
ghost use Rattle.families.specs.Theorems.{Recurrence, NothingSmaller, FirstLeastStands, NextIsFirst};
ghost use Rattle.families.specs.Theorems.{TighterIsNoCheaper, MorePinsNoCheaper, LowerNoCheaper};
ghost use Rattle.families.specs.Theorems.{FirstLeastReads, StaysSayAll, StaysAreLeast};

// A chain has every pin exactly when none of its links skips one.
pub fn pins_on_chain()
    ensures { PinsOnChain }
{}

// The families under pins are the families each of whose chains has every pin.
pub fn pins_on_family()
    ensures { PinsOnFamily }
{}

// The least total is neutral without levels and from a vertex to itself, and is else the cheapest over an allowed first link.
pub fn recurrence<P>()
    ensures { Recurrence P }
{}

// No family costs less than the least total.
pub fn nothing_smaller<P>()
    ensures { NothingSmaller P }
{}

// The first least family is a family, and it costs the least total.
pub fn first_least_stands<P>()
    ensures { FirstLeastStands P }
{}

// The next vertex is the smallest that an allowed link reaches and over which the least total is paid.
pub fn next_is_first<P>()
    ensures { NextIsFirst P }
{}

// Where less is allowed, the least total is no cheaper.
pub fn tighter_is_no_cheaper<P>()
    ensures { TighterIsNoCheaper P }
{}

// With more pins the least total is no cheaper.
pub fn more_pins_no_cheaper<P>()
    ensures { MorePinsNoCheaper P }
{}

// With lower tolerances the least total is no cheaper.
pub fn lower_no_cheaper<P>()
    ensures { LowerNoCheaper P }
{}

// The first least family goes to the next vertex and on from there, and each finer level fills that link in.
pub fn first_least_reads<P>()
    ensures { FirstLeastReads P }
{}

// The stays of a family say all of it: each of its chains is read off them.
pub fn stays_say_all()
    ensures { StaysSayAll }
{}

// What is read off the stays of the first least family is a family, and it costs the least total.
pub fn stays_are_least<P>()
    ensures { StaysAreLeast P }
{}
