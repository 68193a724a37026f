//! The plain solver, as its definitions say it: turn by turn over whole lists.
//!
//! `specs/` has the definitions. What the replies that were given say is one function of keys (`specs/Answers.antt`). A load reads its
//! keys one after another, up to the first that isn't given or the first list that is too long; it brings the nodes that it names first
//! and its facts, unless it passes a limit (`specs/Loading.antt`). Which node is next, and its choice, stands in `specs/Choosing.antt`:
//! the least trait whose owner is decided, else the least package, that a fact requires; and the pinned release if it is a choice, then
//! the others from the greatest down. With that as its rules, a turn is `pub_trail`'s, and `plain_after` (`specs/Plain.antt`) is what so
//! many turns from the opening come to.
//!
//! The layers above use [`Plain`], a solver of one job, and contracts see it as a `Solver` (`specs/Solver.antt`): its job and pins, what
//! the replies that were given say, its state, and how many turns it did. `turn` is the definition's turn over what is said so far
//! (`Turns`), `give` adds what a reply says (`IsGiven`), and `pins`, `derivation` and `choices_text` are functions of the state. So after
//! any turns and replies each answer is that of the definition.
//!
//! What that means is said by laws over the definitions: a turn needs only what isn't given ([`a_turn_needs_what_is_not_given`]), the
//! rules are right at each state that a run comes to ([`the_rules_are_right`], [`a_solver_opens_right`]), what is said of more keys
//! changes nothing that was done ([`more_answers_change_nothing`], [`runs_go_on`]), a refutation's derivation is checked by its own
//! facts ([`a_refutation_is_checked`]), which are those of loads, so that there is no valid selection ([`a_refutation_means_none`]), pins
//! ascend ([`pins_ascend`]), and a number falls at each turn and each reply that a turn needs, so a resolution ends ([`resolutions_end`]).
//! A selection is the first valid one ([`a_selection_is_first`], over lists that ascend, as those of replies do: [`said_lists_ascend`]), so
//! what is resolved again keeps its pins ([`resolving_again_keeps_the_pins`]).
//!
//! How the code goes: what was said is kept as `Told`, the state as `Lists`, oldest first (`specs/Kept.antt`), and what is left of each
//! node is worked out once a turn. A load goes through its keys (`reading`), then names its nodes and makes its facts (`loading`); the
//! rest of a turn is `turning` and `next`, over the calls of `pub_trail`. A refutation is worked out again when its derivation is asked
//! for (`refuting`), its lines are written once each (`writing`), and its nodes are renumbered (`renaming`).
//!
//! How the proof goes: what a solver is at each moment is `IsSolver` (`specs/Invariant.antt`), of what is kept `IsTurning`
//! (`specs/Turning.antt`). A predicate of what a load comes to holds of each thing that is read, from the last to the first
//! (`proofs/StopLemmas`), and of a turn by its cases. A selection is the first one since its decisions are steps: each is on the least node
//! that those before it ask, and passes over nothing that is left (`proofs/Decisions`, `StepRuns`, `SkipRuns`); a rival that keeps the
//! decisions before is an assignment that violates no fact, so no choice that was passed over lies in it (`BestLemmas`,
//! `FirstSelection`). Worked runs compute (`proofs/Examples`): their counts of turns, what they pin, and
//! what they ask for first.
#![tactic(auto)]

mod giving;
mod laws;
mod lists;
mod loading;
mod next;
mod ordering;
mod pins;
mod plain;
mod preference;
mod reading;
mod refuting;
mod renaming;
mod texts;
mod told;
mod turning;
mod writing;

pub use laws::{
    a_refutation_is_checked, a_refutation_means_none, a_selection_is_first, a_solver_opens_right,
    a_turn_needs_what_is_not_given, more_answers_change_nothing, pins_ascend, resolutions_end,
    resolving_again_keeps_the_pins, runs_go_on, said_lists_ascend, the_rules_are_right,
};
pub use plain::Plain;
pub use preference::{pin_of, preferred};
