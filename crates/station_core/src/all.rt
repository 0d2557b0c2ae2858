//! The answer to a known key.

ghost use Rattle.std.specs.Prelude.{◌≡◌, ◌<◌, true, false, [], take, length, None, Some, Err, Option, IfErr, All};
ghost use Rattle.station_core.specs.Common.{LocalMinute};
ghost use Rattle.station_core.specs.declared.answer.Input.{Input as AnyInput};
ghost use Rattle.station_core.specs.declared.answer.ActFault.{ActFault};
ghost use Rattle.station_core.specs.Step.{State, after_all, answers_of, repeated_key};
ghost use Rattle.station_core.specs.Keeping.{Answers, FindsOnly, IfWorks, IsAfterAnswered, IsBrokenAfter, IsBrokenAtEnd, IsMemoryOrReopen, IsMemoryOrStore, KeepsSound, KeepsWorking, MayLeave, Reopens};

use crate::answer::{ActFault, AllAnswers, Answer, Input, Reply};
use crate::keeper::Keeper;
use shipment_machine::{Detail, Refusal};
use station_days::Moment;
use std::alloc::Global;

/// Passes one input to a keeper, and returns a refusal as an answer.
pub fn answer_one<K: Keeper>(
    keeper: &mut K,
    input: &Input<'_>,
    at: Moment,
) -> Result<Answer, ActFault>
    ensures premise { KeepsSound K.keeping keeper.old keeper.new }
    ensures works { KeepsWorking K.keeping keeper.old keeper.new result }
    ensures reopen { Reopens K.keeping keeper.old keeper.new result }
    ensures fault { K.keeping.is_broken keeper.old ≡ false → IfErr result IsMemoryOrStore }
    ensures breaks { K.keeping.is_broken keeper.old ≡ false → IfErr result
        (λ e. IsBrokenAfter e (K.keeping.is_broken keeper.new)) }
    ensures answers { IfWorks K.keeping keeper.old keeper.new
        (λ s. Answers s input.now at result (K.keeping.keeps keeper.new)) }
    ensures leaves { IfWorks K.keeping keeper.old keeper.new
        (λ s. FindsOnly K.keeping keeper.new (MayLeave s input.now at result)) }
{
    match keeper.act(input, at) {
        Ok(reply) => Ok(Answer::Done(reply)),
        Err(ActFault::Refused(refusal)) => Ok(Answer::Refused(refusal)),
        Err(ActFault::Memory) => Err(ActFault::Memory),
        Err(ActFault::Store) => Err(ActFault::Store),
        Err(ActFault::Reopen) => Err(ActFault::Reopen),
    }
}

/// Passes inputs to a keeper in order, each at its moment, up to the first fault other than a
/// refusal. It makes room for each answer before it acts.
pub fn act_all<K: Keeper>(
    alloc: Global,
    keeper: &mut K,
    inputs: &[(Input<'_>, Moment)],
) -> AllAnswers
    ensures answers { IfWorks K.keeping keeper.old keeper.new (λ s. result.answers.items
        ≡ answers_of s (take (length result.answers.items) inputs.now)) }
    ensures all { result.fault ≡ None → length result.answers.items ≡ length inputs.now }
    ensures state { IfWorks K.keeping keeper.old keeper.new (λ s.
        (result.fault ≡ Some ActFault.Store → ⊥) → K.keeping.keeps keeper.new
        (after_all s (take (length result.answers.items) inputs.now))) }
    // After a fault, at least one input isn't answered.
    ensures part { (e : ActFault) → result.fault ≡ Some e
        → length result.answers.items < length inputs.now }
    ensures fault { K.keeping.is_broken keeper.old ≡ false → (e : ActFault) → result.fault ≡ Some e
        → IsMemoryOrStore e }
    ensures breaks { K.keeping.is_broken keeper.old ≡ false → IsBrokenAtEnd result.fault
        (K.keeping.is_broken keeper.new) }
    ensures reopen { K.keeping.is_broken keeper.old ≡ true → (result.answers.items ≡ [])
        × (keeper.new ≡ keeper.old) }
    ensures reopen_fault { K.keeping.is_broken keeper.old ≡ true → (e : ActFault) → result.fault
        ≡ Some e → IsMemoryOrReopen e }
    ensures premise { KeepsSound K.keeping keeper.old keeper.new }

    // Reopening finds the state after the answered inputs or, if `Store` ended them, perhaps after
    // one more.
    ensures leaves { IfWorks K.keeping keeper.old keeper.new (λ s. FindsOnly K.keeping keeper.new
        (IsAfterAnswered s inputs.now (length result.answers.items) result.fault)) }
{
    let mut answers = Vec::new(alloc);
    for input in inputs {
        if answers.try_reserve(1).is_err() {
            return AllAnswers {
                answers,
                fault: Some(ActFault::Memory),
            };
        }
        let answer = match answer_one(keeper, &input.0, input.1) {
            Ok(answer) => answer,
            Err(fault) => {
                return AllAnswers {
                    answers,
                    fault: Some(fault),
                };
            }
        };
        let Ok(()) = answers.push(answer) else {
            unreachable!();
        };
    }
    AllAnswers {
        answers,
        fault: None,
    }
}

/// Returns the answer to a request under a known key: the stored count if the request is the stored
/// one, otherwise 501.
pub fn repeated_key(kept: &str, count: u32, request: &str) -> Answer
    ensures { result ≡ repeated_key (record { request = kept.now; count = count }) request.now }
{
    if kept == request {
        Answer::Done(Reply { count })
    } else {
        Answer::Refused(Refusal {
            number: 501,
            detail: Detail::Nothing,
        })
    }
}
