//! What is wrong with programs before they run.
ghost use Rattle.std.specs.Prelude.{◌≡◌, ◌↔◌, ◌<◌, MatchOption, IsTrue, not};
ghost use Rattle.kc_types.specs.Actors.{actor as actor_made};
ghost use Rattle.kc_types.specs.Limits.{call_limit};
ghost use Rattle.kc_model.specs.Histories.{same_actor};
ghost use Rattle.kc_live.specs.Program.{NoneIs, actors_of};
ghost use Rattle.kc_live.specs.Plans.{IsActor, HaveActors, MayJoin, IsFirstBad, stranger_from, stranger_in, count_of};

use crate::program::Program;
use kc_types::{Actor, CALL_LIMIT, Call, Config, actor_of};

/// Whether none of the programs has this actor.
fn is_free(programs: &[Program], actor: Actor) -> bool
    ensures { IsTrue result ↔ NoneIs actor (actors_of programs.now) }
{
    for program in programs {
        if program.actor() == actor {
            return false;
        }
    }
    true
}

/// Whether the actor is the host, or names a slot and a virtual processor that there can be.
pub fn is_actor(config: &Config, actor: Actor) -> bool
    ensures { IsTrue result ↔ IsActor config.now actor }
{
    match actor {
        Actor::Host => true,
        Actor::Vcpu(vm, vcpu) => config.vm(vm).is_some() && config.vcpu(vcpu).is_some(),
    }
}

/// Whether the program may come after these.
fn may_join(config: &Config, earlier: &[Program], program: &Program) -> bool
    ensures { IsTrue result ↔ MayJoin config.now earlier.now program.now }
{
    is_free(earlier, program.actor()) && is_actor(config, program.actor())
}

/// Finds the first program whose actor an earlier program has, or the core does not have.
pub fn first_bad(config: &Config, programs: &[Program]) -> Option<usize>
    ensures { MatchOption result (HaveActors config.now programs.now) (IsFirstBad config.now programs.now) }
{
    for i in 0..programs.len() {
        if !may_join(config, &programs[..i], &programs[i]) {
            return Some(i);
        }
    }
    None
}

/// Whether the call is another actor's.
fn is_strange(actor: Actor, call: &Call) -> bool
    ensures { result ≡ not (same_actor actor (actor_made call.now)) }
{
    match (actor, actor_of(call)) {
        (Actor::Host, Actor::Host) => false,
        (Actor::Vcpu(vm, vcpu), Actor::Vcpu(other_vm, other_vcpu)) => {
            vm != other_vm || vcpu != other_vcpu
        },
        _ => true,
    }
}

/// Finds the first call of a program that is another actor's.
fn first_strange(program: &Program) -> Option<usize>
    ensures { result ≡ stranger_in program.now }
{
    let actor = program.actor();
    program
        .calls()
        .iter()
        .position(|call| is_strange(actor, call))
}

/// Finds the first program with a call of another actor, and its first such call.
pub fn first_stranger(programs: &[Program]) -> Option<(usize, usize)>
    ensures { result ≡ stranger_from 0 programs.now }
{
    for i in 0..programs.len() {
        if let Some(call) = first_strange(&programs[i]) {
            return Some((i, call));
        }
    }
    None
}

/// Whether the programs have more calls than a history holds.
pub fn has_too_many(programs: &[Program]) -> bool
    ensures { IsTrue result ↔ (call_limit < count_of programs.now) }
{
    let mut count = 0usize;
    for program in programs {
        let more = program.calls().len();
        if more > CALL_LIMIT - count {
            return true;
        }
        count += more;
    }
    false
}
