//! The moves of an order, made on a run.

ghost use Rattle.std.specs.Prelude.{◌≡◌, ◌<◌, ◌≤◌, true, length, IfOk, IfSome};
ghost use Rattle.std.specs.List.{list_all};
ghost use Rattle.inf_base.specs.declared.limits.TheConstants.{MOST_CLIENTS};
ghost use Rattle.inf_core.specs.Core.{IsSameRun, world_in};
ghost use Rattle.inf_order.specs.Order.{is_client_of, is_move_of};
ghost use Rattle.inf_sched.specs.declared.limits.TheConstants.{MOST_EVENTS};
ghost use Rattle.inf_sched.specs.Moves.{ByAlone, ByCall, ByCalls, ByMove, ByRest, ByServe, ByStep, ServesOldest};
ghost use Rattle.inf_sched.specs.Order.{ByMoves};
ghost use Rattle.inf_sched.specs.Run.{HasAdvanced, HasCalled, scene_of};
ghost use Rattle.inf_sched.specs.Scene.{calls_left};
ghost use Rattle.inf_sched.specs.Waiting.{IsWaiting, is_for, oldest};

use crate::limits::MOST_EVENTS;
use crate::posting::Posting;
use crate::run::Run;
use inf_base::NoMemory;
use inf_birth::IdRule;
use inf_order::Move;

fn step<R: IdRule>(run: Run<R>, client: u32) -> Result<Run<R>, NoMemory>
    requires there { client < length run.core.setup.clients }
    ensures step { IfOk result (λ after. ByStep (world_in R.digest_of run.core) client
        (scene_of run) (scene_of after)) }
    ensures same { IfOk result (λ after. IsSameRun run.core after.core) }
{
    let (after, _) = run.step(client)?;
    Ok(after)
}

fn serve_found<R: IdRule>(run: Run<R>, found: Option<Posting>) -> Result<Run<R>, NoMemory>
    requires waits { IfSome found (λ p. IsWaiting run.core.history p) }
    ensures serve { IfOk result (λ after. ServesOldest (world_in R.digest_of run.core) found
        (scene_of run) (scene_of after)) }
    ensures same { IfOk result (λ after. IsSameRun run.core after.core) }
{
    match found {
        None => Ok(run),
        Some(posting) => run.serve(posting),
    }
}

fn oldest_for<R: IdRule>(run: &mut Run<R>, number: u32, client: Option<u32>) -> Option<Posting>
    requires server { number ≤ run.old.core.setup.servers }
    requires client { is_client_of (length run.old.core.setup.clients) client ≡ true }
    ensures oldest { result ≡ oldest (is_for number client) run.old.core.history }
    ensures waits { IfSome result (λ p. IsWaiting run.old.core.history p) }
    ensures unchanged { run.new ≡ run.old }
{
    match client {
        None => run.oldest_to(number),
        Some(client) => run.oldest_of(number, client),
    }
}

fn serve<R: IdRule>(run: Run<R>, number: u32, client: Option<u32>) -> Result<Run<R>, NoMemory>
    requires server { number ≤ run.core.setup.servers }
    requires client { is_client_of (length run.core.setup.clients) client ≡ true }
    ensures serve { IfOk result (λ after. ByServe (world_in R.digest_of run.core) number client
        (scene_of run) (scene_of after)) }
    ensures same { IfOk result (λ after. IsSameRun run.core after.core) }
{
    let mut run = run;
    let found = oldest_for(&mut run, number, client);
    serve_found(run, found)
}

/// The client makes its next ask; where it has none, its oldest waiting Ask is served. Whether there was anything to
/// do.
fn advance<R: IdRule>(run: Run<R>, client: u32) -> Result<(Run<R>, bool), NoMemory>
    requires there { client < length run.core.setup.clients }
    ensures advance { IfOk result (λ r. HasAdvanced r.1 (world_in R.digest_of run.core) client
        (scene_of run) (scene_of r.0)) }
    ensures same { IfOk result (λ r. IsSameRun run.core r.0.core) }
{
    let (mut run, has_asked) = run.step(client)?;
    if has_asked {
        return Ok((run, true));
    }
    match run.oldest_by(client) {
        None => Ok((run, false)),
        Some(posting) => Ok((run.serve(posting)?, true)),
    }
}

/// The client goes on alone until its call of this number has ended.
fn alone<R: IdRule>(run: Run<R>, client: u32, number: u32) -> Result<Run<R>, NoMemory>
    requires there { client < length run.core.setup.clients }
    ensures alone { IfOk result (λ after. ByAlone (world_in R.digest_of run.core) client number MOST_EVENTS
        (scene_of run) (scene_of after)) }
    ensures same { IfOk result (λ after. IsSameRun run.core after.core) }
{
    let mut now = run;
    for _ in 0..MOST_EVENTS {
        if now.has_ended(client, number) {
            return Ok(now);
        }
        let (after, has_advanced) = advance(now, client)?;
        now = after;
        if !has_advanced {
            return Ok(now);
        }
    }
    Ok(now)
}

fn call<R: IdRule>(run: Run<R>, client: u32) -> Result<Run<R>, NoMemory>
    requires there { client < length run.core.setup.clients }
    ensures call { IfOk result (λ after. ByCall (world_in R.digest_of run.core) client
        (scene_of run) (scene_of after)) }
    ensures same { IfOk result (λ after. IsSameRun run.core after.core) }
{
    if run.is_gone(client) {
        return Ok(run);
    }
    let number = run.number(client);
    alone(run, client, number)
}

/// The client goes on alone once more, if it has a call left. Whether that call ended.
fn next_call<R: IdRule>(run: Run<R>, client: u32) -> Result<(Run<R>, bool), NoMemory>
    requires there { client < length run.core.setup.clients }
    ensures next { IfOk result (λ r. HasCalled r.1 (world_in R.digest_of run.core) client
        (scene_of run) (scene_of r.0)) }
    ensures same { IfOk result (λ r. IsSameRun run.core r.0.core) }
{
    if run.is_gone(client) {
        return Ok((run, false));
    }
    if run.calls_left(client) == 0 {
        return Ok((run, false));
    }
    let number = run.number(client);
    let after = alone(run, client, number)?;
    let has_ended = after.has_ended(client, number);
    Ok((after, has_ended))
}

/// The client goes on alone call by call.
fn calls<R: IdRule>(run: Run<R>, client: u32) -> Result<Run<R>, NoMemory>
    requires there { client < length run.core.setup.clients }
    ensures calls { IfOk result (λ after. ByCalls (world_in R.digest_of run.core) client
        (calls_left (world_in R.digest_of run.core) (scene_of run) client)
        (scene_of run) (scene_of after)) }
    ensures same { IfOk result (λ after. IsSameRun run.core after.core) }
{
    if run.is_gone(client) {
        return Ok(run);
    }
    let most = run.calls_left(client);
    let mut now = run;
    for _ in 0..most {
        let (after, has_ended) = next_call(now, client)?;
        now = after;
        if !has_ended {
            return Ok(now);
        }
    }
    Ok(now)
}

/// Each client in turn goes on alone as far as its calls end.
fn rest<R: IdRule>(run: Run<R>) -> Result<Run<R>, NoMemory>
    requires few_clients { length run.core.setup.clients ≤ MOST_CLIENTS }
    ensures rest { IfOk result (λ after. ByRest (world_in R.digest_of run.core) 0 (length run.core.setup.clients)
        (scene_of run) (scene_of after)) }
    ensures same { IfOk result (λ after. IsSameRun run.core after.core) }
{
    let many = run.client_count();
    let mut now = run;
    for client in 0..many {
        if !now.has_calls(client) {
            continue;
        }
        now = calls(now, client)?;
    }
    Ok(now)
}

fn one<R: IdRule>(run: Run<R>, next: Move) -> Result<Run<R>, NoMemory>
    requires few_clients { length run.core.setup.clients ≤ MOST_CLIENTS }
    requires named { is_move_of run.core.setup.servers (length run.core.setup.clients) next ≡ true }
    ensures made { IfOk result (λ after. ByMove (world_in R.digest_of run.core) next
        (scene_of run) (scene_of after)) }
    ensures same { IfOk result (λ after. IsSameRun run.core after.core) }
{
    match next {
        Move::Step(client) => step(run, client),
        Move::Alone(client) => call(run, client),
        Move::Serve { number, client } => serve(run, number, client),
        Move::Rest => rest(run),
    }
}

/// Makes the moves of an order one after another.
pub fn all<R: IdRule>(run: Run<R>, order: &[Move]) -> Result<Run<R>, NoMemory>
    requires few_clients { length run.core.setup.clients ≤ MOST_CLIENTS }
    requires named { list_all (is_move_of run.core.setup.servers (length run.core.setup.clients)) order.now ≡ true }
    ensures moves { IfOk result (λ after. ByMoves (world_in R.digest_of run.core) order.now
        (scene_of run) (scene_of after)) }
    ensures same { IfOk result (λ after. IsSameRun run.core after.core) }
{
    let mut now = run;
    for index in 0..order.len() {
        let next = order[index];
        now = one(now, next)?;
    }
    Ok(now)
}
