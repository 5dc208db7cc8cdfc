// What was seen of each instruction, as JSON.
use crate::texts::{text_if_any, text_of};
use node_views::{NodeView, changed_modules, changed_processes};
use rehearsal_report::{
    Extent, put_begin, put_install_refusal, put_jobs_run, put_module_change, put_outcome,
    put_process_change, put_reply, served_between,
};
use rehearsals::{Happening, Station, Way};
use serde_json::{Value, json};
use std::alloc::{AllocError, Global};

/// Returns what was seen on a way, if there is one.
pub(crate) fn way_if_gone(alloc: Global, way: &Option<Way>) -> Result<Value, AllocError> {
    match way {
        Some(way) => way_of(alloc, way),
        None => Ok(Value::Null),
    }
}

/// Returns what was seen on a way.
pub(crate) fn way_of(alloc: Global, way: &Way) -> Result<Value, AllocError> {
    let mut refusal = Vec::new(alloc);
    if let Some(why) = &way.refusal {
        put_install_refusal(why, alloc, &mut refusal)?;
    }
    let refusal = text_if_any(alloc, refusal.as_slice())?;
    let steps = steps_of(alloc, way)?;
    json!(in alloc; {"refusal": refusal, "steps": steps})
}

/// Returns what was seen of the instructions of a way, and last of its end.
fn steps_of(alloc: Global, way: &Way) -> Result<Value, AllocError> {
    let mut steps = Vec::new(alloc);
    for (index, station) in way.stations.iter().enumerate() {
        steps.push(step_of(alloc, way.before(index), station)?)?;
    }
    Ok(Value::Array(steps))
}

/// Returns what was seen of an instruction.
fn step_of(alloc: Global, before: &NodeView, station: &Station) -> Result<Value, AllocError> {
    let mut instruction = Vec::new(alloc);
    put_begin(station, alloc, &mut instruction)?;
    let mut outcome = Vec::new(alloc);
    put_outcome(&station.outcome, Extent::Short, alloc, &mut outcome)?;
    let instruction = text_of(alloc, instruction.as_slice())?;
    let outcome = text_of(alloc, outcome.as_slice())?;
    let changed = changes_of(alloc, before, &station.behind)?;
    let by_traffic = changes_of(alloc, &station.behind, &station.view)?;
    let replies = replies_of(alloc, station.happened.as_slice())?;
    let jobs = jobs_of(alloc, station)?;
    json!(in alloc; {
        "instruction": instruction,
        "outcome": outcome,
        "changed": changed,
        "changed_by_traffic": by_traffic,
        "served": (served_between(&station.behind, &station.view)),
        "replies": replies,
        "while_jobs_run": jobs,
        "undone_as_before": (station.is_as_before)
    })
}

/// Returns what has changed from one view to another: modules first, and then processes.
fn changes_of(alloc: Global, before: &NodeView, after: &NodeView) -> Result<Value, AllocError> {
    let mut changes = Vec::new(alloc);
    push_modules(alloc, before, after, &mut changes)?;
    push_processes(alloc, before, after, &mut changes)?;
    Ok(Value::Array(changes))
}

/// Appends which modules have changed.
fn push_modules(
    alloc: Global,
    before: &NodeView,
    after: &NodeView,
    changes: &mut Vec<Value>,
) -> Result<(), AllocError> {
    for name in changed_modules(alloc, before, after)? {
        let mut text = Vec::new(alloc);
        put_module_change(&name, after.module(&name), alloc, &mut text)?;
        changes.push(text_of(alloc, text.as_slice())?)?;
    }
    Ok(())
}

/// Appends which processes have changed.
fn push_processes(
    alloc: Global,
    before: &NodeView,
    after: &NodeView,
    changes: &mut Vec<Value>,
) -> Result<(), AllocError> {
    for pid in changed_processes(alloc, before, after)? {
        let mut text = Vec::new(alloc);
        put_process_change(before.process(pid), after.process(pid), alloc, &mut text)?;
        changes.push(text_of(alloc, text.as_slice())?)?;
    }
    Ok(())
}

/// Returns the replies that were sent.
fn replies_of(alloc: Global, happened: &[Happening]) -> Result<Value, AllocError> {
    let mut replies = Vec::new(alloc);
    for happening in happened {
        push_replies(alloc, happening, &mut replies)?;
    }
    Ok(Value::Array(replies))
}

/// Appends the replies that were sent with an event.
fn push_replies(
    alloc: Global,
    happening: &Happening,
    replies: &mut Vec<Value>,
) -> Result<(), AllocError> {
    for reply in happening.replies.as_slice() {
        let mut text = Vec::new(alloc);
        put_reply(reply, Extent::Short, alloc, &mut text)?;
        replies.push(text_of(alloc, text.as_slice())?)?;
    }
    Ok(())
}

/// Returns the trial of an instruction while jobs run, if there are any.
fn jobs_of(alloc: Global, station: &Station) -> Result<Value, AllocError> {
    let mut text = Vec::new(alloc);
    if let Some(run) = &station.jobs {
        put_jobs_run(run, &station.behind, Extent::Short, alloc, &mut text)?;
    }
    text_if_any(alloc, text.as_slice())
}
