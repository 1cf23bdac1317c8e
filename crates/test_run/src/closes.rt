//! A queue that is full is closed once its worker took a batch.

use crate::fixtures::{Open, Shut, config_of, entry_of, queue};
use acc_base::{DeviceId, Fault};
use acc_place::Clause;
use acc_run::Runtime;
use std::alloc::Global;
use std::sync::Wait;
use std::test::Fail;
use tool_directives::counts_of;

// With room for this many batches a create is placed on queue `1`. The counts that closing gives: at first, once the queue's worker
// took a batch, which didn't pass, and in the end. Whether a directive is refused between, for which the token lists nothing.
fn closed<R: Wait>(rt: &R, alloc: Global, room: u32) -> Result<(u32, u32, bool), Fault> {
    let config = config_of(alloc, 1, 1, room)?;
    let (runtime, mut tokens) = Runtime::new(alloc, &config)?;
    let Some(mut token) = tokens.pop() else {
        return Err(Fault::Unfinished);
    };
    let create = entry_of(alloc, Clause::Create, 0, 1)?;
    let _ = runtime.place(rt, &mut token, &create)?;
    let first = runtime.close(rt);
    let late = runtime.place(rt, &mut token, &create);
    runtime.serve(rt, queue(3), &Shut);
    let second = runtime.close(rt);
    runtime.serve(rt, queue(3), &Open);
    runtime.wait_for(rt, &mut token, DeviceId::new(0), counts_of(&[(3, 2)]))?;
    let is_refused = matches!(late, Err(Fault::Closed)) && token.entries().len() == 2;
    Ok((first, second, is_refused))
}

#[test]
fn a_queue_with_room_is_closed_at_once(rt: HostRuntime) -> Result<(), Fail> {
    assert!(rt; closed(&rt, rt.alloc(), 64)? == (0, 0, true));
    Ok(())
}

#[test]
fn a_full_queue_is_closed_behind_a_take(rt: HostRuntime) -> Result<(), Fail> {
    assert!(rt; closed(&rt, rt.alloc(), 1)? == (1, 0, true));
    Ok(())
}
