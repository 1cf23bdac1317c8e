//! Which questions of hosts take memory to record, and that there can be enough of it: the contract
//! lets any of them be refused.

ghost use Rattle.std.specs.Prelude.{◌<◌};
ghost use Rattle.acc_base.specs.declared.ids.TheConstants.{QUEUES};

use acc_base::{DeviceId, QUEUES, QueueCounts};
use acc_work::{Item, ItemLabel};
use std::test::Fail;
use tool_scarce::at_each_amount;

// A count of one queue, and none of the others.
fn counts_on(queue: u8, count: u64) -> QueueCounts
    requires { queue < QUEUES }
{
    let mut counts = [0; QUEUES as usize];
    counts[usize::from(queue)] = count;
    counts
}

/// One about one queue alone takes no memory, and one about two queues does.
#[test]
fn a_question_is_refused_until_there_is_memory(rt: HostRuntime) -> Result<(), Fail> {
    let alloc = rt.alloc();
    let device = DeviceId::new(1);
    let mut two = counts_on(0, 3);
    two[usize::from(QUEUES - 1)] = 3;
    let questions = [
        (counts_on(0, 3), false),
        (counts_on(QUEUES - 1, 3), false),
        (two, true),
    ];
    for (counts, takes_memory) in questions {
        let plain = ItemLabel::Test { device, counts };
        assert_eq!(rt; Item::test(alloc, device, counts)?.label(), plain);
        let (refusals, item) = at_each_amount(alloc, || Item::test(alloc, device, counts))?;
        assert_eq!(rt; 0 < refusals, takes_memory, "{refusals}");
        assert_eq!(rt; item.label(), plain);
    }
    Ok(())
}
