// Sessions on the host with one latch, and on regions that are not their own.

use crate::models::Host;
use session::{Refusal, SessionFault, Settled, open};
use std::test::Fail;

// The session that a call gives back, which has to refuse with the fault.
fn refused<T: Drop, S: Drop>(res: Result<T, Refusal<S>>, fault: SessionFault) -> Result<S, Fail> {
    let Err(refusal) = res else {
        return Err(Fail::new("the call is not refused"));
    };
    if refusal.fault == fault {
        Ok(refusal.session)
    } else {
        Err(Fail::new("the call is refused for another reason"))
    }
}

// What a settle tells: the answer, and whether it replaces the wish.
fn told(settled: &Settled) -> (u32, bool) {
    (settled.answer, settled.replaced)
}

#[test]
fn a_wish_is_replaced_or_used(rt: HostRuntime) -> Result<(), Fail> {
    let host = Host::one_latch();
    let region = host.region();
    let settled = open(&region).raise(&region, 1)?.settle(&region, 0)?;
    assert_eq!(rt; told(&settled), (1, true));
    let settled = settled.session.raise(&region, 1)?.settle(&region, 1)?;
    assert_eq!(rt; told(&settled), (1, false));
    // Event 0 is harmless now, and yet answer 0 would lead to the state where event 1 is not.
    let settled = settled.session.raise(&region, 0)?.settle(&region, 0)?;
    assert_eq!(rt; told(&settled), (1, true));
    Ok(())
}

#[test]
fn numbers_out_of_range(rt: HostRuntime) -> Result<(), Fail> {
    let host = Host::one_latch();
    let region = host.region();
    let waiting = refused(open(&region).raise(&region, 2), SessionFault::OutOfRange)?;
    let raised = waiting.raise(&region, 1)?;
    let raised = refused(raised.settle(&region, 2), SessionFault::OutOfRange)?;
    assert_eq!(rt; told(&raised.settle(&region, 1)?), (1, false));
    Ok(())
}

// The latch of one region is free, in the other it is set only where the host is lost, and the third has none.
#[test]
fn a_foreign_state(rt: HostRuntime) -> Result<(), Fail> {
    let (host, free_host, no_host) = (Host::one_latch(), Host::free_latch(), Host::nothing());
    let (region, free, nothing) = (host.region(), free_host.region(), no_host.region());
    let settled = open(&free).raise(&free, 1)?.settle(&free, 1)?;
    assert_eq!(rt; told(&settled), (1, false));
    let waiting = refused(settled.session.raise(&region, 5), SessionFault::Foreign)?;
    let waiting = refused(waiting.reset(&nothing), SessionFault::Foreign)?;
    let raised = waiting.raise(&free, 0)?;
    let raised = refused(raised.settle(&region, 5), SessionFault::Foreign)?;
    // On its own region it goes on; back at reset it is at home in every region.
    let settled = raised.settle(&free, 1)?;
    assert_eq!(rt; settled.answer, 1);
    let waiting = settled
        .session
        .reset(&free)?
        .reset(&region)?
        .reset(&nothing)?;
    let settled = waiting.raise(&region, 1)?.settle(&region, 0)?;
    assert_eq!(rt; told(&settled), (1, true));
    Ok(())
}

#[test]
fn a_foreign_event(rt: HostRuntime) -> Result<(), Fail> {
    let (free_host, no_host) = (Host::free_latch(), Host::nothing());
    let (free, nothing) = (free_host.region(), no_host.region());
    let raised = open(&free).raise(&free, 1)?;
    let raised = refused(raised.settle(&nothing, 0), SessionFault::Foreign)?;
    assert_eq!(rt; told(&raised.settle(&free, 0)?), (0, false));
    Ok(())
}

#[test]
fn faults_have_numbers_and_words(rt: HostRuntime) -> Result<(), Fail> {
    assert_eq!(rt; SessionFault::Foreign.number(), 42);
    assert_eq!(rt; SessionFault::OutOfRange.number(), 43);
    let foreign = SessionFault::Foreign.to_string(rt.alloc())?;
    assert!(rt; foreign.as_str() == "the session is another region's");
    let out_of_range = SessionFault::OutOfRange.to_string(rt.alloc())?;
    assert!(rt; out_of_range.as_str() == "the event or the wish is out of range");
    Ok(())
}
