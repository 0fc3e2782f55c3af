//! What a client is told where no memory is found for what it asks for.
use message_view::Refusal;
use serving_parts::{Client, LET_IN, Last, STAYS, is_told_unasked};
use std::test::Fail;

const OUT_OF_MEMORY: Client = Client {
    before: LET_IN,
    last: Last::Refusal(Refusal::OutOfMemory),
    ..STAYS
};

#[test]
fn a_client_that_memory_keeps_from_asking_is_told_so(rt: HostRuntime) -> Result<(), Fail> {
    assert!(rt; is_told_unasked(rt, rt.alloc(), &OUT_OF_MEMORY)?);
    Ok(())
}
