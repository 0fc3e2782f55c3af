//! What an end's answer changes of what is known of the ends.
ghost use Rattle.std.specs.Prelude.{◌≡◌, ◌+◌, ◌<◌, false, true};
ghost use Rattle.relay_flow.specs.Flows.{count_of};
ghost use Rattle.relay_model.specs.Leases.{any_over, client_read, client_wrote, counts, is_end as ends, is_fault as faults, link_moved};

use relay_model::Flags;
use server_end::Moved;

/// How many bytes were moved.
pub fn count_moved(moved: Moved) -> usize
    ensures { result ≡ count_of moved }
{
    if let Moved::Count(count) = moved {
        count
    } else {
        0
    }
}

/// Whether four moves moved nothing.
pub fn none_moved(one: Moved, two: Moved, three: Moved, four: Moved) -> bool
    ensures none { result ≡ true → count_of one + (count_of two + (count_of three + count_of four)) ≡ 0 }
    ensures some { result ≡ false → 0 < count_of one + (count_of two + (count_of three + count_of four)) }
{
    count_moved(one) == 0
        && count_moved(two) == 0
        && count_moved(three) == 0
        && count_moved(four) == 0
}

/// Whether the end has ended.
fn is_ended(moved: Moved) -> bool
    ensures { result ≡ ends moved }
{
    matches!(moved, Moved::Ended)
}

/// Whether the end faulted.
fn is_fault(moved: Moved) -> bool
    ensures { result ≡ faults moved }
{
    matches!(moved, Moved::Fault)
}

/// Whether bytes were moved.
fn is_count(moved: Moved) -> bool
    ensures { result ≡ counts moved }
{
    matches!(moved, Moved::Count(_))
}

/// After a read from the link, or a write to it.
pub fn link_moved(flags: Flags, moved: Moved) -> Flags
    ensures { result ≡ link_moved flags moved }
{
    Flags {
        touched: flags.touched || is_count(moved),
        client_over: flags.client_over,
        input_over: flags.input_over,
        link_over: flags.link_over || (is_ended(moved) || is_fault(moved)),
    }
}

/// After a read from the client.
pub fn client_read(flags: Flags, moved: Moved) -> Flags
    ensures { result ≡ client_read flags moved }
{
    Flags {
        touched: flags.touched,
        client_over: flags.client_over || is_fault(moved),
        input_over: flags.input_over || is_ended(moved),
        link_over: flags.link_over,
    }
}

/// After a write to the client.
pub fn client_wrote(flags: Flags, moved: Moved) -> Flags
    ensures { result ≡ client_wrote flags moved }
{
    Flags {
        touched: flags.touched,
        client_over: flags.client_over || (is_ended(moved) || is_fault(moved)),
        input_over: flags.input_over,
        link_over: flags.link_over,
    }
}

/// Whether an end is over, so that nothing more is read.
pub fn any_over(flags: Flags) -> bool
    ensures { result ≡ any_over flags }
{
    flags.client_over || (flags.input_over || flags.link_over)
}
