//! Who is let in beyond the limit of clients.
use crate::acts::{Act, Story, Told, surprise};
use crate::book_parts::Settings;
use book_model::events::{Beyond, CONSOLE_PLACES, LOCAL_PLACES};
use message_view::Refusal;
use std::alloc::AllocError;
use std::test::Fail;

/// A client too many.
static REFUSED: Told = Told::Refuse(Refusal::TooManyClients, None);

/// So many clients come in one after the other, which may use these places; the place of the first that is answered otherwise.
fn come_in(story: &mut Story, beyond: Beyond, clients: u32) -> Result<Option<u32>, AllocError> {
    for at in 0..clients {
        match story.play(Act::ComeBeyond(beyond))? {
            Told::Client(_) => {}
            _ => return Ok(Some(at)),
        }
    }
    Ok(None)
}

/// Where one client may be there, the console's have 64 places more, and those over a Unix socket 16 more than these; a client of a
/// database has none of them.
#[test]
fn the_console_is_let_in_beyond_the_limit(rt: HostRuntime) -> Result<(), Fail> {
    let mut story = Story::new(rt.alloc(), Settings::OneClient)?;
    assert!(rt; story.play(Act::Come)? == Told::Client(1));
    assert!(rt; story.play(Act::Come)? == REFUSED);
    assert!(rt; come_in(&mut story, Beyond::Console, CONSOLE_PLACES)? == None);
    assert!(rt; story.play(Act::ComeBeyond(Beyond::Console))? == REFUSED);
    assert!(rt;
        come_in(
            &mut story,
            Beyond::LocalConsole,
            LOCAL_PLACES - CONSOLE_PLACES
        )? == None
    );
    assert!(rt; story.play(Act::ComeBeyond(Beyond::LocalConsole))? == REFUSED);
    assert!(rt; story.play(Act::Come)? == REFUSED);
    assert!(rt; story.sizes()? == [81, 0, 0, 0]);
    Ok(())
}

/// Whoever is there counts, however it came: a client of a database has a place once so many have gone that it is below the limit.
#[test]
fn who_came_beyond_the_limit_counts(rt: HostRuntime) -> Result<(), Fail> {
    let acts = [
        (Act::ComeBeyond(Beyond::Console), Told::Client(1)),
        (Act::Come, REFUSED),
        (Act::ComeBeyond(Beyond::Console), Told::Client(2)),
        (Act::Leave(1), Told::Done),
        (Act::Come, REFUSED),
        (Act::Leave(2), Told::Done),
        (Act::Come, Told::Client(3)),
        (Act::Shutdown, Told::Done),
        (
            Act::ComeBeyond(Beyond::LocalConsole),
            Told::Refuse(Refusal::ShuttingDown, None),
        ),
    ];
    let mut story = Story::new(rt.alloc(), Settings::OneClient)?;
    assert!(rt; surprise(&mut story, &acts)? == None);
    Ok(())
}
