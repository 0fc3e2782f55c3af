//! The command line.
use pool_app::line::{Job, LineError, read_line};
use std::alloc::{AllocError, Global};
use std::test::Fail;

fn words_of(alloc: Global, text: &str) -> Result<Vec<String>, AllocError> {
    let mut words = Vec::new(alloc);
    for word in text.split(' ') {
        words.push(String::from_str(alloc, word)?)?;
    }
    Ok(words)
}

#[test]
fn the_job_replay(rt: HostRuntime) -> Result<(), Fail> {
    let words = words_of(rt.alloc(), "pgsess replay")?;
    assert!(rt; matches!(read_line(rt.alloc(), words.as_slice()), Ok(Job::Replay)));
    Ok(())
}

#[test]
fn the_job_serve(rt: HostRuntime) -> Result<(), Fail> {
    let rows = [
        (
            "pgsess serve --users u --ini=i --key-seed k",
            Some("u"),
            Some("k"),
        ),
        ("pgsess serve --ini i --users u", Some("u"), None),
        ("pgsess serve --ini i", None, None),
    ];
    for (text, users, key_seed) in rows {
        let words = words_of(rt.alloc(), text)?;
        let wanted = Job::Serve {
            ini: "i",
            users,
            key_seed,
        };
        assert!(rt; matches!(read_line(rt.alloc(), words.as_slice()), Ok(job) if job == wanted));
    }
    Ok(())
}

#[test]
fn the_job_check(rt: HostRuntime) -> Result<(), Fail> {
    let rows = [
        ("pgsess check --users u --ini=i", Some("u")),
        ("pgsess check --ini i", None),
    ];
    for (text, users) in rows {
        let words = words_of(rt.alloc(), text)?;
        let wanted = Job::Check { ini: "i", users };
        assert!(rt; matches!(read_line(rt.alloc(), words.as_slice()), Ok(job) if job == wanted));
    }
    Ok(())
}

#[test]
fn the_job_stub(rt: HostRuntime) -> Result<(), Fail> {
    let words = words_of(rt.alloc(), "pgsess stub --port 65535 --catalogue c")?;
    let wanted = Job::Stub {
        port: 65535,
        catalogue: "c",
    };
    assert!(rt; matches!(read_line(rt.alloc(), words.as_slice()), Ok(job) if job == wanted));
    Ok(())
}

#[test]
fn statuses_of_the_line(rt: HostRuntime) -> Result<(), Fail> {
    let rows = [
        ("pgsess --help", 0),
        ("pgsess serve --help", 0),
        ("pgsess help", 0),
        ("pgsess --version", 0),
        ("pgsess", 2),
        ("pgsess bogus", 2),
        ("pgsess replay x", 2),
        ("pgsess serve --users u", 2),
        ("pgsess check --users u", 2),
        ("pgsess check --ini i --key-seed k", 2),
        ("pgsess stub --port 0 --catalogue c", 2),
        ("pgsess stub --port 65536 --catalogue c", 2),
        ("pgsess stub --port 1", 2),
    ];
    for (text, want) in rows {
        let words = words_of(rt.alloc(), text)?;
        match read_line(rt.alloc(), words.as_slice()) {
            Ok(_) => assert!(rt; false, "{text}"),
            Err(fault) => assert_eq!(rt; fault.status(), want, "{text}"),
        }
    }
    assert!(rt; LineError::NoJob.status() == 2);
    Ok(())
}
